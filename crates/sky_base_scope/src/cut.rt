// Why a run stops before its end.

ghost use Rattle.std.specs.Prelude.{◌≡◌};
ghost use Rattle.sky_base.specs.Res.{fault_at};
ghost use Rattle.sky_base.specs.TreeView.{at};
ghost use Rattle.sky_base_scope.specs.RunView.{raised};

use sky_base::fault::{Fault, FaultKind};
use sky_base::name::Name;
use sky_base::op::OpRefusal;
use sky_base::text::Memory;
use sky_base::value::Value;

/// Why a run stops before its end.
#[derive(Clone, Copy, Debug)]
pub enum Cut {
    Fault(Fault),
    /// It reads the object of this name, which isn't known.
    Waits(Name),
    /// It makes one description too many.
    Full,
    Memory,
}

impl From<Memory> for Cut {
    ghost use Rattle.std.specs.Prelude.{◌≡◌};
    ghost use Rattle.sky_base_scope.specs.declared.cut.Cut.{Cut};

    ghost from_gives = { λ _ c. c ≡ Cut.Memory };

    fn from(_memory: Memory) -> Cut {
        Cut::Memory
    }
}

/// How a statement ends that isn't cut off.
#[derive(Drop)]
pub enum Flow {
    Goes,
    Returned(Value),
}

/// The fault of this kind at a place.
pub fn fault(kind: FaultKind, line: u32, col: u32) -> Cut
    ensures { result ≡ Cut.Fault (fault_at kind (at line col)) }
{
    Cut::Fault(Fault { kind, line, col })
}

/// What an operator's refusal is at a place.
pub fn raise(refusal: OpRefusal, line: u32, col: u32) -> Cut
    ensures { result ≡ raised refusal (at line col) }
{
    match refusal {
        OpRefusal::Refused(kind) => fault(kind, line, col),
        OpRefusal::Memory => Cut::Memory,
    }
}
