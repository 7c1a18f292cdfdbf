// What a run does next.

ghost use Rattle.std.specs.Prelude.{◌≡◌};
ghost use Rattle.sky_base.specs.Res.{fault_at};
ghost use Rattle.sky_base.specs.TreeView.{at};

use sky_base::fault::{Fault, FaultKind};
use sky_base::name::Name;
use sky_base::names::Names;
use sky_base::stmt::Stmt;
use sky_base::tree::Expr;
use sky_base::value::Value;

/// How a piece of script ends.
#[derive(Drop)]
pub enum End {
    /// A statement or a block is done.
    Goes,
    /// An expression has this value.
    Got(Value),
    /// The body returns this value.
    Returned(Value),
    Failed(Fault),
}

/// What a run waits for.
#[derive(Drop)]
pub enum Wait {
    /// The object of this name, at the place of the `*`.
    One { line: u32, col: u32, name: Name },
    /// All outputs of an `exec`.
    All(Names),
}

/// What is to be done next: an expression or a statement is begun at its node, or a piece has ended, or the run waits.
#[derive(Drop)]
pub enum Control<'a> {
    Begin(u32, &'a Expr),
    Do(u32, &'a Stmt),
    End(End),
    Wait(Wait),
}

/// The run ends with this fault.
pub fn fail<'a>(kind: FaultKind, line: u32, col: u32) -> Control<'a>
    ensures { result ≡ Control.End (End.Failed (fault_at kind (at line col))) }
{
    Control::End(End::Failed(Fault { kind, line, col }))
}
