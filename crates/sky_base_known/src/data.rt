// Bytes as data: they are read as JSON.

ghost use Rattle.std.specs.Prelude.{IfOk};
ghost use Rattle.sky_base.specs.Kept.{Kept};
ghost use Rattle.sky_base.specs.View.{view};
ghost use Rattle.sky_base.specs.OpView.{Exactly};
ghost use Rattle.sky_base_known.specs.Data.{data_of};

use ciel_json::read::{ToValue, to_value};
use sky_base::fault::FaultKind;
use sky_base::text::{Bytes, Memory};
use sky_base::value::Value;
use std::alloc::Global;

/// What bytes are as data: TooLarge, NotData or TooDeep where they are none.
pub fn read(alloc: Global, bytes: &Bytes) -> Result<Result<Value, FaultKind>, Memory>
    ensures answer { IfOk result (λ r. Exactly r (data_of bytes.now)) }
    ensures kept { IfOk result (λ r. IfOk r (λ v. Kept (view v))) }
{
    match to_value(alloc, bytes.as_slice()) {
        Ok(value) => Ok(Ok(value)),
        Err(ToValue::TooLarge) => Ok(Err(FaultKind::TooLarge)),
        Err(ToValue::NotData) => Ok(Err(FaultKind::NotData)),
        Err(ToValue::TooDeep) => Ok(Err(FaultKind::TooDeep)),
        Err(ToValue::Memory) => Err(Memory),
    }
}
