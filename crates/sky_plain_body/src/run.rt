// The run of one call's body, up to its end or to what it waits for.

ghost use Rattle.std.specs.Prelude.{IfOk};
ghost use Rattle.sky_base.specs.Kept.{Kept};
ghost use Rattle.sky_base.specs.Val.{dict, list};
ghost use Rattle.sky_base_known.specs.Data.{data_of};
ghost use Rattle.sky_plain_body.specs.Ran.{Begins, RanSo, KeptRan};

use crate::stmt::body;
use sky_base::name::Name;
use sky_base::object::Object;
use sky_base::text::{Memory, Txt};
use sky_base::value::{Pairs, Vals, Value};
use sky_base_forms::ground::Ground;
use sky_base_known::objects::Objects;
use sky_base_known::rows::Rows;
use sky_base_scope::cut::{Cut, Flow};
use sky_base_scope::program::Program;
use sky_base_scope::state::State;
use std::alloc::Global;

/// How many bodies may be open at once.
const MOST_BODIES: u32 = 64;

/// How a call's run stops.
#[derive(Drop)]
pub enum Ran {
    /// It ends with this object.
    Object(Object),
    /// It waits for the object of this name.
    Waits(Name),
    /// It makes one description too many.
    Full,
}

/// Runs the body of a function on what it captured and on its arguments.
#[tactic(auto, using(crate::proofs::RunEnds::run_ends))]
pub fn run_call(
    alloc: Global,
    script: &Program,
    rows: &mut Rows,
    objects: &Objects,
    fun: &Txt,
    caught: &Pairs,
    args: &Vals,
) -> Result<Ran, Memory>
    requires caught { Kept (dict caught.now) }
    requires args { Kept (list args.now) }
    ensures grows { IfOk result (λ _. Begins rows.old rows.new) }
    ensures runs { IfOk result (λ r. RanSo script.now data_of objects.now rows.old fun.now caught.now args.now rows.new r) }
    ensures kept { IfOk result (λ r. KeptRan r) }
{
    let ground = Ground {
        alloc,
        script,
        objects,
    };
    let mut state = State::new(alloc, 0);
    let flow = body(
        &ground,
        rows,
        &mut state,
        MOST_BODIES,
        fun,
        caught,
        args,
        0,
        0,
    );
    // Each description is held once.
    let _held = rows.len();
    match flow {
        Ok(Flow::Goes) => Ok(Ran::Object(Object::Data(Value::Null))),
        Ok(Flow::Returned(v)) => Ok(Ran::Object(Object::Data(v))),
        Err(cut) => match cut {
            Cut::Fault(fault) => Ok(Ran::Object(Object::Fault(fault))),
            Cut::Waits(name) => Ok(Ran::Waits(name)),
            Cut::Full => Ok(Ran::Full),
            Cut::Memory => Err(Memory),
        },
    }
}
