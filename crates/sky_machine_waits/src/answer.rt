// How a wait ends.

ghost use Rattle.std.specs.Prelude.{◌≡◌, [], ◌∷◌, ℕ, List, map, IfOk, MatchOption};
ghost use Rattle.sky_base.specs.Val.{Desc, list, refs_to};
ghost use Rattle.sky_base.specs.Res as logic;
ghost use Rattle.sky_base.specs.Res.{one_of};
ghost use Rattle.sky_base.specs.Eval.{World, wait_end, exec_end};
ghost use Rattle.sky_base.specs.ObjectView.{object_view};
ghost use Rattle.sky_base.specs.TreeView.{at};
ghost use Rattle.sky_machine_entries.specs.Entries.{end_of, wait_of};
ghost use Rattle.sky_machine_entries.specs.Ready.{EndReady};
ghost use Rattle.sky_base_known.specs.Known.{KeptObject};
ghost use Rattle.sky_machine_waits.specs.Answers.{ReadsData, AnswersKept, ListKept};

use sky_base::fault::Fault;
use sky_base::object::Object;
use sky_base::text::Memory;
use sky_base::value::Value;
use sky_base_known::data::read;
use sky_machine_entries::control::{End, Wait};
use sky_machine_save::kept::references;
use std::alloc::Global;

/// How a wait ends with these objects, one for each description that it is for, in order: a `*` has the value of the first,
/// read as data where it is bytes, and an `exec` the list of its references. The first fault is the end.
///
/// Answers `Memory` for want of memory.
pub fn answered(alloc: Global, wait: &Wait, answers: &[Object]) -> Result<End, Memory>
    requires list { ListKept wait.now }
    requires objects { AnswersKept answers.now }
    ensures end { IfOk result (λ e. (w : World (List ℕ)) → ReadsData w → end_of e ≡ wait_end w (wait_of wait.now) (map object_view answers.now)) }
    ensures ready { IfOk result EndReady }
{
    match wait {
        Wait::One { line, col, .. } => match answers.first() {
            Some(object) => {
                let end = value_of(alloc, object, *line, *col)?;
                Ok(end)
            }
            None => Ok(End::Got(Value::Null)),
        },
        Wait::All(names) => match first_fault(answers) {
            Some(fault) => Ok(End::Failed(fault)),
            None => Ok(End::Got(references(alloc, names)?)),
        },
    }
}

/// The value of an object; bytes are read as data, at the place of the `*`.
fn value_of(alloc: Global, object: &Object, line: u32, col: u32) -> Result<End, Memory>
    requires { KeptObject (object_view object.now) }
    ensures end { IfOk result (λ e. (w : World (List ℕ)) → ReadsData w → (d : Desc (List ℕ)) → end_of e
        ≡ wait_end w (one_of (at line col) d) (object_view object.now ∷ [])) }
    ensures ready { IfOk result EndReady }
{
    match object {
        Object::Bytes(bytes) => match read(alloc, bytes)? {
            Ok(value) => Ok(End::Got(value)),
            Err(kind) => Ok(End::Failed(Fault { kind, line, col })),
        },
        Object::Data(value) => Ok(End::Got(value.copy()?)),
        Object::Fault(fault) => Ok(End::Failed(*fault)),
    }
}

/// The first of these that is a fault, if one is.
fn first_fault(answers: &[Object]) -> Option<Fault>
    ensures { (ds : List (Desc (List ℕ))) → MatchOption result (exec_end ds (map object_view answers.now) ≡ logic.End.got (list (refs_to ds)))
        (λ f. exec_end ds (map object_view answers.now) ≡ logic.End.failed f) }
{
    for object in answers {
        if let Object::Fault(fault) = object {
            return Some(*fault);
        }
    }
    None
}
