// The texts of names and of saved stacks.

ghost use Rattle.std.specs.Prelude.{◌≡◌, ◌++◌, IfOk, string_bytes};
ghost use Rattle.hex.specs.Hex.{encode_lower};
ghost use Rattle.ciel_name.specs.Texts.{task_text, cont_text};

use itoa::Buffer;
use sky_base::name::Name;
use sky_base::object::TaskId;
use sky_base::text::{Memory, Txt};
use std::alloc::Global;

/// The text of a name: two lower-case hexadecimal digits for each byte.
///
/// Answers `Memory` for want of memory.
pub fn name_text(alloc: Global, name: &Name) -> Result<Txt, Memory>
    ensures text { IfOk result (λ t. t ≡ encode_lower name.now) }
{
    Txt::from_string(digits(alloc, name)?)
}

/// The name of the stack that a task saved at a wait: the task's text, `show` for the root task and else that of its
/// name, then `#` and the number of the wait in decimal.
///
/// Answers `Memory` for want of memory.
pub fn cont_name(alloc: Global, task: &TaskId, wait: u32) -> Result<Txt, Memory>
    ensures text { IfOk result (λ t. t ≡ cont_text task.now wait) }
{
    let mut text = task_string(alloc, task)?;
    put(&mut text, "#")?;
    put(&mut text, Buffer::new().format(wait))?;
    Txt::from_string(text)
}

/// The text of a task.
fn task_string(alloc: Global, task: &TaskId) -> Result<String, Memory>
    ensures { IfOk result (λ t. string_bytes t ≡ task_text task.now) }
{
    match task {
        TaskId::Show => match String::from_str(alloc, "show") {
            Ok(text) => Ok(text),
            Err(_) => Err(Memory),
        },
        TaskId::Of(name) => digits(alloc, name),
    }
}

/// The digits of a name.
fn digits(alloc: Global, name: &Name) -> Result<String, Memory>
    ensures { IfOk result (λ t. string_bytes t ≡ encode_lower name.now) }
{
    match hex::encode(alloc, name.bytes()) {
        Ok(text) => Ok(text),
        Err(_) => Err(Memory),
    }
}

/// Puts a piece at the end of a text.
fn put(text: &mut String, piece: &str) -> Result<(), Memory>
    ensures { IfOk result (λ _. string_bytes text.new ≡ string_bytes text.old ++ piece.now) }
{
    match text.push_str(piece) {
        Ok(()) => Ok(()),
        Err(_) => Err(Memory),
    }
}
