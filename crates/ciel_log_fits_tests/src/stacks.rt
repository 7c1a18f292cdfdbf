// Which stack has some bytes.

use ciel_log_fits::stacks::read_stack;
use sky_base::name::Name;
use sky_base::object::TaskId;
use sky_frozen::fitting::Fitting;
use sky_machine_numbers::code::number_script;
use sky_machine_test_scripts::script::script;
use std::alloc::Global;
use std::test::Fail;

// The start of a main body.
static START: &[u8] =
    b"K\x01\x00\0\0\0\0\0\0\0\0\0\0\0\x01\0\0\0\0\0\0\0\0\0\0\0\0\0\0\0\x01\0\0\0\0\0\0\0\0";

// Whether these bytes are a stack of the task at a wait, and have no names then.
fn is_stack(alloc: Global, task: &TaskId, wait: u32, bytes: &[u8]) -> Result<bool, Fail> {
    let script = script(alloc, "return 1 + 2;")?;
    let tables = number_script(alloc, &script)?;
    let numbered = tables.over(&script);
    let fitting = Fitting::new(alloc, &numbered)?;
    match read_stack(alloc, &fitting, task, wait, bytes)? {
        Some(stack) => {
            Ok(stack.refs.len() == 0 && stack.holds.len() == 0 && stack.frozen.bytes() == bytes)
        }
        None => Ok(false),
    }
}

// That of a call at its first wait; not at the second, not of the root task, and not without its last byte.
#[test]
fn stacks_are_read(rt: HostRuntime) -> Result<(), Fail> {
    let call = TaskId::Of(Name::short([1; 20]));
    assert!(&rt; START.len() == 39);
    let rows = [
        (&call, 0, 39, true),
        (&call, 1, 39, false),
        (&TaskId::Show, 0, 39, false),
        (&call, 0, 38, false),
    ];
    for (task, wait, length, read) in rows {
        assert_eq!(&rt; is_stack(rt.alloc(), task, wait, &START[..length])?, read);
    }
    Ok(())
}
