// The root task goes through the waves of its result.

ghost use Rattle.std.specs.Prelude.{◌≡◌, None};
ghost use Rattle.sky_machine.specs.Onward.{IsRead};

use crate::finder::{Shelf, shelf_of};
use crate::runs::{Came, ran};
use sky_base::name::Name;
use sky_machine_numbers::code::{Numbered, number_script};
use sky_machine_test_scripts::script::script;
use sky_state::state::State;
use std::alloc::Global;
use std::process::Abort;
use std::test::Fail;

/// The bytes of the main call, whether they are refused, and what the root task comes to.
#[derive(Clone, Copy)]
struct Row {
    bytes: &'static [u8],
    refuses: bool,
    came: Came,
}

static ROWS: [Row; 3] = [
    Row {
        bytes: b"seven",
        refuses: false,
        came: Came::Text(5),
    },
    Row {
        bytes: b"",
        refuses: false,
        came: Came::Text(0),
    },
    Row {
        bytes: b"seven",
        refuses: true,
        came: Came::Refused,
    },
];

/// What the root task comes to where all is there.
fn shows(alloc: Global, script: &Numbered, shelf: &mut Shelf) -> Result<Came, Fail>
    requires same { script.now.nodes ≡ script.now.code }
    requires read { IsRead script.now.code }
    requires all { shelf.old.lacks ≡ None }
{
    let mut state = State::start_show(Name::short([7; 20]));
    ran(alloc, script, &mut state, shelf)
}

/// One of the rows.
fn comes_so(alloc: Global, row: &Row) -> Result<bool, Fail> {
    let script = script(alloc, "return 1;")?;
    let tables = number_script(alloc, &script)?;
    let numbered = tables.over(&script);
    let mut shelf = shelf_of(alloc, row.bytes, None, row.refuses)?;
    let came = shows(alloc, &numbered, &mut shelf)?;
    Ok(came == row.came)
}

#[test]
fn the_root_task_shows_what_is_found(rt: HostRuntime) -> Result<(), Fail> {
    for row in &ROWS {
        assert!(&rt; comes_so(rt.alloc(), row)?);
    }
    Ok(())
}
