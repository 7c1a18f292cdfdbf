// The machine's forms under way, saved.

ghost use Rattle.std.specs.Prelude.{◌≡◌, [], IfOk};
ghost use Rattle.sky_state.specs.StateView.{spawned_of};

use crate::frozen::{freezes, run_of, squares, two};
use sky_base::name::Name;
use sky_base::text::Txt;
use sky_machine_entries::entry::{BlockAt, Entry, InBlock, InForm, InStmt, Parens, Star, Whole};
use sky_machine_save::save::save;
use sky_state::state::State;
use std::alloc::Global;
use std::test::Fail;

/// The main body of the sum of two squares, where the machine waits for the first.
fn machine(alloc: Global, first: Name, second: Name) -> Result<State, Fail>
    ensures { IfOk result (λ s. spawned_of s ≡ []) }
{
    let entries = [
        Entry::Block(InBlock::Block(BlockAt {
            node: 0,
            step: 3,
            next: 0,
            rest: &[],
        })),
        Entry::Stmt(InStmt::Return(Whole { node: 11 })),
        Entry::Form(InForm::Parens(Parens { node: 12 })),
        Entry::Form(InForm::Star(Star {
            node: 13,
            step: 2,
            name: first,
            signs: &[],
        })),
    ];
    let vars = two(alloc, first, second)?;
    let frames = save(alloc, &entries, &Txt::new(alloc, "")?, &vars)?;
    let state = run_of(alloc, frames, 13, 1);
    Ok(state)
}

#[test]
fn a_waiting_machine_is_saved(rt: HostRuntime) -> Result<(), Fail> {
    let (first, second) = ([1u8; 20], [2u8; 20]);
    let state = machine(rt.alloc(), Name::short(first), Name::short(second))?;
    let want = squares(rt.alloc(), 8, &first, &second)?;
    freezes(&rt, rt.alloc(), &state, want.as_slice())
}
