// Whether two inputs have the same lines.

ghost use Rattle.std.specs.Prelude.{◌≡◌, ◌∷◌, [], IfOk};
ghost use Rattle.sky_base.specs.KitView.{RunsSo};
ghost use Rattle.line_kit.specs.Lines.{lines, same_lines};
ghost use Rattle.line_kit.specs.Gives.{one, truth_text, input};

use crate::lines::Lines;
use crate::output::{Answer, one_line};
use sky_base::text::Bytes;
use std::alloc::Global;

fn input(inputs: &[Bytes], place: usize) -> &[u8]
    ensures { result.now ≡ input inputs.now place }
{
    if place < inputs.len() {
        inputs[place].as_slice()
    } else {
        &[]
    }
}

fn same_lines(one: &[u8], other: &[u8]) -> bool
    ensures { result ≡ same_lines (lines one.now) (lines other.now) }
{
    let mut ones = Lines::of(one);
    let mut others = Lines::of(other);
    while let Some(line) = ones.next_line() {
        match others.next_line() {
            Some(second) if line == second => {}
            _ => return false,
        }
    }
    others.next_line().is_none()
}

/// The text of a truth value.
pub fn truth_text(holds: bool) -> &'static [u8]
    ensures { result.now ≡ truth_text holds }
{
    if holds { b"true" } else { b"false" }
}

/// Whether the first two inputs have the same lines, in a line.
pub(crate) fn same(alloc: Global, inputs: &[Bytes]) -> Answer
    ensures { IfOk result (λ r. RunsSo r
        (one (truth_text (same_lines (lines (input inputs.now 0)) (lines (input inputs.now 1))) ∷ []))) }
{
    one_line(
        alloc,
        truth_text(same_lines(input(inputs, 0), input(inputs, 1))),
    )
}
