// The executors that give the first lines or all of them.

ghost use Rattle.std.specs.Prelude.{◌≡◌, IfOk, take, drop};
ghost use Rattle.sky_base.specs.KitView.{RunsSo};
ghost use Rattle.line_kit.specs.Lines.{lines, all_lines, joined};
ghost use Rattle.line_kit.specs.Gives.{one};
ghost use Rattle.line_kit.specs.Written.{extended, finished};

use crate::lines::{Lines, is_open};
use crate::output::{Answer, Output};
use sky_base::text::{Bytes, Memory};
use std::alloc::Global;

// Puts all lines of some bytes: the bytes, and a line feed where the last line has none.
#[tactic(auto, using(crate::proofs::WrittenLaw::pieces, crate::proofs::OpenLaw::opens))]
fn put_lines(out: &mut Output, bytes: &[u8]) -> Result<(), Memory>
    ensures { IfOk result (λ _. out.new ≡ extended out.old (joined (lines bytes.now))) }
{
    out.put(bytes)?;
    if is_open(bytes) {
        return out.put(b"\n");
    }
    Ok(())
}

/// All lines.
#[tactic(auto, using(crate::proofs::WrittenLaw::pieces))]
pub(crate) fn cat(alloc: Global, inputs: &[Bytes]) -> Answer
    ensures { IfOk result (λ r. RunsSo r (one (all_lines inputs.now))) }
{
    let mut out = Output::new(alloc);
    for input in inputs {
        put_lines(&mut out, input.as_slice())?;
    }
    out.alone(alloc)
}

/// The first so many lines.
#[tactic(auto, using(crate::proofs::WrittenLaw::pieces))]
pub(crate) fn head(alloc: Global, count: u64, inputs: &[Bytes]) -> Answer
    ensures { IfOk result (λ r. RunsSo r (one (take count (all_lines inputs.now)))) }
{
    let mut out = Output::new(alloc);
    let mut lines = Lines::new(inputs);
    put_some(&mut out, &mut lines, u128::from(count))?;
    out.alone(alloc)
}

/// Puts the next so many lines, or all that are left.
#[tactic(auto, using(crate::proofs::WrittenLaw::pieces))]
pub(crate) fn put_some(out: &mut Output, lines: &mut Lines, count: u128) -> Result<(), Memory>
    ensures out { IfOk result (λ _. finished out.new ≡ extended out.old (joined (take count lines.old))) }
    ensures lines { IfOk result (λ _. lines.new ≡ drop count lines.old) }
{
    let mut left = count;
    while left > 0 {
        match lines.next_line() {
            Some(line) => out.put_line(line)?,
            None => return Ok(()),
        }
        left -= 1;
    }
    Ok(())
}
