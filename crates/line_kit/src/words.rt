// The words of the lines.

ghost use Rattle.std.specs.Prelude.{◌≡◌, ◌<◌, ◌∷◌, [], IfOk, MatchOption, length};
ghost use Rattle.std.specs.List.{flat_map, prefix_len};
ghost use Rattle.std.specs.Prelude.{not};
ghost use Rattle.sky_base.specs.KitView.{RunsSo};
ghost use Rattle.line_kit.specs.Lines.{all_lines, joined};
ghost use Rattle.line_kit.specs.Words.{is_gap, words};
ghost use Rattle.line_kit.specs.Gives.{one};
ghost use Rattle.line_kit.specs.Written.{extended, finished};

use crate::lines::Lines;
use crate::output::{Answer, Output};
use sky_base::text::{Bytes, Memory};
use std::alloc::Global;

fn is_gap(byte: u8) -> bool
    ensures { result ≡ is_gap byte }
{
    byte == b' ' || byte == b'\t' || byte == b'\r'
}

fn gap_len(bytes: &[u8]) -> usize
    ensures { result ≡ prefix_len is_gap bytes.now }
{
    bytes.iter().take_while(|b| is_gap(**b)).count()
}

fn word_len(bytes: &[u8]) -> usize
    ensures { result ≡ prefix_len (λ b. not (is_gap b)) bytes.now }
{
    bytes.iter().take_while(|b| !is_gap(**b)).count()
}

/// The first word, and what follows it.
#[tactic(auto, using(crate::proofs::FirstWord::splits))]
pub fn first_word<'a>(bytes: &'a [u8]) -> Option<(&'a [u8], &'a [u8])>
    ensures { MatchOption result (words bytes.now ≡ [])
        (λ w. (words bytes.now ≡ w.0.now ∷ words w.1.now) × (length w.1.now < length bytes.now)) }
{
    let (_, from) = bytes.split_at(gap_len(bytes));
    if from.is_empty() {
        return None;
    }
    Some(from.split_at(word_len(from)))
}

#[tactic(auto, using(crate::proofs::WrittenLaw::pieces))]
fn put_words(out: &mut Output, line: &[u8]) -> Result<(), Memory>
    ensures { IfOk result (λ _. finished out.new ≡ extended out.old (joined (words line.now))) }
{
    let mut rest = line;
    while let Some((word, more)) = first_word(rest) {
        out.put_line(word)?;
        rest = more;
    }
    Ok(())
}

/// The words of the lines, one per line.
#[tactic(auto, using(crate::proofs::WrittenLaw::pieces))]
pub(crate) fn words(alloc: Global, inputs: &[Bytes]) -> Answer
    ensures { IfOk result (λ r. RunsSo r (one (flat_map words (all_lines inputs.now)))) }
{
    let mut out = Output::new(alloc);
    let mut lines = Lines::new(inputs);
    while let Some(line) = lines.next_line() {
        put_words(&mut out, line)?;
    }
    out.alone(alloc)
}
