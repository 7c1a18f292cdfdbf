//! The value of `--lose`: pairs with commas between, each a count and a worker with a colon between.

ghost use Rattle.std.specs.Prelude.{◌≡◌, ◌∷◌, [], ◌<◌, Ok, Err, IfOk, IfErr, Some, None, length, MatchOption};
ghost use Rattle.ciel_words.specs.Values.{pieces, count_in, worker_in, loss_in, losses_in};

use crate::numbers::number_within;
use crate::words::{LossList, WordsRefusal};
use std::alloc::Global;

/// The greatest number of losses.
const MOST_LOSSES: usize = 64;

// What stands before the colon, or all of it where there is none.
fn count_of(pair: &str) -> &str
    ensures { result.now ≡ count_in pair.now }
{
    match pair.split_once(':') {
        Some((count, _)) => count,
        None => pair,
    }
}

// What stands behind the colon; nothing where there is none.
fn worker_of(pair: &str) -> &str
    ensures { result.now ≡ worker_in pair.now }
{
    match pair.split_once(':') {
        Some((_, worker)) => worker,
        None => "",
    }
}

// The loss that a pair asks for, of a worker below `workers`.
fn loss(pair: &str, workers: u32) -> Option<(u32, u32)>
    requires { 0 < workers }
    ensures { result ≡ loss_in workers pair.now }
{
    let count = number_within(0, u64::from(u32::MAX), count_of(pair))?;
    let worker = number_within(0, u64::from(workers) - 1, worker_of(pair))?;
    Some((count as u32, worker as u32))
}

// The first piece before a comma, and what stands behind the comma, if there is one.
fn first_piece(text: &str) -> (&str, Option<&str>)
    ensures pieces { MatchOption result.1 (pieces text.now ≡ result.0.now ∷ []) (λ rest. pieces text.now ≡ result.0.now ∷ pieces rest.now) }
{
    match text.split_once(',') {
        Some((piece, rest)) => (piece, Some(rest)),
        None => (text, None),
    }
}

/// The losses that the value of `--lose` asks for: 1 to 64, of workers below `workers`.
pub(crate) fn losses(alloc: Global, value: &str, workers: u32) -> Result<LossList, WordsRefusal>
    requires { 0 < workers }
    ensures losses { IfOk result (λ l. losses_in workers value.now ≡ Some l) }
    ensures usage { result ≡ Err WordsRefusal.Usage → losses_in workers value.now ≡ None }
{
    let mut items = Vec::new(alloc);
    let mut rest = Some(value);
    while let Some(text) = rest {
        let (piece, more) = first_piece(text);
        let Some(loss) = loss(piece, workers) else {
            return Err(WordsRefusal::Usage);
        };
        if items.push(loss).is_err() {
            return Err(WordsRefusal::Memory);
        }
        rest = more;
    }
    if items.len() > MOST_LOSSES {
        return Err(WordsRefusal::Usage);
    }
    Ok(LossList::of(items))
}
