// The lines in turn to each output.

ghost use Rattle.std.specs.Prelude.{◌≡◌, ℕ, ◌<◌, ◌∷◌, ◌++◌, [], IfOk, IfErr, map, replicate};
ghost use Rattle.line_kit.specs.Parts.{dealt};
ghost use Rattle.line_kit.specs.Gives.{with_lines};
ghost use Rattle.line_flow.specs.Drained.{Completes};
ghost use Rattle.line_flow.specs.Kept.{HasTurns, AreStreams, AreEmpty, AreHandedOut, is_over};
ghost use Rattle.std.specs.List.{list_any};

use crate::buffer::put_line;
use crate::stream::Stream;
use line_kit::output::Answer;
use sky_base::fault::FaultKind;
use sky_base::text::{Bytes, Memory};
use std::alloc::Global;

/// The outputs, and whose turn it is.
#[derive(Drop)]
pub(crate) struct Turns {
    pub(crate) outs: Vec<Stream>,
    pub(crate) turn: usize,
}

fn empty_streams(alloc: Global, outputs: u32) -> Result<Vec<Stream>, Memory>
    ensures { IfOk result (λ v. AreEmpty v.items outputs) }
{
    let mut outs = Vec::new(alloc);
    for _i in 0..outputs {
        if outs.push(Stream::new(alloc)).is_err() {
            return Err(Memory);
        }
    }
    Ok(outs)
}

impl Turns {
    /// So many outputs without a line.
    pub(crate) fn new(alloc: Global, outputs: u32) -> Result<Turns, Memory>
        ensures { IfOk result (λ t. 0 < outputs → HasTurns t outputs (replicate outputs []) []) }
    {
        Ok(Turns {
            outs: empty_streams(alloc, outputs)?,
            turn: 0,
        })
    }

    /// Takes a line.
    pub(crate) fn take(&mut self, line: &[u8]) -> Result<(), Memory>
        ensures ok { IfOk result (λ _. (n : ℕ) (drained : _) (ls : _) → 0 < n → HasTurns self.old n drained ls
            → HasTurns self.new n drained (ls ++ line.now ∷ [])) }
        ensures err { IfErr result (λ _. (n : ℕ) (drained : _) (ls : _) → HasTurns self.old n drained ls → HasTurns self.new n drained ls) }
    {
        if self.turn >= self.outs.len() {
            return Ok(());
        }
        put_line(&mut self.outs[self.turn].bytes, line)?;
        self.turn += 1;
        if self.turn == self.outs.len() {
            self.turn = 0;
        }
        Ok(())
    }
}

// Copies of the bytes that wait.
fn copied(alloc: Global, outs: &[Stream]) -> Result<Vec<Bytes>, Memory>
    ensures { IfOk result (λ v. v.items ≡ map (λ s. s.bytes.items) outs.now) }
{
    let mut all = Vec::new(alloc);
    for out in outs {
        if all.push(out.copied(alloc)?).is_err() {
            return Err(Memory);
        }
    }
    Ok(all)
}

/// The bytes that wait of each output: they are handed out.
pub(crate) fn drain_all(alloc: Global, outs: &mut Vec<Stream>) -> Result<Vec<Bytes>, Memory>
    ensures ok { IfOk result (λ v. v.items ≡ map (λ s. s.bytes.items) outs.old.items) }
    ensures streams { IfOk result (λ _. AreHandedOut outs.old.items outs.new.items) }
    ensures err { IfErr result (λ _. outs.new.items ≡ outs.old.items) }
{
    let all = copied(alloc, outs.as_slice())?;
    for i in 0..outs.len() {
        outs[i].hand_out();
    }
    Ok(all)
}

/// Whether an output has more bytes than an output may have.
pub(crate) fn is_any_over(outs: &[Stream]) -> bool
    ensures { result ≡ list_any is_over outs.now }
{
    outs.iter().any(|out| out.is_over())
}

// The bytes that wait.
fn left_of(alloc: Global, outs: Vec<Stream>) -> Result<Vec<Bytes>, Memory>
    ensures { IfOk result (λ v. v.items ≡ map (λ s. s.bytes.items) outs.items) }
{
    let mut all = Vec::new(alloc);
    for out in outs {
        if all.push(Bytes::new(alloc, out.bytes)?).is_err() {
            return Err(Memory);
        }
    }
    Ok(all)
}

/// The answer with what is left of these outputs.
pub(crate) fn finish_all(alloc: Global, outs: Vec<Stream>) -> Answer
    ensures { IfOk result (λ r. (n : ℕ) (drained : _) (ls : _) → AreStreams outs.items n drained ls → Completes drained r (with_lines (dealt n ls))) }
{
    if is_any_over(outs.as_slice()) {
        return Ok(Err(FaultKind::TooLarge));
    }
    Ok(Ok(left_of(alloc, outs)?))
}
