// An output that is handed out while it grows.

ghost use Rattle.std.specs.Prelude.{◌≡◌, ◌+◌, ◌-◌, ◌^◌, ◌∷◌, [], IfOk, IfErr, length, min, replicate};
ghost use Rattle.line_kit.specs.Lines.{joined};
ghost use Rattle.line_kit.specs.Gives.{one};
ghost use Rattle.line_flow.specs.Drained.{Follows, Completes};
ghost use Rattle.line_flow.specs.Kept.{HasOne, is_over};

use line_kit::output::{Answer, MOST_BYTES};
use sky_base::fault::FaultKind;
use sky_base::text::{Bytes, Memory};
use std::alloc::Global;

/// The bytes of an output that wait to be handed out, and how many were handed out before, up to the greatest
/// number of 64 bits: what was handed out isn't kept.
#[derive(Drop)]
pub(crate) struct Stream {
    pub(crate) bytes: Vec<u8>,
    pub(crate) gone: u64,
}

impl Stream {
    /// An output of which nothing has come.
    pub(crate) fn new(alloc: Global) -> Stream
        ensures bytes { result.bytes.items ≡ [] }
        ensures gone { result.gone ≡ 0 }
    {
        Stream {
            bytes: Vec::new(alloc),
            gone: 0,
        }
    }

    /// A copy of the bytes that wait.
    pub(crate) fn copied(&self, alloc: Global) -> Result<Bytes, Memory>
        ensures { IfOk result (λ b. b ≡ self.now.bytes.items) }
    {
        match Vec::from_slice(alloc, self.bytes.as_slice()) {
            Ok(copy) => Ok(Bytes::new(alloc, copy)?),
            Err(_) => Err(Memory),
        }
    }

    /// The bytes that waited were handed out.
    pub(crate) fn hand_out(&mut self)
        ensures bytes { self.new.bytes.items ≡ [] }
        ensures gone { self.new.gone ≡ min (self.old.gone + length self.old.bytes.items) (2 ^ 64 - 1) }
    {
        self.gone = self.gone.saturating_add(self.bytes.len() as u64);
        self.bytes.clear();
    }

    /// Whether the output has more bytes than an output may have.
    pub(crate) fn is_over(&self) -> bool
        ensures { result ≡ is_over self.now }
    {
        u128::from(self.gone) + self.bytes.len() as u128 > MOST_BYTES as u128
    }
}

/// The bytes that wait of one output: they are handed out.
pub(crate) fn drain_one(alloc: Global, out: &mut Stream) -> Result<Vec<Bytes>, Memory>
    ensures ok { IfOk result (λ v. (drained : _) (output : _) → HasOne out.old drained output
        → Follows drained v.items (output ∷ []) × HasOne out.new (output ∷ []) output) }
    ensures err { IfErr result (λ _. out.new ≡ out.old) }
{
    let bytes = out.copied(alloc)?;
    let mut all = Vec::new(alloc);
    if all.push(bytes).is_err() {
        return Err(Memory);
    }
    out.hand_out();
    Ok(all)
}

/// So many outputs without a byte.
pub(crate) fn empties(alloc: Global, outputs: u32) -> Result<Vec<Bytes>, Memory>
    ensures { IfOk result (λ v. v.items ≡ replicate outputs []) }
{
    let mut all = Vec::new(alloc);
    for _i in 0..outputs {
        if all.push(Bytes::new(alloc, Vec::new(alloc))?).is_err() {
            return Err(Memory);
        }
    }
    Ok(all)
}

/// The answer with what is left of one output.
pub(crate) fn finish_one(alloc: Global, out: Stream) -> Answer
    ensures { IfOk result (λ r. (drained : _) (ls : _) → HasOne out drained (joined ls) → Completes drained r (one ls)) }
{
    if out.is_over() {
        return Ok(Err(FaultKind::TooLarge));
    }
    let mut all = Vec::new(alloc);
    if all.push(Bytes::new(alloc, out.bytes)?).is_err() {
        return Err(Memory);
    }
    Ok(Ok(all))
}
