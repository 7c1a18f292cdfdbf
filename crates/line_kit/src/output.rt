// Outputs as they are written. One that would have more bytes than an output may have writes no more:
// what its row reads is then still read to its end, since a faulty line comes before a large output.

ghost use Rattle.std.specs.Prelude.{◌≡◌, IfOk, Some, [], ◌∷◌, List, ℕ};
ghost use Rattle.std.specs.Fmt.{signed_decimal};
ghost use Rattle.sky_base.specs.KitView.{RunsSo};
ghost use Rattle.line_kit.specs.Lines.{ended, joined};
ghost use Rattle.line_kit.specs.Numbers.{count_line};
ghost use Rattle.line_kit.specs.Written.{capped, extended, finished, closed};
ghost use Rattle.line_kit.specs.Gives.{one};

use itoa::Buffer;
use sky_base::fault::FaultKind;
use sky_base::text::{Bytes, Memory};
use std::alloc::Global;
use std::marker::Model;

/// The most bytes that an output may have.
pub const MOST_BYTES: usize = 67_108_864;

/// What an executor answers: its outputs or a fault, or want of memory.
pub type Answer = Result<Result<Vec<Bytes>, FaultKind>, Memory>;

/// An output. Contracts see its bytes, or nothing once they are too many.
#[derive(Drop)]
pub struct Output {
    bytes: Vec<u8>,
    over: bool,
}

impl Model for Output {
    ghost use Rattle.std.specs.Prelude.{List, ℕ, Option, Some, None, ◌≤◌, length, if◌then◌else◌};

    ghost Value = { Option (List ℕ) };

    ghost view = { λ o. if o.over then None else Some o.bytes.items };

    ghost invariant = { λ o. length o.bytes.items ≤ 67108864 };
}

impl Output {
    /// The empty output.
    pub fn new(alloc: Global) -> Output
        ensures { result ≡ Some [] }
    {
        Output {
            bytes: Vec::new(alloc),
            over: false,
        }
    }

    /// Puts a piece at the end.
    #[tactic(auto, using(crate::proofs::WrittenLaw::caps))]
    pub fn put(&mut self, piece: &[u8]) -> Result<(), Memory>
        ensures { IfOk result (λ _. self.new ≡ extended self.old piece.now) }
    {
        if self.over {
            return Ok(());
        }
        if MOST_BYTES - self.bytes.len() < piece.len() {
            self.over = true;
            return Ok(());
        }
        match self.bytes.extend_from_slice(piece) {
            Ok(()) => Ok(()),
            Err(_) => Err(Memory),
        }
    }

    /// Puts a line and a line feed.
    #[tactic(auto, using(crate::proofs::WrittenLaw::pieces))]
    pub fn put_line(&mut self, line: &[u8]) -> Result<(), Memory>
        ensures { IfOk result (λ _. self.new ≡ extended self.old (ended line.now)) }
    {
        self.put(line)?;
        self.put(b"\n")
    }

    /// Puts a number, a space, the line and a line feed.
    #[tactic(auto, using(crate::proofs::WrittenLaw::pieces))]
    pub fn put_count(&mut self, count: u128, line: &[u8]) -> Result<(), Memory>
        ensures { IfOk result (λ _. self.new ≡ extended self.old (ended (count_line count line.now))) }
    {
        let mut buffer = Buffer::new();
        self.put(buffer.format(count).as_bytes())?;
        self.put(b" ")?;
        self.put_line(line)
    }

    /// Puts a number with its sign and a line feed.
    pub(crate) fn put_signed(&mut self, number: i64) -> Result<(), Memory>
        ensures { IfOk result (λ _. self.new ≡ extended self.old (ended (signed_decimal number))) }
    {
        let mut buffer = Buffer::new();
        self.put_line(buffer.format(number).as_bytes())
    }

    /// The answer with this one output: it has the lines that were put onto it.
    pub fn alone(self, alloc: Global) -> Answer
        ensures { (ls : List (List ℕ)) → finished self ≡ capped (joined ls) → IfOk result (λ r. RunsSo r (one ls)) }
    {
        let mut outputs = Vec::new(alloc);
        if outputs.push(self).is_err() {
            return Err(Memory);
        }
        close(alloc, outputs)
    }
}

/// The answer with one output of one line.
pub fn one_line(alloc: Global, line: &[u8]) -> Answer
    ensures { IfOk result (λ r. RunsSo r (one (line.now ∷ []))) }
{
    let mut out = Output::new(alloc);
    out.put_line(line)?;
    out.alone(alloc)
}

/// The answer with these outputs.
pub(crate) fn close(alloc: Global, outputs: Vec<Output>) -> Answer
    ensures { IfOk result (λ r. RunsSo r (closed outputs.items)) }
{
    let mut all = Vec::new(alloc);
    for output in outputs {
        if output.over {
            return Ok(Err(FaultKind::TooLarge));
        }
        if all.push(Bytes::new(alloc, output.bytes)?).is_err() {
            return Err(Memory);
        }
    }
    Ok(Ok(all))
}
