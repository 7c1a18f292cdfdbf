// The half of the number in each line.

ghost use Rattle.std.specs.Prelude.{◌≡◌, ◌∷◌, ◌++◌, [], IfOk, IfErr};
ghost use Rattle.std.specs.Fmt.{signed_decimal};
ghost use Rattle.sky_base.specs.KitView.{RunsSo};
ghost use Rattle.line_kit.specs.Lines.{ended};
ghost use Rattle.line_kit.specs.Numbers.{signed_number};
ghost use Rattle.line_kit.specs.Gives.{halved, read_each};
ghost use Rattle.line_flow.specs.Kept.{HasHalves, Caps};

use crate::buffer::put_line;
use itoa::Buffer;
use line_kit::numbers::{half_of, signed_number};
use line_kit::output::{Answer, MOST_BYTES};
use sky_base::fault::FaultKind;
use sky_base::text::{Bytes, Memory};
use std::alloc::Global;

/// The output, while it isn't too large, and whether a line had no number.
#[derive(Drop)]
pub(crate) struct Halves {
    pub(crate) out: Vec<u8>,
    pub(crate) over: bool,
    pub(crate) bad: bool,
}

impl Halves {
    /// No lines.
    pub(crate) fn new(alloc: Global) -> Halves
        ensures { HasHalves result [] }
    {
        Halves {
            out: Vec::new(alloc),
            over: false,
            bad: false,
        }
    }

    fn put(&mut self, number: i64) -> Result<(), Memory>
        ensures bad { self.new.bad ≡ self.old.bad }
        ensures ok { IfOk result (λ _. (output : _) → Caps self.old output → Caps self.new (output ++ ended (signed_decimal number))) }
        ensures err { IfErr result (λ _. (output : _) → Caps self.old output → Caps self.new output) }
    {
        if self.over {
            return Ok(());
        }
        let mut buffer = Buffer::new();
        put_line(&mut self.out, buffer.format(number).as_bytes())?;
        if self.out.len() > MOST_BYTES {
            self.over = true;
            self.out.clear();
        }
        Ok(())
    }

    /// Takes a line.
    pub(crate) fn take(&mut self, line: &[u8]) -> Result<(), Memory>
        ensures ok { IfOk result (λ _. (ls : _) → HasHalves self.old ls → HasHalves self.new (ls ++ line.now ∷ [])) }
        ensures err { IfErr result (λ _. (ls : _) → HasHalves self.old ls → HasHalves self.new ls) }
    {
        if self.bad {
            return Ok(());
        }
        match signed_number(line) {
            Some(number) => self.put(half_of(number)),
            None => {
                self.bad = true;
                Ok(())
            }
        }
    }

    /// The answer.
    pub(crate) fn finish(self, alloc: Global) -> Answer
        ensures { IfOk result (λ r. (ls : _) → HasHalves self ls → RunsSo r (halved (read_each signed_number ls))) }
    {
        if self.bad {
            return Ok(Err(FaultKind::BadLine));
        }
        if self.over {
            return Ok(Err(FaultKind::TooLarge));
        }
        let mut all = Vec::new(alloc);
        if all.push(Bytes::new(alloc, self.out)?).is_err() {
            return Err(Memory);
        }
        Ok(Ok(all))
    }
}
