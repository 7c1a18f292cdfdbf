// The first lines.

ghost use Rattle.std.specs.Prelude.{ℕ, ◌∷◌, ◌++◌, [], IfOk, IfErr};
ghost use Rattle.line_flow.specs.Kept.{HasHead};

use crate::buffer::put_line;
use crate::stream::Stream;
use sky_base::text::Memory;

/// How many lines more there may be, and those that weren't handed out.
#[derive(Drop)]
pub(crate) struct Head {
    pub(crate) left: u64,
    pub(crate) out: Stream,
}

impl Head {
    /// Takes a line.
    pub(crate) fn take(&mut self, line: &[u8]) -> Result<(), Memory>
        ensures ok { IfOk result (λ _. (count : ℕ) (drained : _) (ls : _) → HasHead self.old count drained ls
            → HasHead self.new count drained (ls ++ line.now ∷ [])) }
        ensures err { IfErr result (λ _. (count : ℕ) (drained : _) (ls : _) → HasHead self.old count drained ls → HasHead self.new count drained ls) }
    {
        if self.left == 0 {
            return Ok(());
        }
        put_line(&mut self.out.bytes, line)?;
        self.left -= 1;
        Ok(())
    }
}
