// Whether two inputs have the same lines: the first input is kept, and the lines of the second are compared with it
// as they come.

ghost use Rattle.std.specs.Prelude.{◌≡◌, ◌∷◌, ◌++◌, [], IfOk, IfErr};
ghost use Rattle.line_kit.specs.Lines.{lines, same_lines};
ghost use Rattle.line_flow.specs.Kept.{HasPair, at_input};

use crate::buffer::put_lines;
use crate::rest::first_line;
use sky_base::text::Memory;
use std::alloc::Global;

/// The lines of the first input, each with a line feed, how many of these bytes have their equal in the second
/// one, and whether a line of the second had none.
#[derive(Drop)]
pub(crate) struct Pair {
    pub(crate) first: Vec<u8>,
    pub(crate) at: usize,
    pub(crate) differs: bool,
}

impl Pair {
    /// No lines.
    pub(crate) fn new(alloc: Global) -> Pair
        ensures { HasPair result [] [] }
    {
        Pair {
            first: Vec::new(alloc),
            at: 0,
            differs: false,
        }
    }

    // Compares a line of the second input.
    fn compare(&mut self, line: &[u8])
        ensures { (first : _) (second : _) → HasPair self.old first second → HasPair self.new first (second ++ line.now ∷ []) }
    {
        if self.at >= self.first.len() {
            self.differs = true;
            return;
        }
        let (own, size) = first_line(&self.first[self.at..]);
        if own == line {
            self.at += size;
        } else {
            self.differs = true;
        }
    }

    // Compares the lines of a block of the second input.
    fn compare_all(&mut self, block: &[u8])
        ensures { (first : _) (second : _) → HasPair self.old first second → HasPair self.new first (second ++ lines block.now) }
    {
        let mut rest = block;
        while !rest.is_empty() {
            let (line, size) = first_line(rest);
            self.compare(line);
            rest = &rest[size..];
        }
    }

    /// Takes a block of lines of an input.
    pub(crate) fn take(&mut self, input: u32, block: &[u8]) -> Result<(), Memory>
        ensures ok { IfOk result (λ _. (first : _) (second : _) → (input ≡ 0 → second ≡ []) → HasPair self.old first second
            → HasPair self.new (first ++ at_input input 0 (lines block.now)) (second ++ at_input input 1 (lines block.now))) }
        ensures err { IfErr result (λ _. (first : _) (second : _) → HasPair self.old first second → HasPair self.new first second) }
    {
        if input == 0 {
            return put_lines(&mut self.first, block);
        }
        if input == 1 {
            self.compare_all(block);
        }
        Ok(())
    }

    /// Whether both have the same lines.
    pub(crate) fn is_same(&self) -> bool
        ensures { (first : _) (second : _) → HasPair self.now first second → result ≡ same_lines first second }
    {
        !self.differs && self.at == self.first.len()
    }
}
