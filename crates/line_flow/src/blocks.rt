// The executors that take their lines in blocks.

ghost use Rattle.std.specs.Prelude.{◌≡◌, ◌+◌, ◌∷◌, ◌++◌, [], Some, IfOk, IfErr, length, decimal, ℕ, true, Err};
ghost use Rattle.sky_base.specs.KitView.{RunsSo};
ghost use Rattle.sky_base.specs.View.{view};
ghost use Rattle.sky_base.specs.declared.fault.FaultKind.TheVariants.{TooLarge};
ghost use Rattle.line_kit.specs.Lines.{all_lines, lines};
ghost use Rattle.line_kit.specs.Gives.{one, row, gives};
ghost use Rattle.line_flow.specs.Told.{early_by};
ghost use Rattle.line_flow.specs.Drained.{Follows, Completes};
ghost use Rattle.line_flow.specs.Refused.{Right};
ghost use Rattle.line_flow.specs.Kept.{KeptBlocks, seen_of, seen_more};

use crate::buffer::put_lines;
use crate::found::put_found;
use crate::pair::Pair;
use crate::stream::{Stream, drain_one, empties, finish_one};
use itoa::Buffer;
use line_kit::counts::lines_in;
use line_kit::kit::LineKit;
use line_kit::output::{Answer, one_line};
use line_kit::same::truth_text;
use sky_base::kit::Kit;
use sky_base::text::{Bytes, Memory, Txt};
use sky_base::value::Value;
use std::alloc::Global;

/// What is kept of the settled lines.
#[derive(Drop)]
pub(crate) enum Blocks {
    /// `cat`: the lines that weren't handed out.
    Cat(Stream),
    /// `grep`: the text, and the lines with it that weren't handed out.
    Grep(Vec<u8>, Stream),
    /// `count`: their number.
    Count(u128),
    /// `same`: the lines of the first input, and how far the second has come in them.
    Same(Pair),
    /// `sort` and `split`: all of them.
    Kept(Vec<u8>),
}

// Adds the lines of a block. More than 128 bits can count are as want of memory.
fn add_count(count: &mut u128, block: &[u8]) -> Result<(), Memory>
    ensures ok { IfOk result (λ _. count.new ≡ count.old + length (lines block.now)) }
    ensures err { IfErr result (λ _. count.new ≡ count.old) }
{
    match count.checked_add(lines_in(block) as u128) {
        Some(more) => {
            *count = more;
            Ok(())
        }
        None => Err(Memory),
    }
}

impl Blocks {
    /// Takes a block of lines of an input, or leaves all as it is.
    pub(crate) fn take(&mut self, input: u32, block: &[u8]) -> Result<(), Memory>
        ensures ok { IfOk result (λ _. (e : _) (args : _) (n : _) (drained : _) (seen : _) → (input ≡ 0 → seen.second ≡ [])
            → KeptBlocks self.old e args n drained seen → KeptBlocks self.new e args n drained (seen_more seen input (lines block.now))) }
        ensures err { IfErr result (λ _. (e : _) (args : _) (n : _) (drained : _) (seen : _)
            → KeptBlocks self.old e args n drained seen → KeptBlocks self.new e args n drained seen) }
    {
        match self {
            Blocks::Cat(out) => put_lines(&mut out.bytes, block),
            Blocks::Grep(text, out) => put_found(&mut out.bytes, text.as_slice(), block),
            Blocks::Count(count) => add_count(count, block),
            Blocks::Same(pair) => pair.take(input, block),
            Blocks::Kept(kept) => put_lines(kept, block),
        }
    }

    /// Whether an output has more bytes than an output may have, whatever lines follow. `sort` and `split` tell it at
    /// their end.
    pub(crate) fn is_over(&self) -> bool
        ensures { result ≡ true → (e : _) (args : _) (n : ℕ) (drained : _) (seen : _) (inputs : _) (more : _)
            → KeptBlocks self.now e args n drained seen
            → all_lines inputs ≡ seen.all ++ more → row e args inputs n ≡ Err TooLarge }
    {
        match self {
            Blocks::Cat(out) => out.is_over(),
            Blocks::Grep(_, out) => out.is_over(),
            Blocks::Count(_) => false,
            Blocks::Same(_) => false,
            Blocks::Kept(_) => false,
        }
    }

    /// What waits of each output: it is handed out, or all is left as it is.
    pub(crate) fn drain(&mut self, alloc: Global, outputs: u32) -> Result<Vec<Bytes>, Memory>
        ensures ok { IfOk result (λ v. (e : _) (args : _) (drained : _) (seen : _) → KeptBlocks self.old e args outputs drained seen
            → Follows drained v.items (early_by (Some e) args outputs seen.all)
            × KeptBlocks self.new e args outputs (early_by (Some e) args outputs seen.all) seen) }
        ensures err { IfErr result (λ _. (e : _) (args : _) (drained : _) (seen : _)
            → KeptBlocks self.old e args outputs drained seen → KeptBlocks self.new e args outputs drained seen) }
    {
        match self {
            Blocks::Cat(out) => drain_one(alloc, out),
            Blocks::Grep(_, out) => drain_one(alloc, out),
            Blocks::Count(_) => empties(alloc, outputs),
            Blocks::Same(_) => empties(alloc, outputs),
            Blocks::Kept(_) => empties(alloc, outputs),
        }
    }

    /// The answer, without what was handed out.
    pub(crate) fn finish(self, alloc: Global, executor: &Txt, args: &Value, outputs: u32) -> Answer
        ensures { IfOk result (λ r. (e : _) (pairs : _) (drained : _) (inputs : _) → Right executor.now (view args.now) outputs e pairs
            → KeptBlocks self e pairs outputs drained (seen_of inputs) → Completes drained r (row e pairs inputs outputs)) }
    {
        match self {
            Blocks::Cat(out) => finish_one(alloc, out),
            Blocks::Grep(_, out) => finish_one(alloc, out),
            Blocks::Count(count) => written_count(alloc, count),
            Blocks::Same(pair) => one_line(alloc, truth_text(pair.is_same())),
            Blocks::Kept(kept) => run_whole(alloc, executor, args, kept, outputs),
        }
    }
}

fn written_count(alloc: Global, count: u128) -> Answer
    ensures { IfOk result (λ r. RunsSo r (one (decimal count ∷ []))) }
{
    let mut buffer = Buffer::new();
    one_line(alloc, buffer.format(count).as_bytes())
}

// What the executor gives for one input of these bytes.
fn run_whole(alloc: Global, executor: &Txt, args: &Value, kept: Vec<u8>, outputs: u32) -> Answer
    ensures { IfOk result (λ r. RunsSo r (gives executor.now (view args.now) (kept.items ∷ []) outputs)) }
{
    let mut inputs = Vec::new(alloc);
    if inputs.push(Bytes::new(alloc, kept)?).is_err() {
        return Err(Memory);
    }
    LineKit.run(alloc, executor, args, inputs.as_slice(), outputs)
}
