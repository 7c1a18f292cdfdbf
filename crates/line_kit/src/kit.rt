// The kit: which executor a name means, the order of faults, and the row of the table.

ghost use Rattle.std.specs.Prelude.{◌≡◌, IfOk, true};
ghost use Rattle.sky_base.specs.KitView.{RunsSo};
ghost use Rattle.sky_base.specs.View.{view, pairs_of};
ghost use Rattle.line_kit.specs.Table.{may_have};
ghost use Rattle.line_kit.specs.Gives.{row, with_args};

use crate::arguments::{all_fit, has_keys, lines_of, text_of};
use crate::counts::count;
use crate::executor::{Executor, executor_of};
use crate::numbers::half;
use crate::orders::{sort, sum, tally};
use crate::output::Answer;
use crate::parts::{deal, split};
use crate::picks::{cat, head};
use crate::same::same;
use crate::search::grep;
use crate::words::words;
use sky_base::fault::FaultKind;
use sky_base::kit::Kit;
use sky_base::text::{Bytes, Memory, Txt};
use sky_base::value::{Pair, Value};
use std::alloc::Global;

// What an executor gives for right arguments.
fn row(alloc: Global, executor: Executor, args: &[Pair], inputs: &[Bytes], outputs: u32) -> Answer
    requires { may_have executor outputs ≡ true }
    ensures { IfOk result (λ r. RunsSo r (row executor (pairs_of args.now) inputs.now outputs)) }
{
    match executor {
        Executor::Cat => cat(alloc, inputs),
        Executor::Grep => grep(alloc, text_of(args), inputs),
        Executor::Words => words(alloc, inputs),
        Executor::Split => split(alloc, inputs, outputs),
        Executor::Deal => deal(alloc, inputs, outputs),
        Executor::Sort => sort(alloc, inputs),
        Executor::Tally => tally(alloc, inputs),
        Executor::Count => count(alloc, inputs),
        Executor::Sum => sum(alloc, inputs),
        Executor::Head => head(alloc, lines_of(args), inputs),
        Executor::Half => half(alloc, inputs),
        Executor::Same => same(alloc, inputs),
    }
}

// What an executor gives that may have so many outputs, once its arguments are seen to be right.
fn with_args(
    alloc: Global,
    executor: Executor,
    args: &Value,
    inputs: &[Bytes],
    outputs: u32,
) -> Answer
    requires { may_have executor outputs ≡ true }
    ensures { IfOk result (λ r. RunsSo r (with_args executor (view args.now) inputs.now outputs)) }
{
    let Value::Dict(args) = args else {
        return Ok(Err(FaultKind::BadKind));
    };
    let args = args.as_slice();
    if !has_keys(executor, args) {
        return Ok(Err(FaultKind::NoKey));
    }
    if !all_fit(executor, args) {
        return Ok(Err(FaultKind::BadKind));
    }
    row(alloc, executor, args, inputs, outputs)
}

/// The executors over lines.
///
/// A line ends before a line feed, or at the end of its input if it isn't empty. The lines of an executor are
/// those of its inputs, one input after the other. Each line of an output is followed by a line feed. The
/// arguments are a dictionary with the key `in`, a reference or a list of references.
///
/// | executor | outputs | other key | each output |
/// |---|---|---|---|
/// | `cat` | 1 | | all lines |
/// | `grep` | 1 | `text`, a text | the lines that contain the text |
/// | `words` | 1 | | the words of the lines, between spaces, tabs and carriage returns, one per line |
/// | `split` | 1 to 64 | | the next lines, the least number for each output with which all have a place |
/// | `deal` | 1 to 64 | | every line whose turn it is: the outputs take turns |
/// | `sort` | 1 | | the lines in order of their bytes |
/// | `tally` | 1 | | for each distinct line, in order of bytes, how often it occurs, a space, the line |
/// | `count` | 1 | | the number of lines |
/// | `sum` | 1 | | of lines with a number, a space and a rest, for each distinct rest the sum, a space, the rest |
/// | `head` | 1 | `lines`, a number from 0 | the first so many lines |
/// | `half` | 1 | | the half of the number in each line, towards zero |
/// | `same` | 1 | | `in` is a list of two: `true` or `false`, whether both have the same lines |
///
/// The first of these faults comes: BadExec for another name, BadCount for another number of outputs, BadKind
/// for arguments that are no dictionary, NoKey for a missing key, BadKind for another key or a value of another
/// kind, BadLine for a line of `sum` or `half` without its number of at most 64 signed bits, Overflow for a sum
/// above 9,223,372,036,854,775,807, TooLarge for an output of more than 67,108,864 bytes.
#[derive(Clone, Copy, Debug, Drop)]
pub struct LineKit;

impl Kit for LineKit {
    ghost use Rattle.std.specs.Prelude.{◌≡◌, ℕ, List, IfOk, false, is_some, Err};
    ghost use Rattle.sky_base.specs.declared.fault.FaultKind.{FaultKind as kind};
    ghost use Rattle.line_kit.specs.Table.{executor_of};
    ghost use Rattle.line_kit.specs.Gives.{gives as given};
    ghost use Rattle.line_kit.specs.Counts.{gives_counts};

    ghost gives = { λ _. given };

    ghost counts = { λ _. gives_counts };

    /// Whether the name is one of the table.
    fn known(&self, executor: &Txt) -> bool
        ensures table { result ≡ is_some (executor_of executor.now) }
        ensures unknown { result ≡ false
            → (args : _) (inputs : _) (n : _) → given executor.now args inputs n ≡ Err kind.BadExec }
    {
        executor_of(executor.as_str()).is_some()
    }

    #[tactic(auto, unfolding(crate::specs::Gives::gives))]
    fn run(
        &self,
        alloc: Global,
        executor: &Txt,
        args: &Value,
        inputs: &[Bytes],
        outputs: u32,
    ) -> Result<Result<Vec<Bytes>, FaultKind>, Memory> {
        let Some(executor) = executor_of(executor.as_str()) else {
            return Ok(Err(FaultKind::BadExec));
        };
        if !executor.may_have(outputs) {
            return Ok(Err(FaultKind::BadCount));
        }
        with_args(alloc, executor, args, inputs, outputs)
    }
}
