// Laws of the ends, over the definitions alone. The clause `complete` of the top call tells each end
// with its cause, and by these laws the causes of refusals exclude each other and all that a script
// comes to: so bytes that are refused are refused in exactly one way, at exactly one place, but for
// want of memory. Each is the contract of a function that does nothing.

ghost use Rattle.ciel_run.specs.Laws.{MeansOneAnswer, NoScriptIsRefused, RightMemoChangesNothing, ScriptIsRun, TooLongIsRefused, TooLongInputIsRefused};

/// Bytes that are no script are refused by the kind and at the place of their first refusal, and for
/// nothing else: the kind and the place are one.
pub fn no_script_is_refused()
    ensures { NoScriptIsRefused }
{}

/// Bytes that are a script are one, and the end is what the job of that one over the inputs comes to.
pub fn script_is_run()
    ensures { ScriptIsRun }
{}

/// Bytes that are too many for a script are refused as such.
pub fn too_long_is_refused()
    ensures { TooLongIsRefused }
{}

/// The first input that has too many bytes is refused as such, where there is a script.
pub fn too_long_input_is_refused()
    ensures { TooLongInputIsRefused }
{}

/// Bytes mean at most one answer over their inputs: so what is written, or told as a fault, is the one that
/// they mean.
pub fn source_means_one_answer()
    ensures { MeansOneAnswer }
{}

/// Where each entry of the memo that a line reads is what the executors over lines give, they give the same with it as without.
pub fn right_memo_changes_nothing()
    ensures { RightMemoChangesNothing }
{}
