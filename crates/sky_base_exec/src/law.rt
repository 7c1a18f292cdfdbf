//! A law of executor tasks, as the contract of a function that does nothing.

ghost use Rattle.sky_base_exec.specs.Laws.{OutputsAreSeen};

/// What a task makes of the objects that are known for the names in its arguments is, output by output, the object that the output's
/// description is seen as, with each description replaced by its name.
pub fn outputs_are_seen()
    ensures outputs { OutputsAreSeen }
{}
