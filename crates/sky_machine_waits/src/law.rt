// The law of waits, as the contract of a function that does nothing.

ghost use Rattle.sky_machine_waits.specs.Laws.{WaitsAreFound, NamedWaitsAreFound};

/// At each wait of a task its forms under way say what it waits for, and over names too. So a stack that was saved at a wait
/// needs to hold nothing more.
pub fn waits_are_found()
    ensures wait { WaitsAreFound }
    ensures named { NamedWaitsAreFound }
{}
