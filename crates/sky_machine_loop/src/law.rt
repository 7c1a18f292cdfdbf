// A law of the machine, as the contract of a function that does nothing.

ghost use Rattle.sky_machine_loop.specs.Laws.{NamesRun};

/// The world of names, in which a reference holds the digest of what it refers to, is one in which the machine runs.
pub fn runs_over_names()
    ensures { NamesRun }
{}
