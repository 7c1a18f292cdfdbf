// The law, as the contract of a function that does nothing.

ghost use Rattle.sky_parse_law.specs.Orderly.{FunctionsAreOrderly};

/// Each function of a script that is read has a name and distinct parameters, and captures none of these.
pub fn functions_are_orderly()
    ensures orderly { FunctionsAreOrderly }
{}
