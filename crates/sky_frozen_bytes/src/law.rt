// The law of states as bytes. It is the contract of a function that does nothing.

ghost use Rattle.sky_frozen_bytes.specs.Spelled.{OneSpelling};

/// Two states that bytes can spell have the same bytes only where they are equal.
pub fn states_have_one_spelling()
    ensures { OneSpelling }
{}
