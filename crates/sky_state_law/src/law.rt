// The laws, as contracts of functions that do nothing.

ghost use Rattle.sky_state_law.specs.Laws.{MadeInParts, SeenBefore};

/// What a task waited for before it came to a wait is seen.
pub fn waits_before_are_seen()
    ensures seen { SeenBefore }
{}

/// What a task makes from a wait to a later one is what it makes up to one between, and then from there on.
pub fn made_in_parts()
    ensures parts { MadeInParts }
{}
