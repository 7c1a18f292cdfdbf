// The laws, as contracts of functions that do nothing.

ghost use Rattle.sky_machine_waits.specs.RestsLaws.{RestFollows, RestTakes};

/// The forms under way at the next wait follow each other as a saved stack does, so that they can be saved again, and a `for`
/// among them has taken no more elements than its list has.
pub fn stacks_go_on()
    ensures follows { RestFollows }
    ensures takes { RestTakes }
{}
