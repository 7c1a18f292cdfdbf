//! The law of going through waits, as the contract of a function that does nothing.

ghost use Rattle.sky_machine_through.specs.Went.{ThroughGoesOn};

/// Where what is found is true from a wait of a task on, going through its waits is going on as the task does: to its end, or to its
/// next wait for something that isn't found.
pub fn going_through_goes_on()
    ensures { ThroughGoesOn }
{}
