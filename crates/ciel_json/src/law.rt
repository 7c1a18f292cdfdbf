//! Laws of data that is read. Each is the contract of a function that does nothing.

ghost use Rattle.ciel_json.specs.Laws.{ReadsArePlain, ReadsAreSound};

/// Data that is read keeps the limits, and has no function and no reference.
pub fn data_is_plain()
    ensures sound { ReadsAreSound }
    ensures plain { ReadsArePlain }
{}
