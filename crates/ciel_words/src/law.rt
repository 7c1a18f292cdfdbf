//! What holds of every line of the command.

ghost use Rattle.ciel_words.specs.Sound.{LinesAreSound};

/// The numbers of a line are within their limits, its losses are of its workers, and it has a script or asks for a generated job.
pub fn lines_are_sound()
    ensures { LinesAreSound }
{}
