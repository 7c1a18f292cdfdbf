//! The laws of records as bytes. Each is the contract of a function that does nothing.

ghost use Rattle.ciel_log_read.specs.File.{CutFile, OneReading};
ghost use Rattle.ciel_log_read.specs.Laws.{OneRecord};

/// Two records whose numbers fit their bytes, and whose names, descriptions and objects can be read, have the same bytes only where they are
/// equal.
pub fn one_record()
    ensures { OneRecord }
{}

/// What stands in a file behind lengths is told in one way, and of a file of records that is cut anywhere the first ones are there.
pub fn files_are_cut_to_records()
    ensures one { OneReading }
    ensures cut { CutFile }
{}
