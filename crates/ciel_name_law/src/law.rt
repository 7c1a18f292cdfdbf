//! Laws of the values of a run. Each is the contract of a function that does nothing.

ghost use Rattle.ciel_name_law.specs.Laws.{MadeIsSpelled, NeededIsSpelled, ReadsAreTyped, ScriptsAreTyped, ScriptsUseSo, SoundIsData, SoundIsSpelled};
ghost use Rattle.ciel_name_law.specs.Laws.{WaitedIsSpelled};

/// In a script that functions and statements make, a named function uses nothing of what stands around it.
pub fn named_functions_use_nothing()
    ensures scripts { ScriptsUseSo }
{}

/// In a script that bytes are, each literal is a number of 64 bits or UTF-8, and each name is UTF-8.
pub fn scripts_are_typed()
    ensures scripts { ScriptsAreTyped }
{}

/// A sound and typed value of such a script that refers to names of 20 or 32 bytes alone is data: it can be spelled, and
/// keeps the limits. So it is decoded from its bytes, and no other value has them. Such a description can be spelled likewise.
pub fn sound_values_are_data()
    ensures values { SoundIsData }
    ensures descriptions { SoundIsSpelled }
{}

/// What is read as data has whole numbers of 64 bits, texts and keys that are UTF-8, and keys that rise.
pub fn data_is_typed()
    ensures reads { ReadsAreTyped }
{}

/// Where a job's script is that of some bytes, every description that a needed task makes or waits for, and the one that it
/// is of, can be spelled, with any names of 20 or 32 bytes in place of the descriptions that it refers to. So no two of them
/// that differ over names have the same canonical bytes.
pub fn runs_are_spelled()
    ensures made { MadeIsSpelled }
    ensures waited { WaitedIsSpelled }
    ensures needed { NeededIsSpelled }
{}
