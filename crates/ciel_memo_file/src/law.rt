//! The laws of a memo's file. Each is the contract of a function that does nothing.

ghost use Rattle.ciel_memo_file.specs.Laws.{NeverBoth, OneKey, OneList, OnePlace};

/// Bytes are the file of one list of entries or have one place of a bad entry, and never both.
pub fn files_are_told_in_one_way()
    ensures list { OneList }
    ensures both { NeverBoth }
    ensures place { OnePlace }
{}

/// Whole entries with the same bytes of their keys have the same key.
pub fn key_bytes_tell_keys_apart()
    ensures { OneKey }
{}
