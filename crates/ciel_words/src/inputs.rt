//! Words that name inputs: NAME=PATH.

ghost use Rattle.std.specs.Prelude.{◌≡◌, ◌++◌, IfOk, map};
ghost use Rattle.std.specs.List.{list_all};
ghost use Rattle.sky_base.specs.Eval.{is_one_of};
ghost use Rattle.ciel_words.specs.Inputs.{begins_key, goes_on_key, is_key, key_in, path_in, input_in, is_input, all_apart, are_inputs};

use crate::words::InputPaths;
use sky_base::text::{Memory, Txt};
use std::alloc::Global;

/// The greatest number of inputs.
const MOST_INPUTS: usize = 256;

/// The greatest number of bytes of an input's name.
const MOST_NAME: usize = 64;

// Whether the name of an input may begin with this byte.
fn begins_key(byte: u8) -> bool
    ensures { result ≡ begins_key byte }
{
    byte.is_ascii_alphanumeric() || byte == b'_'
}

// Whether the name of an input may have this byte behind the first.
fn goes_on_key(byte: u8) -> bool
    ensures { result ≡ goes_on_key byte }
{
    begins_key(byte) || byte == b'.' || byte == b'-'
}

// Whether the name of an input may have these bytes behind the first.
fn may_follow(bytes: &[u8]) -> bool
    ensures { result ≡ list_all goes_on_key bytes.now }
{
    bytes.iter().all(|byte| goes_on_key(*byte))
}

// Whether an input may have this name: 1 to 64 letters, digits, `_`, `.` and `-`, neither of the last two first.
fn is_key(name: &str) -> bool
    ensures { result ≡ is_key name.now }
{
    let Some((first, rest)) = name.as_bytes().split_first() else {
        return false;
    };
    begins_key(*first) && may_follow(rest) && rest.len() < MOST_NAME
}

// What stands before the first `=` of a word, or all of it where it has none.
fn key_of(word: &str) -> &str
    ensures { result.now ≡ key_in word.now }
{
    match word.split_once('=') {
        Some((key, _)) => key,
        None => word,
    }
}

// What stands behind the first `=` of a word; nothing where it has none.
fn path_of(word: &str) -> &str
    ensures { result.now ≡ path_in word.now }
{
    match word.split_once('=') {
        Some((_, path)) => path,
        None => "",
    }
}

// Whether a word names an input: NAME=PATH.
fn names_input(word: &str) -> bool
    ensures { result ≡ is_input word.now }
{
    is_key(key_of(word)) && !path_of(word).is_empty()
}

// Whether one of the words names an input so.
fn is_among(key: &str, words: &[&str]) -> bool
    ensures { result ≡ is_one_of key.now (map (λ w. key_in w.now) words.now) }
{
    for word in words {
        if key.cmp(key_of(word)).is_eq() {
            return true;
        }
    }
    false
}

// Whether no two words name an input in the same way. There are at most 256 of them.
fn are_apart(words: &[&str]) -> bool
    ensures { result ≡ all_apart (map (λ w. key_in w.now) words.now) }
{
    for (at, word) in words.iter().enumerate() {
        if is_among(key_of(word), &words[at + 1..]) {
            return false;
        }
    }
    true
}

// Whether each word names an input.
fn name_inputs(words: &[&str]) -> bool
    ensures { result ≡ list_all (λ w. is_input w.now) words.now }
{
    words.iter().all(|word| names_input(word))
}

/// Whether the words name inputs, at most 256, no name twice.
pub(crate) fn are_inputs(words: &[&str]) -> bool
    ensures { result ≡ are_inputs (map (λ w. w.now) words.now) }
{
    words.len() <= MOST_INPUTS && name_inputs(words) && are_apart(words)
}

// The input that a word names.
fn input(alloc: Global, word: &str) -> Result<(Txt, Txt), Memory>
    ensures { IfOk result (λ i. i ≡ input_in word.now) }
{
    let name = Txt::new(alloc, key_of(word))?;
    let path = Txt::new(alloc, path_of(word))?;
    Ok((name, path))
}

/// The inputs that the words name, in order.
pub(crate) fn inputs(alloc: Global, words: &[&str]) -> Result<InputPaths, Memory>
    ensures { IfOk result (λ inputs. inputs ≡ map input_in (map (λ w. w.now) words.now)) }
{
    let mut items = Vec::new(alloc);
    for word in words {
        let input = input(alloc, word)?;
        if items.push(input).is_err() {
            return Err(Memory);
        }
    }
    Ok(InputPaths::of(items))
}
