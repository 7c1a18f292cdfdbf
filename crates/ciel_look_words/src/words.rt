//! Descriptions in words.

ghost use Rattle.std.specs.Prelude.{◌≡◌, ◌≤◌, ◌++◌, IfOk, codes, decimal, length};
ghost use Rattle.sky_base.specs.ObjectView.{desc_view};
ghost use Rattle.sky_base.specs.View.{view};
ghost use Rattle.ciel_look_shown.specs.Plain.{shown};
ghost use Rattle.ciel_look_words.specs.Kept.{Puts};
ghost use Rattle.ciel_look_words.specs.Words.{call_head, call_words, clipped, count_or_pairs, desc_head, desc_words, digits, given_words, head, only};
ghost use Rattle.ciel_look_words.specs.Words.{value_words, words};

use crate::short::Short;
use crate::value::{put, put_pairs, put_value, put_values};
use ciel_look_shown::plain::Plain;
use itoa::Buffer;
use sky_base::name::Name;
use sky_base::object::Desc1;
use sky_base::text::{Memory, Txt};
use sky_base::value::{Pairs, Vals, Value};
use std::alloc::Global;

/// How many characters are shown at most.
const MOST: usize = 60;

/// A description in words, as text that is safe to show: up to 60 characters.
///
/// Answers `Memory` for want of memory.
pub fn words(alloc: Global, desc: &Desc1) -> Result<Plain, Memory>
    ensures words { IfOk result (λ t. t ≡ shown (words (desc_view desc.now))) }
{
    let mut short = Short::new(alloc);
    put_words(alloc, &mut short, desc)?;
    let text = clip(alloc, &short)?;
    Ok(text)
}

/// The name of the function or of the executor alone, up to 60 characters.
///
/// Answers `Memory` for want of memory.
pub fn head(alloc: Global, desc: &Desc1) -> Result<Plain, Memory>
    ensures head { IfOk result (λ t. t ≡ shown (head (desc_view desc.now))) }
{
    let mut short = Short::new(alloc);
    put_head(&mut short, desc)?;
    let text = clip(alloc, &short)?;
    Ok(text)
}

/// The first eight digits of a name.
///
/// Answers `Memory` for want of memory.
pub fn digits(alloc: Global, name: &Name) -> Result<Plain, Memory>
    ensures digits { IfOk result (λ t. t ≡ shown (digits name.now)) }
{
    let Ok(text) = hex::encode(alloc, &name.bytes()[..4]) else {
        return Err(Memory);
    };
    let mut digits = Plain::new(alloc);
    digits.put(text.as_str().as_bytes())?;
    Ok(digits)
}

/// All of it, or the first characters and two dots.
fn clip(alloc: Global, short: &Short) -> Result<Plain, Memory>
    ensures clipped { IfOk result (λ t. t ≡ shown (clipped short.now)) }
    ensures most { length short.now ≤ 61 }
{
    let bytes = short.as_slice();
    let mut text = Plain::new(alloc);
    if bytes.len() > MOST {
        let (front, _) = bytes.split_at(MOST - 2);
        text.put(front)?;
        text.put("..".as_bytes())?;
    } else {
        text.put(bytes)?;
    }
    Ok(text)
}

fn put_words(alloc: Global, out: &mut Short, desc: &Desc1) -> Result<(), Memory>
    ensures { IfOk result (λ _. Puts out.old (desc_words (desc_view desc.now)) out.new) }
{
    match desc {
        Desc1::Call {
            fun,
            caught: _,
            args,
        } => {
            put_call(alloc, out, fun, args)?;
            Ok(())
        }
        Desc1::Exec {
            executor,
            args,
            outputs: _,
            index: _,
        } => {
            put(out, executor.as_str())?;
            put_given(alloc, out, args)?;
            Ok(())
        }
        Desc1::Input { key } => {
            put(out, "input ")?;
            put(out, key.as_str())?;
            Ok(())
        }
    }
}

fn put_call(alloc: Global, out: &mut Short, fun: &Txt, args: &Vals) -> Result<(), Memory>
    ensures { IfOk result (λ _. Puts out.old (call_words fun.now args.now) out.new) }
{
    if fun.is_empty() {
        put(out, "main")?;
        return Ok(());
    }
    put(out, fun.as_str())?;
    put(out, "(")?;
    put_values(alloc, out, args)?;
    put(out, ")")?;
    Ok(())
}

/// What an executor is given.
fn put_given(alloc: Global, out: &mut Short, args: &Value) -> Result<(), Memory>
    ensures { IfOk result (λ _. Puts out.old (given_words (view args.now)) out.new) }
{
    match args {
        Value::Dict(pairs) => {
            put_dict(alloc, out, pairs)?;
            Ok(())
        }
        other => {
            put_held(alloc, out, other)?;
            Ok(())
        }
    }
}

/// Pairs that an executor is given.
fn put_dict(alloc: Global, out: &mut Short, pairs: &Pairs) -> Result<(), Memory>
    ensures { IfOk result (λ _. Puts out.old (count_or_pairs (only pairs.now) pairs.now) out.new) }
{
    match only(pairs) {
        Some(count) => {
            put_count(out, count)?;
            Ok(())
        }
        None => {
            put(out, "(")?;
            put_pairs(alloc, out, pairs)?;
            put(out, ")")?;
            Ok(())
        }
    }
}

/// Another value that an executor is given.
fn put_held(alloc: Global, out: &mut Short, value: &Value) -> Result<(), Memory>
    ensures { IfOk result (λ _. Puts out.old (codes "(" ++ (value_words (view value.now) ++ codes ")")) out.new) }
{
    put(out, "(")?;
    put_value(alloc, out, value)?;
    put(out, ")")?;
    Ok(())
}

/// How many things the list has that is the only argument, under the key `in`.
fn only(pairs: &Pairs) -> Option<usize>
    ensures { result ≡ only pairs.now }
{
    match pairs.as_slice() {
        [pair] => match &pair.value {
            Value::List(values) => {
                if pair.key.as_str() == "in" {
                    Some(values.len())
                } else {
                    None
                }
            }
            _ => None,
        },
        _ => None,
    }
}

fn put_count(out: &mut Short, count: usize) -> Result<(), Memory>
    ensures { IfOk result (λ _. Puts out.old (codes " of " ++ decimal count) out.new) }
{
    let mut digits = Buffer::new();
    put(out, " of ")?;
    put(out, digits.format(count))?;
    Ok(())
}

fn put_head(out: &mut Short, desc: &Desc1) -> Result<(), Memory>
    ensures { IfOk result (λ _. Puts out.old (desc_head (desc_view desc.now)) out.new) }
{
    match desc {
        Desc1::Call {
            fun,
            caught: _,
            args: _,
        } => {
            put_function(out, fun)?;
            Ok(())
        }
        Desc1::Exec {
            executor,
            args: _,
            outputs: _,
            index: _,
        } => {
            put(out, executor.as_str())?;
            Ok(())
        }
        Desc1::Input { key: _ } => {
            put(out, "input")?;
            Ok(())
        }
    }
}

fn put_function(out: &mut Short, fun: &Txt) -> Result<(), Memory>
    ensures { IfOk result (λ _. Puts out.old (call_head fun.now) out.new) }
{
    if fun.is_empty() {
        let main = "main";
        put(out, main)?;
        return Ok(());
    }
    put(out, fun.as_str())?;
    Ok(())
}
