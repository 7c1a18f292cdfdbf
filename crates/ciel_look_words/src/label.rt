//! Names beside the words of what they name.

ghost use Rattle.std.specs.Prelude.{◌≡◌, IfOk};
ghost use Rattle.hex.specs.Hex.{encode_lower};
ghost use Rattle.sky_base.specs.ObjectView.{desc_view};
ghost use Rattle.ciel_look_shown.specs.Plain.{shown};
ghost use Rattle.ciel_look_words.specs.Named.{name_of};
ghost use Rattle.ciel_look_words.specs.Words.{digits, words};

use crate::known::Known;
use crate::words::{digits, words};
use ciel_look_shown::plain::Plain;
use sky_base::name::Name;
use sky_base::text::Memory;
use std::alloc::Global;

/// What is shown of a description: the first eight digits of its name, all of them, and its words.
#[derive(Drop)]
pub struct Label {
    pub digits: Plain,
    pub whole: Plain,
    pub words: Plain,
}

/// What is shown of a description.
///
/// Answers `Memory` for want of memory.
pub fn label_of(alloc: Global, known: &Known) -> Result<Label, Memory>
    ensures digits { IfOk result (λ l. l.digits ≡ shown (digits (name_of known.now.short (desc_view known.now.desc)))) }
    ensures whole { IfOk result (λ l. l.whole ≡ shown (encode_lower (name_of known.now.short (desc_view known.now.desc)))) }
    ensures words { IfOk result (λ l. l.words ≡ shown (words (desc_view known.now.desc))) }
{
    let digits = digits(alloc, &known.name)?;
    let whole = whole(alloc, &known.name)?;
    let words = words(alloc, &known.desc)?;
    Ok(Label {
        digits,
        whole,
        words,
    })
}

/// All digits of a name.
///
/// Answers `Memory` for want of memory.
pub fn whole(alloc: Global, name: &Name) -> Result<Plain, Memory>
    ensures whole { IfOk result (λ t. t ≡ shown (encode_lower name.now)) }
{
    let Ok(digits) = hex::encode(alloc, name.bytes()) else {
        return Err(Memory);
    };
    let mut text = Plain::new(alloc);
    text.put(digits.as_str().as_bytes())?;
    Ok(text)
}
