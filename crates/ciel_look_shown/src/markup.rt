//! Markup that is well formed.

ghost use Rattle.std.specs.Prelude.{◌≡◌, [], ◌∷◌, ◌++◌, IfOk};
ghost use Rattle.ciel_look_shown.specs.Markup.{AreAttributes, Markup as IsMarkup, attribute_bytes, element_bytes, end_bytes, escape};
ghost use Rattle.ciel_look_shown.specs.Markup.{escaped_byte, leaf_bytes};
ghost use Rattle.ciel_look_shown.specs.Plain.{IsPlain};

use crate::plain::Plain;
use crate::tag::{Attribute, Tag};
use ciel_name::writer::Writer;
use sky_base::text::Memory;
use std::alloc::Global;
use std::marker::Model;

/// The attributes of an element. Contracts see their bytes.
#[derive(Drop)]
pub struct Attributes {
    held: Vec<u8>,
}

impl Model for Attributes {
    ghost use Rattle.std.specs.Prelude.{List, ℕ};
    ghost use Rattle.ciel_look_shown.specs.Markup.{AreAttributes};

    ghost Value = { List ℕ };

    ghost view = { λ t. t.held.items };

    ghost invariant = { λ t. AreAttributes t.held.items };
}

impl Attributes {
    /// None.
    pub fn new(alloc: Global) -> Attributes
        ensures { result ≡ [] }
    {
        Attributes {
            held: Vec::new(alloc),
        }
    }

    /// The bytes.
    pub fn as_slice(&self) -> &[u8]
        ensures value { result.now ≡ self.now }
        ensures attributes { AreAttributes self.now }
    {
        self.held.as_slice()
    }

    /// One more, with this value. After `Memory` they are as they were.
    pub fn put(&mut self, alloc: Global, attribute: Attribute, value: &Plain) -> Result<(), Memory>
        ensures put { IfOk result (λ _. self.new ≡ self.old ++ attribute_bytes (attribute, value.now)) }
    {
        let piece = attribute_of(alloc, attribute, value)?;
        match self.held.extend_from_slice(piece.as_slice()) {
            Ok(()) => Ok(()),
            Err(_) => Err(Memory),
        }
    }
}

/// Text and elements, one behind the other. Contracts see their bytes.
#[derive(Drop)]
pub struct Markup {
    held: Vec<u8>,
}

impl Model for Markup {
    ghost use Rattle.std.specs.Prelude.{List, ℕ};
    ghost use Rattle.ciel_look_shown.specs.Markup as specs;

    ghost Value = { List ℕ };

    ghost view = { λ t. t.held.items };

    ghost invariant = { λ t. specs.Markup t.held.items };
}

impl Markup {
    /// Nothing.
    pub fn new(alloc: Global) -> Markup
        ensures { result ≡ [] }
    {
        Markup {
            held: Vec::new(alloc),
        }
    }

    /// Puts text at the end, in which nothing is markup. After `Memory` it is as it was.
    pub fn put_text(&mut self, alloc: Global, text: &Plain) -> Result<(), Memory>
        ensures put { IfOk result (λ _. self.new ≡ self.old ++ escape text.now) }
    {
        let piece = escaped(alloc, text)?;
        match self.held.extend_from_slice(piece.as_slice()) {
            Ok(()) => Ok(()),
            Err(_) => Err(Memory),
        }
    }

    /// Puts an element with nothing in it at the end. After `Memory` it is as it was.
    pub fn put_leaf(
        &mut self,
        alloc: Global,
        tag: Tag,
        attributes: &Attributes,
    ) -> Result<(), Memory>
        ensures put { IfOk result (λ _. self.new ≡ self.old ++ leaf_bytes tag attributes.now) }
    {
        let piece = leaf_of(alloc, tag, attributes)?;
        match self.held.extend_from_slice(piece.as_slice()) {
            Ok(()) => Ok(()),
            Err(_) => Err(Memory),
        }
    }

    /// Puts an element with markup in it at the end. After `Memory` it is as it was.
    pub fn put_element(
        &mut self,
        alloc: Global,
        tag: Tag,
        attributes: &Attributes,
        inner: &Markup,
    ) -> Result<(), Memory>
        ensures put { IfOk result (λ _. self.new ≡ self.old ++ element_bytes tag attributes.now inner.now) }
    {
        let piece = element_of(alloc, tag, attributes, inner)?;
        match self.held.extend_from_slice(piece.as_slice()) {
            Ok(()) => Ok(()),
            Err(_) => Err(Memory),
        }
    }

    /// The bytes, which are well formed.
    pub fn as_slice(&self) -> &[u8]
        ensures value { result.now ≡ self.now }
        ensures markup { IsMarkup self.now }
    {
        self.held.as_slice()
    }
}

/// A text, in which the characters of markup stand as references.
fn escaped(alloc: Global, text: &Plain) -> Result<Writer, Memory>
    ensures bytes { IfOk result (λ w. w ≡ escape text.now) }
    ensures plain { IsPlain text.now }
{
    let bytes = text.as_slice();
    let mut out = Writer::new(alloc);
    put_escaped(&mut out, bytes)?;
    Ok(out)
}

fn put_escaped(out: &mut Writer, text: &[u8]) -> Result<(), Memory>
    ensures { IfOk result (λ _. out.new ≡ out.old ++ escape text.now) }
{
    for byte in text {
        put_one(out, *byte)?;
    }
    Ok(())
}

fn put_one(out: &mut Writer, byte: u8) -> Result<(), Memory>
    ensures { IfOk result (λ _. out.new ≡ out.old ++ escaped_byte byte) }
{
    match byte {
        b'&' => out.raw("&amp;".as_bytes()),
        b'<' => out.raw("&lt;".as_bytes()),
        b'>' => out.raw("&gt;".as_bytes()),
        b'"' => out.raw("&quot;".as_bytes()),
        b'\'' => out.raw("&#39;".as_bytes()),
        other => out.byte(other),
    }
}

/// An attribute with its value.
#[tactic(auto, using(ciel_name::proofs::Numbers::appends))]
fn attribute_of(alloc: Global, attribute: Attribute, value: &Plain) -> Result<Writer, Memory>
    ensures bytes { IfOk result (λ w. w ≡ attribute_bytes (attribute, value.now)) }
    ensures plain { IsPlain value.now }
{
    let bytes = value.as_slice();
    let mut out = Writer::new(alloc);
    out.byte(b' ')?;
    out.raw(attribute.name().as_bytes())?;
    out.byte(b'=')?;
    out.byte(b'"')?;
    put_escaped(&mut out, bytes)?;
    out.byte(b'"')?;
    Ok(out)
}

/// An element with nothing in it.
#[tactic(auto, using(ciel_name::proofs::Numbers::appends))]
fn leaf_of(alloc: Global, tag: Tag, attributes: &Attributes) -> Result<Writer, Memory>
    ensures bytes { IfOk result (λ w. w ≡ leaf_bytes tag attributes.now) }
    ensures attributes { AreAttributes attributes.now }
{
    let bytes = attributes.as_slice();
    let mut out = Writer::new(alloc);
    out.byte(b'<')?;
    out.raw(tag.name().as_bytes())?;
    out.raw(bytes)?;
    out.byte(b'/')?;
    out.byte(b'>')?;
    Ok(out)
}

/// An element with markup in it.
#[tactic(auto, using(ciel_name::proofs::Numbers::appends))]
fn element_of(
    alloc: Global,
    tag: Tag,
    attributes: &Attributes,
    inner: &Markup,
) -> Result<Writer, Memory>
    ensures bytes { IfOk result (λ w. w ≡ element_bytes tag attributes.now inner.now) }
    ensures attributes { AreAttributes attributes.now }
    ensures markup { IsMarkup inner.now }
{
    let (bytes, within) = (attributes.as_slice(), inner.as_slice());
    let mut out = Writer::new(alloc);
    out.byte(b'<')?;
    out.raw(tag.name().as_bytes())?;
    out.raw(bytes)?;
    out.byte(b'>')?;
    out.raw(within)?;
    put_end(&mut out, tag)?;
    Ok(out)
}

/// The end of an element.
#[tactic(auto, using(ciel_name::proofs::Numbers::appends))]
fn put_end(out: &mut Writer, tag: Tag) -> Result<(), Memory>
    ensures { IfOk result (λ _. out.new ≡ out.old ++ end_bytes tag) }
{
    out.byte(b'<')?;
    out.byte(b'/')?;
    out.raw(tag.name().as_bytes())?;
    out.byte(b'>')
}
