//! Elements of the picture. Lengths are in pixels.

ghost use Rattle.std.specs.Prelude.{◌≡◌, [], ◌∷◌, ◌++◌, ℕ, List, IfOk};
ghost use Rattle.ciel_look_shown.specs.Markup.{element_bytes, leaf_bytes};
ghost use Rattle.ciel_look_shown.specs.declared.tag.Tag.{Tag};
ghost use Rattle.ciel_look_sheet.specs.Drawn.{Draws, title_bytes, words_bytes};
ghost use Rattle.ciel_look_sheet.specs.Labels.{room};
ghost use Rattle.ciel_look_sheet.specs.Picture.{Holds, IsPicture};

use ciel_look_shown::markup::{Attributes, Markup};
use ciel_look_shown::plain::Plain;
use ciel_look_shown::tag::{Attribute, Tag};
use sky_base::text::Memory;
use std::alloc::Global;

/// What is drawn: the alloc, the elements so far, the place of the right end and of the lower end.
#[derive(Drop)]
pub struct Sheet {
    pub alloc: Global,
    pub marks: Markup,
    pub right: usize,
    pub low: usize,
}

/// How a box looks: its colour, whether its rim is red, and whether it is dashed.
#[derive(Clone, Copy)]
pub struct Look {
    pub colour: &'static str,
    pub red: bool,
    pub dashed: bool,
}

/// Where a box stands, and how large it is.
#[derive(Clone, Copy)]
pub struct Area {
    pub x: usize,
    pub y: usize,
    pub width: usize,
    pub height: usize,
}

/// Two places that a line joins.
#[derive(Clone, Copy)]
pub struct Way {
    pub x: usize,
    pub y: usize,
    pub to_x: usize,
    pub to_y: usize,
}

impl Sheet {
    /// Nothing is drawn.
    pub fn new(alloc: Global) -> Sheet
        ensures marks { result.marks ≡ [] }
    {
        Sheet {
            alloc,
            marks: Markup::new(alloc),
            right: 0,
            low: 0,
        }
    }

    /// Text at a place.
    pub fn text(
        &mut self,
        x: usize,
        y: usize,
        size: u64,
        colour: &str,
        text: &Plain,
    ) -> Result<(), Memory>
        ensures drawn { IfOk result (λ _. Draws [] [] 0 self.old.marks self.new.marks) }
    {
        let alloc = self.alloc;
        put_text(alloc, &mut self.marks, x, y, size, colour, text)?;
        self.reach(x.saturating_add(text.len().saturating_mul(7)), y);
        Ok(())
    }

    /// A box with a text in it, and a longer text that tells more of it.
    pub fn boxed(
        &mut self,
        area: Area,
        look: Look,
        size: u64,
        text: &Plain,
        tip: &Plain,
    ) -> Result<(), Memory>
        ensures drawn { IfOk result (λ _. Draws (tip.now ∷ []) [] 0 self.old.marks self.new.marks) }
    {
        let alloc = self.alloc;
        let mut inner = Markup::new(alloc);
        put_title(alloc, &mut inner, tip)?;
        put_box(alloc, &mut inner, area, look)?;
        let label = fitting(alloc, text, area.width)?;
        put_text(
            alloc,
            &mut inner,
            area.x.saturating_add(4),
            area.y.saturating_add(18),
            size,
            "#222",
            &label,
        )?;
        let attributes = Attributes::new(alloc);
        self.marks
            .put_element(alloc, Tag::Group, &attributes, &inner)?;
        self.reach(
            area.x.saturating_add(area.width),
            area.y.saturating_add(area.height),
        );
        Ok(())
    }

    /// A straight line.
    pub fn line(&mut self, way: Way, colour: &str) -> Result<(), Memory>
        ensures drawn { IfOk result (λ _. Draws [] [] 0 self.old.marks self.new.marks) }
    {
        let alloc = self.alloc;
        let mut attributes = Attributes::new(alloc);
        number(alloc, &mut attributes, Attribute::X1, way.x)?;
        number(alloc, &mut attributes, Attribute::Y1, way.y)?;
        number(alloc, &mut attributes, Attribute::X2, way.to_x)?;
        number(alloc, &mut attributes, Attribute::Y2, way.to_y)?;
        word(alloc, &mut attributes, Attribute::Stroke, colour)?;
        self.marks.put_leaf(alloc, Tag::Line, &attributes)?;
        self.reach(way.to_x, way.to_y);
        Ok(())
    }

    /// An arrow, and a text that tells what it is.
    pub fn arrow(&mut self, way: Way, colour: &str, dashed: bool, tip: &Plain) -> Result<(), Memory>
        ensures drawn { IfOk result (λ _. Draws [] (tip.now ∷ []) 0 self.old.marks self.new.marks) }
    {
        let alloc = self.alloc;
        let mut inner = Markup::new(alloc);
        put_title(alloc, &mut inner, tip)?;
        put_path(alloc, &mut inner, way, colour, dashed)?;
        let none = Attributes::new(alloc);
        self.marks.put_element(alloc, Tag::Group, &none, &inner)?;
        Ok(())
    }

    /// A cross.
    pub fn cross(&mut self, x: usize, y: usize) -> Result<(), Memory>
        ensures drawn { IfOk result (λ _. Draws [] [] 1 self.old.marks self.new.marks) }
    {
        let alloc = self.alloc;
        let mut path = Plain::new(alloc);
        point(&mut path, "M", x.saturating_sub(7), y.saturating_sub(7))?;
        path.put("l14 14m0 -14l-14 14".as_bytes())?;
        let mut attributes = Attributes::new(alloc);
        attributes.put(alloc, Attribute::D, &path)?;
        word(alloc, &mut attributes, Attribute::Stroke, "#c00")?;
        word(alloc, &mut attributes, Attribute::StrokeWidth, "3")?;
        self.marks.put_leaf(alloc, Tag::Path, &attributes)?;
        Ok(())
    }

    /// What is drawn reaches so far.
    fn reach(&mut self, x: usize, y: usize)
        ensures marks { self.new.marks ≡ self.old.marks }
    {
        self.right = self.right.max(x);
        self.low = self.low.max(y);
    }

    /// The whole picture.
    pub fn finish(self) -> Result<Markup, Memory>
        ensures picture { IfOk result IsPicture }
        ensures drawn { IfOk result (Holds self.marks) }
    {
        let alloc = self.alloc;
        let width = self.right.saturating_add(20);
        let height = self.low.saturating_add(20);
        let mut inner = Markup::new(alloc);
        put_head(alloc, &mut inner)?;
        put_ground(alloc, &mut inner)?;
        let mut attributes = Attributes::new(alloc);
        let empty = Attributes::new(alloc);
        inner.put_element(alloc, Tag::Group, &empty, &self.marks)?;
        word(
            alloc,
            &mut attributes,
            Attribute::Xmlns,
            "http://www.w3.org/2000/svg",
        )?;
        number(alloc, &mut attributes, Attribute::Width, width)?;
        number(alloc, &mut attributes, Attribute::Height, height)?;
        word(alloc, &mut attributes, Attribute::FontFamily, "sans-serif")?;
        let picture = whole(alloc, &attributes, &inner)?;
        Ok(picture)
    }
}

/// The picture with these attributes, with this in it.
fn whole(alloc: Global, attributes: &Attributes, inner: &Markup) -> Result<Markup, Memory>
    ensures picture { IfOk result IsPicture }
    ensures bytes { IfOk result (λ text. text ≡ element_bytes Tag.Svg attributes.now inner.now) }
{
    let mut picture = Markup::new(alloc);
    picture.put_element(alloc, Tag::Svg, attributes, inner)?;
    let _bytes = picture.as_slice();
    Ok(picture)
}

/// How many characters a box of this width has room for.
pub fn room(width: usize) -> usize
    ensures { result ≡ room width }
{
    (width.saturating_sub(4) / 6).max(2)
}

/// As much of a text as a box of this width has room for.
fn fitting(alloc: Global, text: &Plain, width: usize) -> Result<Plain, Memory> {
    let mut label = Plain::new(alloc);
    label.put_all(text)?;
    label.cut(room(width));
    Ok(label)
}

fn put_title(alloc: Global, marks: &mut Markup, tip: &Plain) -> Result<(), Memory>
    ensures put { IfOk result (λ _. marks.new ≡ marks.old ++ title_bytes tip.now) }
{
    let mut inner = Markup::new(alloc);
    inner.put_text(alloc, tip)?;
    let attributes = Attributes::new(alloc);
    marks.put_element(alloc, Tag::Title, &attributes, &inner)?;
    Ok(())
}

fn put_box(alloc: Global, marks: &mut Markup, area: Area, look: Look) -> Result<(), Memory>
    ensures put { IfOk result (λ _. (shape : List ℕ) × (marks.new ≡ marks.old ++ leaf_bytes Tag.Rect shape)) }
{
    let mut attributes = Attributes::new(alloc);
    number(alloc, &mut attributes, Attribute::X, area.x)?;
    number(alloc, &mut attributes, Attribute::Y, area.y)?;
    number(alloc, &mut attributes, Attribute::Width, area.width)?;
    number(alloc, &mut attributes, Attribute::Height, area.height)?;
    word(alloc, &mut attributes, Attribute::Rx, "4")?;
    put_look(alloc, &mut attributes, look)?;
    marks.put_leaf(alloc, Tag::Rect, &attributes)?;
    Ok(())
}

/// The line of an arrow.
fn put_path(
    alloc: Global,
    marks: &mut Markup,
    way: Way,
    colour: &str,
    dashed: bool,
) -> Result<(), Memory>
    ensures put { IfOk result (λ _. (path : List ℕ) × (marks.new ≡ marks.old ++ leaf_bytes Tag.Path path)) }
{
    let mut attributes = Attributes::new(alloc);
    let path = curve(alloc, way)?;
    attributes.put(alloc, Attribute::D, &path)?;
    word(alloc, &mut attributes, Attribute::Fill, "none")?;
    word(alloc, &mut attributes, Attribute::Stroke, colour)?;
    word(alloc, &mut attributes, Attribute::MarkerEnd, "url(#a)")?;
    put_dashes(alloc, &mut attributes, dashed)?;
    marks.put_leaf(alloc, Tag::Path, &attributes)?;
    Ok(())
}

fn put_dashes(alloc: Global, attributes: &mut Attributes, dashed: bool) -> Result<(), Memory> {
    if dashed {
        word(alloc, attributes, Attribute::StrokeDash, "2 3")?;
    }
    Ok(())
}

fn put_look(alloc: Global, attributes: &mut Attributes, look: Look) -> Result<(), Memory> {
    word(alloc, attributes, Attribute::Fill, look.colour)?;
    word(
        alloc,
        attributes,
        Attribute::Stroke,
        if look.red { "#c00" } else { "#555" },
    )?;
    if look.red {
        word(alloc, attributes, Attribute::StrokeWidth, "2.5")?;
    }
    if look.dashed {
        word(alloc, attributes, Attribute::StrokeDash, "4 3")?;
    }
    Ok(())
}

fn put_text(
    alloc: Global,
    marks: &mut Markup,
    x: usize,
    y: usize,
    size: u64,
    colour: &str,
    text: &Plain,
) -> Result<(), Memory>
    ensures put { IfOk result (λ _. (place : List ℕ) × (marks.new ≡ marks.old ++ words_bytes place text.now)) }
{
    let mut inner = Markup::new(alloc);
    inner.put_text(alloc, text)?;
    let mut attributes = Attributes::new(alloc);
    number(alloc, &mut attributes, Attribute::X, x)?;
    number(alloc, &mut attributes, Attribute::Y, y)?;
    number(alloc, &mut attributes, Attribute::FontSize, size as usize)?;
    word(alloc, &mut attributes, Attribute::Fill, colour)?;
    marks.put_element(alloc, Tag::Text, &attributes, &inner)?;
    Ok(())
}

/// The head of an arrow.
fn put_head(alloc: Global, marks: &mut Markup) -> Result<(), Memory> {
    let mut shape = Attributes::new(alloc);
    word(alloc, &mut shape, Attribute::D, "M0 0L8 4L0 8z")?;
    word(alloc, &mut shape, Attribute::Fill, "#888")?;
    let mut path = Markup::new(alloc);
    path.put_leaf(alloc, Tag::Path, &shape)?;
    let mut attributes = Attributes::new(alloc);
    word(alloc, &mut attributes, Attribute::Id, "a")?;
    word(alloc, &mut attributes, Attribute::ViewBox, "0 0 8 8")?;
    word(alloc, &mut attributes, Attribute::RefX, "8")?;
    word(alloc, &mut attributes, Attribute::RefY, "4")?;
    put_size(alloc, &mut attributes)?;
    let mut marker = Markup::new(alloc);
    marker.put_element(alloc, Tag::Marker, &attributes, &path)?;
    let none = Attributes::new(alloc);
    marks.put_element(alloc, Tag::Defs, &none, &marker)
}

fn put_size(alloc: Global, attributes: &mut Attributes) -> Result<(), Memory> {
    word(alloc, attributes, Attribute::MarkerWidth, "7")?;
    word(alloc, attributes, Attribute::MarkerHeight, "7")?;
    word(alloc, attributes, Attribute::Orient, "auto")
}

/// The white ground.
fn put_ground(alloc: Global, marks: &mut Markup) -> Result<(), Memory> {
    let mut attributes = Attributes::new(alloc);
    word(alloc, &mut attributes, Attribute::Width, "100%")?;
    word(alloc, &mut attributes, Attribute::Height, "100%")?;
    word(alloc, &mut attributes, Attribute::Fill, "#fff")?;
    marks.put_leaf(alloc, Tag::Rect, &attributes)
}

/// The line of an arrow, which leaves and comes in level.
fn curve(alloc: Global, way: Way) -> Result<Plain, Memory> {
    let mut path = Plain::new(alloc);
    let bend = if way.to_x > way.x {
        (way.to_x - way.x) / 2
    } else {
        20
    };
    point(&mut path, "M", way.x, way.y)?;
    point(&mut path, "C", way.x.saturating_add(bend), way.y)?;
    point(&mut path, " ", way.to_x.saturating_sub(bend), way.to_y)?;
    point(&mut path, " ", way.to_x, way.to_y)?;
    Ok(path)
}

fn point(path: &mut Plain, before: &str, x: usize, y: usize) -> Result<(), Memory> {
    path.put(before.as_bytes())?;
    path.put_number(x as u64)?;
    path.put(" ".as_bytes())?;
    path.put_number(y as u64)
}

/// An attribute with words of the program's own.
fn word(
    alloc: Global,
    attributes: &mut Attributes,
    attribute: Attribute,
    value: &str,
) -> Result<(), Memory> {
    let mut text = Plain::new(alloc);
    text.put(value.as_bytes())?;
    attributes.put(alloc, attribute, &text)
}

/// An attribute with a number.
fn number(
    alloc: Global,
    attributes: &mut Attributes,
    attribute: Attribute,
    value: usize,
) -> Result<(), Memory> {
    let mut text = Plain::new(alloc);
    text.put_number(value as u64)?;
    attributes.put(alloc, attribute, &text)
}
