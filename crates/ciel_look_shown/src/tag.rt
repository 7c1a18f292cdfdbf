//! The elements and attributes that are written.

ghost use Rattle.std.specs.Prelude.{◌≡◌};
ghost use Rattle.ciel_look_shown.specs.Markup.{attribute_name, tag_name};

/// An element's kind.
#[derive(Clone, Copy)]
pub enum Tag {
    Svg,
    Defs,
    Marker,
    Group,
    Title,
    Text,
    Rect,
    Path,
    Line,
}

/// An attribute.
#[derive(Clone, Copy)]
pub enum Attribute {
    Xmlns,
    ViewBox,
    Width,
    Height,
    FontFamily,
    FontSize,
    FontWeight,
    TextAnchor,
    Id,
    RefX,
    RefY,
    MarkerWidth,
    MarkerHeight,
    MarkerEnd,
    Orient,
    X,
    Y,
    X1,
    Y1,
    X2,
    Y2,
    Rx,
    D,
    Fill,
    Stroke,
    StrokeWidth,
    StrokeDash,
}

impl Tag {
    /// Its name.
    pub fn name(self) -> &'static str
        ensures { result.now ≡ tag_name self }
    {
        match self {
            Tag::Svg => "svg",
            Tag::Defs => "defs",
            Tag::Marker => "marker",
            Tag::Group => "g",
            Tag::Title => "title",
            Tag::Text => "text",
            Tag::Rect => "rect",
            Tag::Path => "path",
            Tag::Line => "line",
        }
    }
}

impl Attribute {
    /// Its name.
    pub fn name(self) -> &'static str
        ensures { result.now ≡ attribute_name self }
    {
        match self {
            Attribute::Xmlns => "xmlns",
            Attribute::ViewBox => "viewBox",
            Attribute::Width => "width",
            Attribute::Height => "height",
            Attribute::FontFamily => "font-family",
            Attribute::FontSize => "font-size",
            Attribute::FontWeight => "font-weight",
            Attribute::TextAnchor => "text-anchor",
            Attribute::Id => "id",
            Attribute::RefX => "refX",
            Attribute::RefY => "refY",
            Attribute::MarkerWidth => "markerWidth",
            Attribute::MarkerHeight => "markerHeight",
            Attribute::MarkerEnd => "marker-end",
            Attribute::Orient => "orient",
            Attribute::X => "x",
            Attribute::Y => "y",
            Attribute::X1 => "x1",
            Attribute::Y1 => "y1",
            Attribute::X2 => "x2",
            Attribute::Y2 => "y2",
            Attribute::Rx => "rx",
            Attribute::D => "d",
            Attribute::Fill => "fill",
            Attribute::Stroke => "stroke",
            Attribute::StrokeWidth => "stroke-width",
            Attribute::StrokeDash => "stroke-dasharray",
        }
    }
}
