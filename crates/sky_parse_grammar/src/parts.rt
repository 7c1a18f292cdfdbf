// What stands between brackets: which separators and which closing sign each form has, and how many
// parts. One loop of the parser reads them all by these.

ghost use Rattle.std.specs.Prelude.{◌≡◌};
ghost use Rattle.sky_parse_grammar.specs.Parts.{separator, full, ready, closing, head_shape, step_shape};

use sky_text::token::Sign;

/// How the parts of a form stand in its brackets, which this sign closes.
#[derive(Clone, Copy, Debug)]
pub enum Shape {
    /// Any number, with commas between them.
    Many(Sign),
    /// So many, with commas between them.
    Fixed(usize, Sign),
    /// Keys and values in turn, with `:` and commas, up to `}`.
    Pairs,
}

/// A form with brackets.
#[derive(Clone, Copy, Debug)]
pub enum Head {
    Parens,
    List,
    Dict,
    Spawn,
    SpawnExec,
    Exec,
    Ref,
    Len,
    Keys,
    Has,
    Range,
}

impl Head {
    /// How its parts stand.
    pub fn shape(self) -> Shape
        ensures { result ≡ head_shape self }
    {
        match self {
            Head::List => Shape::Many(Sign::CloseSquare),
            Head::Dict => Shape::Pairs,
            Head::Parens | Head::Ref | Head::Len | Head::Keys => Shape::Fixed(1, Sign::CloseRound),
            Head::Spawn | Head::Has | Head::Range => Shape::Fixed(2, Sign::CloseRound),
            Head::SpawnExec | Head::Exec => Shape::Fixed(3, Sign::CloseRound),
        }
    }
}

/// An index or a call.
#[derive(Clone, Copy, Debug)]
pub enum StepHead {
    Index,
    Call,
}

impl StepHead {
    /// How its parts stand.
    pub fn shape(self) -> Shape
        ensures { result ≡ step_shape self }
    {
        match self {
            StepHead::Index => Shape::Fixed(1, Sign::CloseSquare),
            StepHead::Call => Shape::Many(Sign::CloseRound),
        }
    }
}

impl Shape {
    /// The sign between so many parts and the next one.
    pub fn separator(self, count: usize) -> Sign
        ensures { result ≡ separator self count }
    {
        match self {
            Shape::Many(_) | Shape::Fixed(_, _) => Sign::Comma,
            Shape::Pairs => if count % 2 == 1 {
                Sign::Colon
            } else {
                Sign::Comma
            },
        }
    }

    /// Whether no part may follow so many.
    pub fn full(self, count: usize) -> bool
        ensures { result ≡ full self count }
    {
        match self {
            Shape::Fixed(most, _) => count == most,
            Shape::Many(_) | Shape::Pairs => false,
        }
    }

    /// Whether so many parts are enough.
    pub fn ready(self, count: usize) -> bool
        ensures { result ≡ ready self count }
    {
        match self {
            Shape::Fixed(least, _) => count == least,
            Shape::Many(_) => true,
            Shape::Pairs => count % 2 == 0,
        }
    }

    /// The sign that closes the brackets.
    pub fn closing(self) -> Sign
        ensures { result ≡ closing self }
    {
        match self {
            Shape::Many(sign) => sign,
            Shape::Fixed(_, sign) => sign,
            Shape::Pairs => Sign::CloseCurly,
        }
    }
}
