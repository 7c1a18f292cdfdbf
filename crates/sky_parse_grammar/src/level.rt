// The levels of chains, from the loosest to the tightest. A chain's operands are those of the next
// tighter level, so one pair of functions reads every level.

ghost use Rattle.std.specs.Prelude.{◌≡◌};
ghost use Rattle.sky_parse_grammar.specs.Levels.{tighter, join_sign};

use sky_text::token::Sign;

/// A level of chains.
#[derive(Clone, Copy, Debug)]
pub enum Level {
    /// `||`
    Either,
    /// `&&`
    Both,
    /// One of `==`, `!=`, `<`, `<=`, `>`, `>=`, at most once.
    Comparison,
    /// `+` and `-`
    Sum,
    /// `*`, `/` and `%`
    Product,
    /// No chain: an operand of a product.
    Prefix,
}

impl Level {
    /// The level of the operands of its chains.
    pub fn tighter(self) -> Option<Level>
        ensures { result ≡ tighter self }
    {
        match self {
            Level::Either => Some(Level::Both),
            Level::Both => Some(Level::Comparison),
            Level::Comparison => Some(Level::Sum),
            Level::Sum => Some(Level::Product),
            Level::Product => Some(Level::Prefix),
            Level::Prefix => None,
        }
    }

    /// The sign of a chain of truth values.
    pub fn join_sign(self) -> Sign
        ensures { result ≡ join_sign self }
    {
        match self {
            Level::Both => Sign::And,
            Level::Either | Level::Comparison | Level::Sum | Level::Product | Level::Prefix =>
                Sign::Or,
        }
    }
}
