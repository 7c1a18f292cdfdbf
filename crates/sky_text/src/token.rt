// The tokens of a script. A token carries what a parser needs without the source: the text of a
// name, the value of a number, the content of a text, and its place.

use sky_base::text::Txt;

/// A word of the language. Words are never names.
#[derive(Clone, Copy, PartialEq, Eq, Debug)]
pub enum Word {
    Function,
    Return,
    If,
    Else,
    While,
    Do,
    For,
    In,
    True,
    False,
    Null,
    Spawn,
    SpawnExec,
    Exec,
    Ref,
    Len,
    Keys,
    Has,
    Range,
}

/// A sign of the language.
#[derive(Clone, Copy, PartialEq, Eq, Debug)]
pub enum Sign {
    /// `(`
    OpenRound,
    /// `)`
    CloseRound,
    /// `{`
    OpenCurly,
    /// `}`
    CloseCurly,
    /// `[`
    OpenSquare,
    /// `]`
    CloseSquare,
    /// `,`
    Comma,
    /// `;`
    Semicolon,
    /// `:`
    Colon,
    /// `=`
    Assign,
    /// `+=`
    AddAssign,
    /// `+`
    Plus,
    /// `-`
    Minus,
    /// `*`
    Star,
    /// `/`
    Slash,
    /// `%`
    Percent,
    /// `!`
    Not,
    /// `==`
    Equal,
    /// `!=`
    NotEqual,
    /// `<`
    Less,
    /// `<=`
    LessEqual,
    /// `>`
    Greater,
    /// `>=`
    GreaterEqual,
    /// `&&`
    And,
    /// `||`
    Or,
}

/// What a token is.
#[derive(Drop)]
pub enum TokenKind {
    /// A name, with its text.
    Name(Txt),
    /// A number, from 0 to 9223372036854775807.
    Number(i64),
    /// A text, with its content: the escapes replaced, without the quotes.
    Text(Txt),
    Word(Word),
    Sign(Sign),
}

/// A token of a script, with its bytes `from..to` counted from 0 and the place of its first byte:
/// line and column from 1, columns counted in bytes.
#[derive(Drop)]
pub struct Token {
    pub kind: TokenKind,
    pub from: u32,
    pub to: u32,
    pub line: u32,
    pub col: u32,
}
