// What stands first at some bytes of a script: blanks and comments, or a token. Each function has
// the definition of its part as its clause, so the loop above them only puts them together.

ghost use Rattle.std.specs.Prelude.{◌≡◌, ◌≤◌, ◌<◌, ◌+◌, ◌⊎◌, ◌∷◌, List, not, length, IfOk, IfErr, Ok, Err};
ghost use Rattle.std.specs.Char.{is_ascii_digit};
ghost use Rattle.std.specs.List.{AllPass, prefix_len};
ghost use Rattle.sky_text.specs.Place.{is_line_feed};
ghost use Rattle.std.specs.Str.{IsUtf8};
ghost use Rattle.sky_text.specs.Lexing.{is_blank, begins_with, gap_len, begins_name, goes_on_name, named, number, number_of, is_escape, unescaped};
ghost use Rattle.sky_text.specs.Lexing.{text_from, text_at, sign_at, token_at, and_then};
ghost use Rattle.sky_text.specs.Words.{words, look_up, as_long, word_of, short_sign, long_sign};

use crate::lex::LexRefusal;
use crate::token::{Sign, TokenKind, Word};
use sky_base::text::{Memory, Txt};
use std::alloc::Global;

fn is_blank(b: u8) -> bool
    ensures { result ≡ is_blank b }
{
    b == b' ' || b == b'\t' || b == b'\r' || b == b'\n'
}

fn begins_with(byte: u8, bytes: &[u8]) -> bool
    ensures { result ≡ begins_with byte bytes.now }
{
    match bytes {
        [first, ..] => *first == byte,
        [] => false,
    }
}

fn line_len(bytes: &[u8]) -> usize
    ensures { result ≡ prefix_len (λ c. not (is_line_feed c)) bytes.now }
{
    bytes.iter().take_while(|b| **b != b'\n').count()
}

/// How many bytes before a token stand first: one blank, a comment, or none.
pub(crate) fn gap_len(first: u8, rest: &[u8]) -> usize
    requires { length rest.now < 1048576 }
    ensures value { result ≡ gap_len first rest.now }
    ensures within { result ≤ length rest.now + 1 }
{
    if is_blank(first) {
        1
    } else if first == b'/' && begins_with(b'/', rest) {
        1 + line_len(rest)
    } else {
        0
    }
}

fn begins_name(b: u8) -> bool
    ensures { result ≡ begins_name b }
{
    b.is_ascii_alphabetic() || b == b'_'
}

fn goes_on_name(b: u8) -> bool
    ensures { result ≡ goes_on_name b }
{
    begins_name(b) || b.is_ascii_digit()
}

fn word(name: &str) -> Option<Word>
    ensures { result ≡ word_of name.now }
{
    match name.len() {
        2 => word_of_two(name),
        3 => word_of_three(name),
        4 => word_of_four(name),
        5 => word_of_five(name),
        6 => word_of_six(name),
        8 => word_of_eight(name),
        10 => word_of_ten(name),
        _ => None,
    }
}

fn word_of_two(name: &str) -> Option<Word>
    ensures { result ≡ look_up (as_long 2 words) name.now }
{
    if name == "if" {
        Some(Word::If)
    } else if name == "do" {
        Some(Word::Do)
    } else if name == "in" {
        Some(Word::In)
    } else {
        None
    }
}

fn word_of_three(name: &str) -> Option<Word>
    ensures { result ≡ look_up (as_long 3 words) name.now }
{
    if name == "for" {
        Some(Word::For)
    } else if name == "ref" {
        Some(Word::Ref)
    } else if name == "len" {
        Some(Word::Len)
    } else if name == "has" {
        Some(Word::Has)
    } else {
        None
    }
}

fn word_of_four(name: &str) -> Option<Word>
    ensures { result ≡ look_up (as_long 4 words) name.now }
{
    if name == "else" {
        Some(Word::Else)
    } else if name == "true" {
        Some(Word::True)
    } else if name == "null" {
        Some(Word::Null)
    } else if name == "exec" {
        Some(Word::Exec)
    } else if name == "keys" {
        Some(Word::Keys)
    } else {
        None
    }
}

fn word_of_five(name: &str) -> Option<Word>
    ensures { result ≡ look_up (as_long 5 words) name.now }
{
    if name == "while" {
        Some(Word::While)
    } else if name == "false" {
        Some(Word::False)
    } else if name == "spawn" {
        Some(Word::Spawn)
    } else if name == "range" {
        Some(Word::Range)
    } else {
        None
    }
}

fn word_of_six(name: &str) -> Option<Word>
    ensures { result ≡ look_up (as_long 6 words) name.now }
{
    if name == "return" {
        Some(Word::Return)
    } else {
        None
    }
}

fn word_of_eight(name: &str) -> Option<Word>
    ensures { result ≡ look_up (as_long 8 words) name.now }
{
    if name == "function" {
        Some(Word::Function)
    } else {
        None
    }
}

fn word_of_ten(name: &str) -> Option<Word>
    ensures { result ≡ look_up (as_long 10 words) name.now }
{
    if name == "spawn_exec" {
        Some(Word::SpawnExec)
    } else {
        None
    }
}

fn short_sign(b: u8) -> Option<Sign>
    ensures { result ≡ short_sign b }
{
    match b {
        b'(' => Some(Sign::OpenRound),
        b')' => Some(Sign::CloseRound),
        b'{' => Some(Sign::OpenCurly),
        b'}' => Some(Sign::CloseCurly),
        b'[' => Some(Sign::OpenSquare),
        b']' => Some(Sign::CloseSquare),
        b',' => Some(Sign::Comma),
        b';' => Some(Sign::Semicolon),
        b':' => Some(Sign::Colon),
        b'=' => Some(Sign::Assign),
        b'+' => Some(Sign::Plus),
        b'-' => Some(Sign::Minus),
        b'*' => Some(Sign::Star),
        b'/' => Some(Sign::Slash),
        b'%' => Some(Sign::Percent),
        b'!' => Some(Sign::Not),
        b'<' => Some(Sign::Less),
        b'>' => Some(Sign::Greater),
        _ => None,
    }
}

fn long_sign(b: u8, c: u8) -> Option<Sign>
    ensures { result ≡ long_sign b c }
{
    match (b, c) {
        (b'=', b'=') => Some(Sign::Equal),
        (b'+', b'=') => Some(Sign::AddAssign),
        (b'!', b'=') => Some(Sign::NotEqual),
        (b'<', b'=') => Some(Sign::LessEqual),
        (b'>', b'=') => Some(Sign::GreaterEqual),
        (b'&', b'&') => Some(Sign::And),
        (b'|', b'|') => Some(Sign::Or),
        _ => None,
    }
}

fn sign(at: u32, first: u8, rest: &[u8]) -> Result<(TokenKind, u32), LexRefusal>
    requires { at + length rest.now < 1048576 }
    ensures value { result ≡ sign_at at first rest.now }
    ensures within { IfOk result (λ t. (at < t.1) × (t.1 ≤ at + 1 + length rest.now)) }
{
    if let Some(second) = rest.first() {
        if let Some(sign) = long_sign(first, *second) {
            return Ok((TokenKind::Sign(sign), at + 2));
        }
    }
    match short_sign(first) {
        Some(sign) => Ok((TokenKind::Sign(sign), at + 1)),
        None => Err(LexRefusal::BadByte(at)),
    }
}

fn name_len(bytes: &[u8]) -> usize
    ensures { result ≡ prefix_len goes_on_name bytes.now }
{
    bytes.iter().take_while(|b| goes_on_name(**b)).count()
}

fn digits_len(bytes: &[u8]) -> usize
    ensures { result ≡ prefix_len is_ascii_digit bytes.now }
{
    bytes.iter().take_while(|b| b.is_ascii_digit()).count()
}

/// The kind of the word or the name that the bytes spell.
fn name(alloc: Global, bytes: &[u8]) -> Result<TokenKind, Memory>
    requires { AllPass goes_on_name bytes.now }
    ensures { IfOk result (λ kind. kind ≡ named bytes.now) }
{
    let Ok(name) = str::from_utf8(bytes) else {
        unreachable!()
    };
    match word(name) {
        Some(word) => Ok(TokenKind::Word(word)),
        None => Ok(TokenKind::Name(Txt::new(alloc, name)?)),
    }
}

/// The number that the digits write.
fn number(at: u32, digits: &[u8]) -> Result<TokenKind, LexRefusal>
    requires { AllPass is_ascii_digit digits.now }
    ensures { result ≡ number at (number_of digits.now) }
{
    let mut value: u64 = 0;
    for digit in digits {
        let more = u128::from(value) * 10 + u128::from(*digit - b'0');
        if more > 9223372036854775807 {
            return Err(LexRefusal::BigNumber(at));
        }
        value = more as u64;
    }
    Ok(TokenKind::Number(value as i64))
}

fn is_escape(c: u8) -> bool
    ensures { result ≡ is_escape c }
{
    c == b'"' || c == b'\\' || c == b'n' || c == b't' || c == b'r'
}

fn unescaped(c: u8) -> u8
    ensures { result ≡ unescaped c }
{
    match c {
        b'n' => b'\n',
        b't' => b'\t',
        b'r' => b'\r',
        _ => c,
    }
}

/// The content of the text whose opening quote stands at `quote`, from the bytes behind that quote,
/// and the place behind its closing quote.
fn content(alloc: Global, quote: u32, bytes: &[u8]) -> Result<(Vec<u8>, u32), LexRefusal>
    requires { quote + 1 + length bytes.now ≤ 1048576 }
    ensures found { IfOk result (λ c. text_from quote (quote + 1) bytes.now ≡ Ok (c.0.items, c.1)) }
    ensures refused { IfErr result (λ e. (e ≡ LexRefusal.Memory) ⊎ (text_from quote (quote + 1) bytes.now ≡ Err e)) }
    ensures within { IfOk result (λ c. (quote < c.1) × (c.1 ≤ quote + 1 + length bytes.now)) }
{
    let mut content = Vec::new(alloc);
    let mut at = quote + 1;
    let mut rest = bytes;
    while let Some((b, after)) = rest.split_first() {
        if *b == b'"' {
            return Ok((content, at + 1));
        }
        if *b == b'\n' {
            return Err(LexRefusal::OpenText(quote));
        }
        if *b == b'\\' {
            let Some((c, behind)) = after.split_first() else {
                return Err(LexRefusal::OpenText(quote));
            };
            if *c == b'\n' {
                return Err(LexRefusal::OpenText(quote));
            }
            if !is_escape(*c) {
                return Err(LexRefusal::BadEscape(at));
            }
            let Ok(()) = content.push(unescaped(*c)) else {
                return Err(LexRefusal::Memory);
            };
            at += 2;
            rest = behind;
        } else {
            let Ok(()) = content.push(*b) else {
                return Err(LexRefusal::Memory);
            };
            at += 1;
            rest = after;
        }
    }
    Err(LexRefusal::OpenText(quote))
}

fn text(alloc: Global, quote: u32, bytes: &[u8]) -> Result<(TokenKind, u32), LexRefusal>
    requires few { quote + 1 + length bytes.now ≤ 1048576 }
    requires utf8 { IsUtf8 bytes.now }
    ensures found { IfOk result (λ t. text_at quote bytes.now ≡ Ok t) }
    ensures refused { IfErr result (λ e. (e ≡ LexRefusal.Memory) ⊎ (text_at quote bytes.now ≡ Err e)) }
    ensures within { IfOk result (λ t. (quote < t.1) × (t.1 ≤ quote + 1 + length bytes.now)) }
{
    let (content, to) = content(alloc, quote, bytes)?;
    let Ok(text) = String::from_utf8(content) else {
        unreachable!()
    };
    match Txt::from_string(text) {
        Ok(text) => Ok((TokenKind::Text(text), to)),
        Err(Memory) => Err(LexRefusal::Memory),
    }
}

/// The kind of the token that stands first, and the place behind it.
pub(crate) fn token(
    alloc: Global,
    at: u32,
    bytes: &[u8],
    first: u8,
    rest: &[u8],
) -> Result<(TokenKind, u32), LexRefusal>
    requires few { at + length bytes.now ≤ 1048576 }
    requires split { bytes.now ≡ first ∷ rest.now }
    requires quoted { first ≡ 34 → IsUtf8 rest.now }
    ensures found { IfOk result (λ t. token_at at first rest.now ≡ Ok t) }
    ensures refused { IfErr result (λ e. (e ≡ LexRefusal.Memory) ⊎ (token_at at first rest.now ≡ Err e)) }
    ensures within { IfOk result (λ t. (at < t.1) × (t.1 ≤ at + length bytes.now)) }
{
    if begins_name(first) {
        let len = name_len(bytes);
        match name(alloc, &bytes[..len]) {
            Ok(kind) => Ok((kind, at + len as u32)),
            Err(Memory) => Err(LexRefusal::Memory),
        }
    } else if first.is_ascii_digit() {
        let len = digits_len(bytes);
        let kind = number(at, &bytes[..len])?;
        Ok((kind, at + len as u32))
    } else if first == b'"' {
        text(alloc, at, rest)
    } else {
        sign(at, first, rest)
    }
}
