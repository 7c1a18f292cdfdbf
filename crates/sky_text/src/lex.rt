// The lexer: the bytes of a script become its tokens, in one pass.

ghost use Rattle.std.specs.Prelude.{◌≡◌, ◌≤◌, ◌<◌, ◌+◌, ◌^◌, ◌==◌, if◌then◌else◌, ◌⊎◌, count_by, length, not, IfOk, IfErr, Ok, Err};
ghost use Rattle.std.specs.Str.{IsUtf8};
ghost use Rattle.sky_text.specs.Lexing.{byte_of, tokens_of};
ghost use Rattle.sky_text.specs.Place.{is_line_feed, place_of};
ghost use Rattle.std.specs.List.{suffix_len};

use crate::scan::{gap_len, token};
use crate::token::Token;
use std::alloc::Global;

/// Why bytes have no tokens, with the place of the byte, counted from 0 ("Tokens" in the language's
/// reference).
#[derive(Clone, Copy, PartialEq, Eq, Debug)]
pub enum LexRefusal {
    /// A byte that begins no token, or one with which the bytes stop to be UTF-8.
    BadByte(u32),
    /// The opening quote of a text that is not closed on its line.
    OpenText(u32),
    /// A backslash in a text that begins no escape.
    BadEscape(u32),
    /// The first digit of a number above 9223372036854775807.
    BigNumber(u32),
    /// Want of memory.
    Memory,
}

/// The tokens of a script, in order. Refused is the first byte, from the left, that makes no token;
/// bytes that are not UTF-8 are refused before all else, where the longest part in front that is
/// UTF-8 ends ("Tokens" in the language's reference).
pub fn lex(alloc: Global, bytes: &[u8]) -> Result<Vec<Token>, LexRefusal>
    requires { length bytes.now ≤ 1048576 }
    ensures tokens { IfOk result (λ ts. tokens_of bytes.now ≡ Ok ts.items) }
    // No token is without a byte.
    ensures few { IfOk result (λ ts. length ts.items ≤ length bytes.now) }
    ensures refused { IfErr result (λ e. (e ≡ LexRefusal.Memory) ⊎ (tokens_of bytes.now ≡ Err e)) }
    // What is refused is a byte of these, or their end.
    ensures within { IfErr result (λ e. byte_of e ≤ length bytes.now) }
{
    match str::from_utf8(bytes) {
        Ok(_) => read(alloc, bytes),
        Err(error) => Err(LexRefusal::BadByte(error.valid_up_to() as u32)),
    }
}

/// The tokens of a script that is UTF-8.
fn read(alloc: Global, bytes: &[u8]) -> Result<Vec<Token>, LexRefusal>
    requires few { length bytes.now ≤ 1048576 }
    requires utf8 { IsUtf8 bytes.now }
    ensures tokens { IfOk result (λ ts. tokens_of bytes.now ≡ Ok ts.items) }
    ensures refused { IfErr result (λ e. (e ≡ LexRefusal.Memory) ⊎ (tokens_of bytes.now ≡ Err e)) }
{
    let mut tokens = Vec::new(alloc);
    let mut rest = bytes;
    let mut at: u32 = 0;
    let mut line: u32 = 1;
    let mut col: u32 = 1;
    while let Some((first, after)) = rest.split_first() {
        let gap = gap_len(*first, after);
        if gap > 0 {
            let (_, behind) = rest.split_at(gap);
            (line, col) = past_gap(*first, gap as u32, line, col);
            at += gap as u32;
            rest = behind;
        } else {
            let (kind, to) = token(alloc, at, rest, *first, after)?;
            let (_, behind) = rest.split_at((to - at) as usize);
            let token = Token {
                kind,
                from: at,
                to,
                line,
                col,
            };
            let Ok(()) = tokens.push(token) else {
                return Err(LexRefusal::Memory);
            };
            col += to - at;
            at = to;
            rest = behind;
        }
    }
    Ok(tokens)
}

/// The place behind a gap.
fn past_gap(first: u8, len: u32, line: u32, col: u32) -> (u32, u32)
    requires lines { line < 2 ^ 31 }
    requires columns { col + len < 2 ^ 31 }
    ensures { result ≡ (if first == 10 then (line + 1, 1) else (line, col + len)) }
{
    if first == b'\n' {
        (line + 1, 1)
    } else {
        (line, col + len)
    }
}

fn line_feeds(bytes: &[u8]) -> usize
    ensures { result ≡ count_by is_line_feed bytes.now }
{
    bytes.iter().filter(|b| **b == b'\n').count()
}

fn last_line_len(bytes: &[u8]) -> usize
    ensures { result ≡ suffix_len (λ b. not (is_line_feed b)) bytes.now }
{
    bytes.iter().rev().take_while(|b| **b != b'\n').count()
}

/// The line and the column of a byte, or of the end; both begin at 1, and columns count bytes.
pub fn line_col(bytes: &[u8], at: u32) -> (u32, u32)
    requires few { length bytes.now ≤ 1048576 }
    requires within { at ≤ length bytes.now }
    ensures { result ≡ place_of bytes.now at }
{
    let before = &bytes[..at as usize];
    let line = line_feeds(before) as u32 + 1;
    let col = last_line_len(before) as u32 + 1;
    (line, col)
}
