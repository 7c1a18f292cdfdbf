// How deep brackets are nested: tried over the tokens before the grammar, so that the parser's
// recursion, which goes down only at brackets, is bounded.

ghost use Rattle.std.specs.Prelude.{◌≡◌, ◌≤◌, IfSome};
ghost use Rattle.sky_parse_grammar.specs.Nesting.{opening, closing, open_after, too_nested, place_of};

use sky_parse_expr::look::is_sign;
use sky_text::token::{Sign, Token, TokenKind};

/// Whether the token is `(`, `[` or `{`.
fn opening(kind: &TokenKind) -> bool
    ensures { result ≡ opening kind.now }
{
    is_sign(kind, Sign::OpenRound)
        || is_sign(kind, Sign::OpenSquare)
        || is_sign(kind, Sign::OpenCurly)
}

/// Whether the token is `)`, `]` or `}`.
fn closing(kind: &TokenKind) -> bool
    ensures { result ≡ closing kind.now }
{
    is_sign(kind, Sign::CloseRound)
        || is_sign(kind, Sign::CloseSquare)
        || is_sign(kind, Sign::CloseCurly)
}

/// How many brackets are open behind a token, unless it opens the 65th.
fn open_after(depth: u8, kind: &TokenKind) -> Option<u8>
    requires { depth ≤ 64 }
    ensures exact { result ≡ open_after depth kind.now }
    ensures bounded { IfSome result (λ n. n ≤ 64) }
{
    if opening(kind) {
        return if depth == 64 { None } else { Some(depth + 1) };
    }
    if closing(kind) {
        Some(depth.saturating_sub(1))
    } else {
        Some(depth)
    }
}

/// The line and column of the first opening sign at which 64 brackets are open already.
pub fn too_nested(ts: &[Token]) -> Option<(u32, u32)>
    ensures { place_of result ≡ too_nested 0 ts.now }
{
    let mut depth = 0;
    for t in ts {
        match open_after(depth, &t.kind) {
            Some(now) => depth = now,
            None => return Some((t.line, t.col)),
        }
    }
    None
}
