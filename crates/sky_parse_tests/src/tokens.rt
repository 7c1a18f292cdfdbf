// The tokens of worked scripts, and the places of bytes.

use sky_text::lex::{lex, line_col};
use sky_text::token::{Token, TokenKind};
use std::alloc::{AllocError, Global};
use std::process::Abort;
use std::test::Fail;

fn write_token(out: &mut String, token: &Token) -> Result<(), AllocError> {
    let from = token.from;
    let to = token.to;
    let line = token.line;
    let col = token.col;
    match &token.kind {
        TokenKind::Name(name) => write!(out, "{}", name.as_str())?,
        TokenKind::Number(number) => write!(out, "{number}")?,
        TokenKind::Text(text) => write!(out, "<{}>", text.as_str())?,
        TokenKind::Word(word) => write!(out, "Word::{word:?}")?,
        TokenKind::Sign(sign) => write!(out, "{sign:?}")?,
    }
    write!(out, " {from}..{to} {line}:{col}; ")
}

/// The tokens of a script, each with its bytes and its place.
fn shown(rt: &impl Abort, alloc: Global, source: &str) -> Result<String, Fail> {
    assert!(rt; source.len() <= 1048576);
    let tokens = lex(alloc, source.as_bytes())?;
    let mut out = String::new(alloc);
    for token in &tokens {
        write_token(&mut out, token)?;
    }
    Ok(out)
}

#[test]
fn scripts_have_their_tokens(rt: HostRuntime) -> Result<(), Fail> {
    let rows = [
        (
            "x = 1;",
            "x 0..1 1:1; Assign 2..3 1:3; 1 4..5 1:5; Semicolon 5..6 1:6; ",
        ),
        (
            "9223372036854775807 0009",
            "9223372036854775807 0..19 1:1; 9 20..24 1:21; ",
        ),
        ("\"\\n\\t\\r\\\"\\\\\"", "<\n\t\r\"\\> 0..12 1:1; "),
        ("\"é\t\"1", "<é\t> 0..5 1:1; 1 5..6 1:6; "),
        ("a//b\nc", "a 0..1 1:1; c 5..6 2:1; "),
        ("//é\r\n\t\"é\"a//", "<é> 7..11 2:2; a 11..12 2:6; "),
        ("a/b", "a 0..1 1:1; Slash 1..2 1:2; b 2..3 1:3; "),
        (
            "== = += + = <=",
            "Equal 0..2 1:1; Assign 3..4 1:4; AddAssign 5..7 1:6; Plus 8..9 1:9; Assign 10..11 1:11; LessEqual 12..14 1:13; ",
        ),
        (
            "!!=>=>&&||",
            "Not 0..1 1:1; NotEqual 1..3 1:2; GreaterEqual 3..5 1:4; Greater 5..6 1:6; And 6..8 1:7; Or 8..10 1:9; ",
        ),
        (
            "(){}[],:-*%",
            "OpenRound 0..1 1:1; CloseRound 1..2 1:2; OpenCurly 2..3 1:3; CloseCurly 3..4 1:4; OpenSquare 4..5 1:5; CloseSquare 5..6 1:6; Comma 6..7 1:7; Colon 7..8 1:8; Minus 8..9 1:9; Star 9..10 1:10; Percent 10..11 1:11; ",
        ),
        (
            "function return if else while do for in true false",
            "Word::Function 0..8 1:1; Word::Return 9..15 1:10; Word::If 16..18 1:17; Word::Else 19..23 1:20; Word::While 24..29 1:25; Word::Do 30..32 1:31; Word::For 33..36 1:34; Word::In 37..39 1:38; Word::True 40..44 1:41; Word::False 45..50 1:46; ",
        ),
        (
            "null spawn spawn_exec exec ref len keys has range",
            "Word::Null 0..4 1:1; Word::Spawn 5..10 1:6; Word::SpawnExec 11..21 1:12; Word::Exec 22..26 1:23; Word::Ref 27..30 1:28; Word::Len 31..34 1:32; Word::Keys 35..39 1:36; Word::Has 40..43 1:41; Word::Range 44..49 1:45; ",
        ),
        (
            "spawn_exec2 spawner _ If 1a",
            "spawn_exec2 0..11 1:1; spawner 12..19 1:13; _ 20..21 1:21; If 22..24 1:23; 1 25..26 1:26; a 26..27 1:27; ",
        ),
        ("", ""),
    ];
    for (source, want) in rows {
        let tokens = shown(&rt, rt.alloc(), source)?;
        assert_eq!(&rt; tokens.as_str(), want, "the tokens of {source:?}");
    }
    Ok(())
}

#[test]
fn bytes_have_their_places(rt: HostRuntime) -> Result<(), Fail> {
    let source = "a\n\n\té\r\nb";
    let rows = [
        (0, (1, 1)),
        (1, (1, 2)),
        (2, (2, 1)),
        (3, (3, 1)),
        (4, (3, 2)),
        (6, (3, 4)),
        (8, (4, 1)),
        (9, (4, 2)),
    ];
    for (at, want) in rows {
        assert!(&rt; source.len() <= 1048576 && at as usize <= source.len());
        assert_eq!(&rt; line_col(source.as_bytes(), at), want, "the place of {at}");
    }
    Ok(())
}
