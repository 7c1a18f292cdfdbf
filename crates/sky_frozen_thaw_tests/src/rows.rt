// The rows: a text, the bytes of each object for which its main call waits, the number of its waits, and the number that it ends with.

use crate::calls::of_text;
use std::test::Fail;

static FORMS: [(&str, &[u8], u32, i64); 11] = [
    ("return 1 + 2;", b"", 0, 3),
    ("r = spawn(function() {}, []); return (*r);", b"7", 1, 7),
    (
        "r = spawn(function() {}, []); return [1, *r][1];",
        b"7",
        1,
        7,
    ),
    (
        "r = spawn(function() {}, []); return {\"a\": *r}[\"a\"];",
        b"7",
        1,
        7,
    ),
    (
        "r = spawn(function() {}, []); return 1 - *r - 2;",
        b"7",
        1,
        -8,
    ),
    (
        "r = spawn(function() {}, []); if (true && *r) { return 1; } return 2;",
        b"false",
        1,
        2,
    ),
    ("r = spawn(function() {}, []); return - -*r;", b"7", 1, 7),
    (
        "r = spawn(function() {}, []); return (*r)[1];",
        b"[5,6]",
        1,
        6,
    ),
    (
        "function f(x, y) { return x - y; } r = spawn(f, [1, 2]); return f(10, *r);",
        b"7",
        1,
        3,
    ),
    (
        "function f(x) { return *x + 1; } r = spawn(f, [1]); return f(r) * 2;",
        b"7",
        1,
        16,
    ),
    ("x = exec(\"cat\", {}, 3); return len(x);", b"7", 1, 3),
];

static STATEMENTS: [(&str, &[u8], u32, i64); 9] = [
    (
        "k = 3; g = function(x) { return *x + k; }; r = spawn(g, [1]); k = 4; return g(r) * 2;",
        b"7",
        1,
        20,
    ),
    (
        "r = spawn(function() {}, []); x = [1, 2]; x[*r] = 5; return x[1];",
        b"1",
        1,
        5,
    ),
    (
        "r = spawn(function() {}, []); if (*r == 1) { return 1; } else if (*r == 2) { return 2; } return 3;",
        b"2",
        2,
        2,
    ),
    (
        "r = spawn(function() {}, []); i = 0; while (i < *r) { i += 1; } return i;",
        b"2",
        3,
        2,
    ),
    (
        "r = spawn(function() {}, []); i = 0; do { i += 1; } while (i < *r); return i;",
        b"3",
        3,
        3,
    ),
    (
        "r = spawn(function() {}, []); s = 0; for (x in *r) { s += x; } return s;",
        b"[3,4]",
        1,
        7,
    ),
    (
        "function g(x) { return x; } s = 0; for (x in [1, 2]) { s += x * *spawn(g, [x]); } return s;",
        b"10",
        2,
        30,
    ),
    (
        "function f(x) { for (y in [x]) { if (true) { return -*y; } } } r = spawn(f, [1]); return f(r);",
        b"7",
        1,
        -7,
    ),
    (
        "function f(x) { return x * x; } a = spawn(f, [3]); b = spawn(f, [4]); return *a + *b;",
        b"9",
        2,
        18,
    ),
];

#[test]
fn from_bytes_at_expressions(rt: HostRuntime) -> Result<(), Fail> {
    for (text, bytes, waits, end) in &FORMS {
        assert!(&rt; of_text(rt.alloc(), text, bytes)? == (*waits, *end));
    }
    Ok(())
}

#[test]
fn from_bytes_at_statements(rt: HostRuntime) -> Result<(), Fail> {
    for (text, bytes, waits, end) in &STATEMENTS {
        assert!(&rt; of_text(rt.alloc(), text, bytes)? == (*waits, *end));
    }
    Ok(())
}
