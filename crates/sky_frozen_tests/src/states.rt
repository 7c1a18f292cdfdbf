// States of some scripts, by their bytes; each name in them has twenty bytes of 1.

/// The script of each state, and its bytes.
pub fn state(number: usize) -> (&'static str, &'static [u8]) {
    match number {
        0 => (CALLS, CALL),
        1 => (LOOPS, LOOP),
        2 => (EXECUTES, EXEC),
        3 => (CAPTURES, FUNCTION),
        4 => (CAPTURES, START),
        _ => (CALLS, SHOW),
    }
}

static CALLS: &str =
    "function f(r) { return *r; } function g() { return 1; } return f(spawn(g, []));";

static LOOPS: &str = "function g() { return 1; } s = 0; for (r in [1, spawn(g, [])]) { \
    if (s == 1) { s += *r; } else { s = 1; } } return s;";

static EXECUTES: &str = "x = exec(\"cat\", {\"in\": [\"a\"]}, 2); return x[0];";

static CAPTURES: &str = "k = 1; h = function(x) { return x + k; }; return *spawn(h, [1]);";

/// The first wait, inside a call.
static CALL: &[u8] =
    b"K\x01\0\0\0\0\x09\0\0\0\x01\0\0\0\x02\0\0\0\0\0\0\0\0\0\0\0\0\0\0\0\x03\0\0\0\0\0\0\0\
    \x01\0\0\0\x01\0\0\0\x01\0\0\0\x02\0\0\0\x03\0\0\0\x01f\0\0\0\x01\0\0\0\x01r\x08\x01\x01\
    \x01\x01\x01\x01\x01\x01\x01\x01\x01\x01\x01\x01\x01\x01\x01\x01\x01\x01\0\0\0\x01\x08\
    \x01\x01\x01\x01\x01\x01\x01\x01\x01\x01\x01\x01\x01\x01\x01\x01\x01\x01\x01\x01\0\0\0\
    \x03\0\0\0\x07\0\0\0\x01\0\0\0\x08\0\0\0\x01\0\0\0\x09\0\0\0\x02";

/// The first wait, in the second turn of a `for`.
static LOOP: &[u8] =
    b"K\x01\0\0\0\0\x17\0\0\0\x01\0\0\0\x01\0\0\0\0\0\0\0\x02\0\0\0\x01r\x08\x01\x01\x01\x01\
    \x01\x01\x01\x01\x01\x01\x01\x01\x01\x01\x01\x01\x01\x01\x01\x01\0\0\0\x01s\x03\0\0\0\0\
    \0\0\0\x01\0\0\0\x03\x05\0\0\0\x02\x03\0\0\0\0\0\0\0\x01\x08\x01\x01\x01\x01\x01\x01\x01\
    \x01\x01\x01\x01\x01\x01\x01\x01\x01\x01\x01\x01\x01\x03\0\0\0\0\0\0\0\x02\x08\x01\x01\
    \x01\x01\x01\x01\x01\x01\x01\x01\x01\x01\x01\x01\x01\x01\x01\x01\x01\x01\0\0\0\x06\0\0\0\
    \0\0\0\0\x02\0\0\0\x03\0\0\0\x02\0\0\0\x09\0\0\0\x01\0\0\0\x0e\0\0\0\x01\0\0\0\x0f\0\0\0\
    \x01\0\0\0\x10\0\0\0\x02";

/// Where it waits for its outputs.
static EXEC: &[u8] =
    b"K\x01\0\0\0\0\x08\0\0\0\x01\0\0\0\x01\0\0\0\0\0\0\0\0\0\0\0\x01\x05\0\0\0\x02\x08\x01\
    \x01\x01\x01\x01\x01\x01\x01\x01\x01\x01\x01\x01\x01\x01\x01\x01\x01\x01\x01\x08\x01\x01\
    \x01\x01\x01\x01\x01\x01\x01\x01\x01\x01\x01\x01\x01\x01\x01\x01\x01\x01\0\0\0\x03\0\0\0\
    \0\0\0\0\x01\0\0\0\x01\0\0\0\x01\0\0\0\x02\0\0\0\x04";

/// Where it waits for what a function makes, which it holds.
static FUNCTION: &[u8] =
    b"K\x01\0\0\0\0\x0a\0\0\0\x01\0\0\0\x01\0\0\0\0\0\0\0\x02\0\0\0\x01h\x0a\0\0\0\x02#0\0\0\0\
    \x01\0\0\0\x01k\x03\0\0\0\0\0\0\0\x01\0\0\0\x01k\x03\0\0\0\0\0\0\0\x01\0\0\0\x01\x08\x01\
    \x01\x01\x01\x01\x01\x01\x01\x01\x01\x01\x01\x01\x01\x01\x01\x01\x01\x01\x01\0\0\0\x03\0\
    \0\0\0\0\0\0\x03\0\0\0\x05\0\0\0\x01\0\0\0\x06\0\0\0\x02";

/// The start of that function.
static START: &[u8] =
    b"K\x01\0\0\0\0\0\0\0\0\0\0\0\0\x01\0\0\0\x02#0\0\0\0\x02\0\0\0\x01k\x03\0\0\0\0\0\0\0\x01\
    \0\0\0\x01x\x03\0\0\0\0\0\0\0\x01\0\0\0\0\0\0\0\x01\0\0\0\x0b\0\0\0\0";

/// The result at its first wave.
static SHOW: &[u8] =
    b"K\x01\x01\0\0\0\0\x08\x01\x01\x01\x01\x01\x01\x01\x01\x01\x01\x01\x01\x01\x01\x01\x01\
    \x01\x01\x01\x01";
