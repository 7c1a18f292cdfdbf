// The rows. What a line says is compared with a picture of it, so that each row is one text beside another.

use crate::pictures::{picture_of, words_of};
use std::alloc::Global;
use std::test::Fail;

// Words, and what they say: a bar stands between two words.
static LINES: [(&str, &str); 49] = [
    ("s", "s w1 s0 sha1"),
    ("--workers=2|s|--|a=x", "s a=x w2 s0 sha1"),
    ("--|--seed", "--seed w1 s0 sha1"),
    ("-|--|--|", "no line"),
    ("-|--|a==", "- a== w1 s0 sha1"),
    (
        "s|--seed|18446744073709551615",
        "s w1 s18446744073709551615 sha1",
    ),
    ("s|--seed=00000000000000000007", "s w1 s7 sha1"),
    ("s|--names=sha256|--trace", "s w1 s0 sha256 trace"),
    ("--names|sha1|s|--plain", "s w1 s0 sha1 plain"),
    (
        "s|--workers|64|--lose|0:63,4294967295:0",
        "s w64 s0 0:63 4294967295:0 sha1",
    ),
    ("s|--lose=5:0", "s w1 s0 5:0 sha1"),
    ("s|A9_.-=x|_=p/q=r", "s A9_.-=x _=p/q=r w1 s0 sha1"),
    ("--generate|4", "w1 s0 sha1 4 lines"),
    (
        "--generate=1000000|--workers|3|--lose=0:2",
        "w3 s0 0:2 sha1 1000000 lines",
    ),
    (
        "--trace|--plain|--generate|1|--names=sha256",
        "w1 s0 sha256 trace plain 1 lines",
    ),
    ("s|--log|a=b|--trace", "s w1 s0 sha1 trace log a=b"),
    ("--log=-|--|s", "s w1 s0 sha1 log -"),
    ("--log=--|--generate=2", "w1 s0 sha1 log -- 2 lines"),
    ("--log|-|s", "no line"),
    ("--log=-l|s", "s w1 s0 sha1 log -l"),
    ("s|--log=a|--plain", "no line"),
    ("--log|l|--|-", "- w1 s0 sha1 log l"),
    ("--resume=a|s|--trace", "s w1 s0 sha1 trace resume a"),
    ("--resume|--|--|s", "no line"),
    ("--generate=2|--resume|=", "w1 s0 sha1 resume = 2 lines"),
    ("s|--resume=|--seed=1", "no line"),
    ("s|--log=a|--resume=a", "no line"),
    ("s|--resume=a|--plain", "no line"),
    ("s|--resume=a|--resume=a", "no line"),
    ("--steal|2|s|--workers=5", "s w5 s0 sha1 steal 2"),
    (
        "--steal=64|--log=l|--generate=4",
        "w1 s0 sha1 log l steal 64 4 lines",
    ),
    ("s|--resume=l|--steal=1", "s w1 s0 sha1 resume l steal 1"),
    (
        "s|--stream|--workers=2|--log=l",
        "s w2 s0 sha1 log l stream",
    ),
    ("--generate=4|--stream", "w1 s0 sha1 stream 4 lines"),
    ("s|--stream|--plain", "no line"),
    ("s|--stream|--steal=2", "no line"),
    ("s|--stream|--stream", "no line"),
    ("s|--steal=0", "no line"),
    ("s|--steal=65", "no line"),
    ("s|--steal=2|--plain", "no line"),
    ("s|--steal=2|--steal=2", "no line"),
    ("s|--memo-new=m", "s w1 s0 sha1 memo-new m"),
    (
        "--memo|m|--steal=2|--generate=4",
        "w1 s0 sha1 steal 2 memo m 4 lines",
    ),
    ("s|--memo=", "no line"),
    ("s|--memo=a|--memo-new=b", "no line"),
    ("s|--memo=a|--plain", "no line"),
    ("s|--memo-new=a|--plain", "no line"),
    ("s|--memo=a|--stream", "no line"),
    ("s|--stream|--memo-new=a", "no line"),
];

// Whether the words of a row say what stands beside them.
fn says(alloc: Global, row: &str, want: &str) -> Result<bool, Fail> {
    let words = words_of(alloc, row)?;
    let picture = picture_of(alloc, words.as_slice())?;
    Ok(picture.as_str() == want)
}

#[test]
fn lines_say_what_stands_in_them(rt: HostRuntime) -> Result<(), Fail> {
    for (row, want) in &LINES {
        let said = says(rt.alloc(), row, want)?;
        assert!(&rt; said);
    }
    Ok(())
}
