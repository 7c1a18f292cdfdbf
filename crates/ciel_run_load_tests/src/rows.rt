// The rows.

use ciel_run_load::lines::generate;
use std::test::Fail;

/// So many lines, and their bytes.
static LINES: [(u32, &[u8]); 3] = [(0, b""), (1, b"w38\n"), (4, b"w38\nw58\nw13\nw15\n")];

#[test]
fn lines_are_generated(rt: HostRuntime) -> Result<(), Fail> {
    for (count, want) in &LINES {
        let lines = generate(rt.alloc(), *count)?;
        assert!(&rt; lines.as_slice() == *want);
    }
    Ok(())
}

#[test]
fn many_lines_are_generated(rt: HostRuntime) -> Result<(), Fail> {
    let lines = generate(rt.alloc(), 1_000)?;
    let bytes = lines.as_slice();
    assert!(&rt; bytes.len() == 3_905);
    Ok(())
}
