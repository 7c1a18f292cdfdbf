// Kept files: what no clause says, that the calls succeed with ample memory, and what the host does.

use ciel_io::host_keep::HostKeep;
use ciel_io::keep::Keep;
use ciel_io::mem_keep::{MemKeep, SureKeep};
use sky_base::text::Txt;
use std::alloc::Global;
use std::fs;
use std::test::Fail;

/// A path, whether the piece comes in the place of what stands there, the piece, and whether the call is to succeed.
type Row = (&'static str, bool, &'static str, bool);

// How many of the calls answered what they are to.
fn as_said<D: Keep>(alloc: Global, keep: &mut D, rows: &[Row]) -> Result<usize, Fail> {
    let mut right = 0usize;
    for (path, instead, piece, succeeds) in rows {
        let path = Txt::new(alloc, path)?;
        let answer = if *instead {
            keep.replace(&path, piece.as_bytes())
        } else {
            keep.append(&path, piece.as_bytes())
        };
        if answer.is_ok() == *succeeds {
            right = right.saturating_add(1);
        }
    }
    Ok(right)
}

static ROWS: [Row; 7] = [
    ("a", false, "one", true),
    ("b", true, "two", true),
    ("a", false, "four", false),
    ("b", true, "", true),
    ("a", false, "!", true),
    ("c", true, "seven", false),
    ("b", false, "eight", true),
];

fn is_at(file: Option<&[u8]>, text: &str) -> bool {
    match file {
        Some(bytes) => bytes == text.as_bytes(),
        None => false,
    }
}

// Whether it holds what the rows leave where the third and the sixth call put the first half of their piece.
fn holds_halves(alloc: Global, keep: &MemKeep) -> Result<bool, Fail> {
    Ok(
        is_at(keep.file(&Txt::new(alloc, "a")?), "onefo!")
            && is_at(keep.file(&Txt::new(alloc, "b")?), "eight")
            && is_at(keep.file(&Txt::new(alloc, "c")?), "se")
            && keep.file(&Txt::new(alloc, "d")?).is_none(),
    )
}

#[test]
fn kept_files_in_memory_that_fail(rt: HostRuntime) -> Result<(), Fail> {
    let alloc = rt.alloc();
    let mut fails = Vec::new(alloc);
    fails.push(3u32)?;
    fails.push(6u32)?;
    let mut keep = MemKeep::new(alloc, 100, fails)?;
    assert_eq!(&rt; as_said(alloc, &mut keep, ROWS.as_slice())?, 7);
    assert!(&rt; holds_halves(alloc, &keep)?);
    Ok(())
}

#[test]
fn kept_files_in_memory(rt: HostRuntime) -> Result<(), Fail> {
    let alloc = rt.alloc();
    let mut keep = SureKeep::new(alloc, 100)?;
    assert_eq!(&rt; as_said(alloc, &mut keep, ROWS.as_slice())?, 5);
    assert!(&rt; is_at(keep.file(&Txt::new(alloc, "a")?), "onefour!"));
    assert!(&rt; is_at(keep.file(&Txt::new(alloc, "b")?), "eight"));
    assert!(&rt; is_at(keep.file(&Txt::new(alloc, "c")?), "seven"));
    Ok(())
}

#[test]
fn kept_files_of_the_host(rt: HostRuntime) -> Result<(), Fail> {
    let alloc = rt.alloc();
    let mut keep = HostKeep::new(rt.clone()?);
    let rows = [
        ("log", false, "one", true),
        ("log", false, " two", true),
        (".", false, "three", false),
        (".", true, "four", false),
        ("other", true, "five", true),
        ("other", true, "6", true),
        ("other", true, "6 and 7", true),
        ("other", true, "6 and 7", true),
    ];
    assert_eq!(&rt; as_said(alloc, &mut keep, rows.as_slice())?, 8);
    assert!(&rt; fs::read(&rt, "log")?.as_slice() == b"one two".as_slice());
    assert!(&rt; fs::read(&rt, "other")?.as_slice() == b"6 and 7".as_slice());
    Ok(())
}
