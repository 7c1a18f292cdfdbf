// The rows.

use ciel_io::mem_sink::SureSink;
use ciel_master::entry::Entry;
use ciel_run_log::text::{put_hex, put_journal};
use hex::FromHex;
use sky_base::name::Name;
use sky_base::names::Names;
use std::alloc::Global;
use std::test::Fail;

// The name of the main call, and the mark of the number 3.
static MAIN: &str = "4f9331fa01faff9e8484f3c4e401e921b570166b";

static THREE: &str = "d93d7b84ebf05542d239733eaefa0478b995b4fe";

fn short(digits: &str) -> Result<[u8; 20], Fail> {
    let bytes = <[u8; 20] as FromHex>::from_hex(digits)?;
    Ok(bytes)
}

fn main_name() -> Result<Name, Fail> {
    let bytes = short(MAIN)?;
    Ok(Name::short(bytes))
}

// One entry of each kind that the journal of a sum lacks, which stands in rows/engine.toml: two copies, a saved wait, something missing with
// a loss, and a lost worker.
fn others(alloc: Global) -> Result<Vec<Entry>, Fail> {
    let mark = short(THREE)?;
    let mut copied = Names::new(alloc);
    copied.push(main_name()?)?;
    copied.push(Name::long([171; 32]))?;
    let mut journal = Vec::new(alloc);
    journal.push(Entry::Done {
        number: 7,
        made: Vec::new(alloc),
        copied,
    })?;
    journal.push(Entry::Saved {
        number: 18446744073709551615,
        j: 2,
        mark,
    })?;
    journal.push(Entry::Missed {
        number: 3,
        name: Name::long([0; 32]),
        lost: 4294967295,
    })?;
    journal.push(Entry::Lost {
        worker: 63,
        after: 10,
    })?;
    Ok(journal)
}

static OTHERS: &[u8] =
    b"done 7 +4f9331fa01faff9e8484f3c4e401e921b570166b +abababababababababababababababababababababababababababababababab
saved 18446744073709551615 2 d93d7b84ebf05542d239733eaefa0478b995b4fe
missed 3 0000000000000000000000000000000000000000000000000000000000000000 4294967295
lost 63 10
";

#[test]
fn each_kind_of_entry_has_its_line(rt: HostRuntime) -> Result<(), Fail> {
    let journal = others(rt.alloc())?;
    let mut log = SureSink::new(rt.alloc(), 400)?;
    let put = put_journal(journal.as_slice(), &mut log);
    assert!(&rt; put.is_ok());
    assert!(&rt; log.bytes() == OTHERS);
    Ok(())
}

#[test]
fn long_bytes_are_put_as_digits(rt: HostRuntime) -> Result<(), Fail> {
    let mut log = SureSink::new(rt.alloc(), 400)?;
    let put = put_hex(&mut log, &[15; 100]);
    assert!(&rt; put.is_ok());
    assert!(&rt; log.bytes().len() == 200);
    assert!(&rt; log.bytes().starts_with(b"0f0f0f"));
    Ok(())
}
