// Names of descriptions, and of what tasks make.

use crate::read::{bytes, desc};
use ciel_log_fits::names::{name_all, output_names};
use ciel_name::name::Sha1Namer;
use sky_base::names::Names;
use std::alloc::Global;
use std::process::Abort;
use std::test::Fail;

// Whether the names are those of these digits, in order.
fn are(alloc: Global, names: &Names, digits: &[&str]) -> Result<bool, Fail> {
    let mut same = names.len() as usize == digits.len();
    for (name, digits) in names.as_slice().iter().zip(digits) {
        let bytes = bytes(alloc, digits)?;
        same = same && name.bytes() == bytes.as_slice();
    }
    Ok(same)
}

fn makes(alloc: Global, task: &str, digits: &[&str]) -> Result<bool, Fail> {
    let desc = Some(desc(alloc, task)?);
    let names = output_names(alloc, &Sha1Namer, &desc)?;
    are(alloc, &names, digits)
}

// A call makes what it is the description of; an executor its two outputs, by whichever it goes; an input nothing.
#[test]
fn tasks_make(rt: HostRuntime) -> Result<(), Fail> {
    static CALL: &str = "8b8da0234054f14c1d73c6546cc3b0eac8a0c01d";
    static FIRST: &str = "7e69844748143a83d6cfb677c7a51b5c34b43353";
    static SECOND: &str = "2ebf12a6c5ccaa4f684cadd381dc74f8155909a1";
    assert!(&rt;
        makes(
            rt.alloc(),
            "43000000016600000001030000000000000003",
            &[CALL]
        )?
    );
    assert!(&rt;
        makes(
            rt.alloc(),
            "4500000003636174000000000200000001",
            &[FIRST, SECOND]
        )?
    );
    assert!(&rt; makes(rt.alloc(), "49000000016B", &[])?);
    Ok(())
}

#[test]
fn the_root_task_makes_nothing(rt: HostRuntime) -> Result<(), Fail> {
    let names = output_names(rt.alloc(), &Sha1Namer, &None)?;
    assert_eq!(&rt; names.len(), 0);
    Ok(())
}

fn has_name(rt: &impl Abort, alloc: Global, task: &str, digits: &str) -> Result<(), Fail> {
    let one = [desc(alloc, task)?];
    let named = name_all(alloc, &Sha1Namer, &one)?;
    let bytes = bytes(alloc, digits)?;
    assert_eq!(rt; named.len(), 1);
    for named in &named {
        assert!(rt; named.name.bytes() == bytes.as_slice());
    }
    Ok(())
}

#[test]
fn descriptions_have_names(rt: HostRuntime) -> Result<(), Fail> {
    has_name(
        &rt,
        rt.alloc(),
        "43000000016600000001030000000000000003",
        "8b8da0234054f14c1d73c6546cc3b0eac8a0c01d",
    )?;
    has_name(
        &rt,
        rt.alloc(),
        "4500000003636174000000000200000001",
        "2ebf12a6c5ccaa4f684cadd381dc74f8155909a1",
    )
}
