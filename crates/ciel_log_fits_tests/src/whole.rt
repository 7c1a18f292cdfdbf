// Whether outputs stand with all outputs of their tasks.

use crate::read::named;
use ciel_log_fits::whole::stands_whole;
use std::alloc::Global;
use std::test::Fail;

// Of two descriptions.
fn both(alloc: Global, first: &str, second: &str) -> Result<bool, Fail> {
    let spawned = [named(alloc, first)?, named(alloc, second)?];
    let whole = stands_whole(alloc, &spawned)?;
    Ok(whole)
}

// The two outputs of `cat`, in both orders; one of them twice; one of them beside an input, and one beside the main call; the one output of
// another `cat` beside an input; an index that is none; two inputs.
#[test]
fn outputs_stand_whole(rt: HostRuntime) -> Result<(), Fail> {
    static FIRST: &str = "4500000003636174000000000200000000";
    static SECOND: &str = "4500000003636174000000000200000001";
    static ALONE: &str = "4500000003636174000000000100000000";
    static NONE: &str = "4500000003636174000000000200000002";
    static INPUT: &str = "49000000016B";
    static MAIN: &str = "430000000000000000";
    let rows = [
        (FIRST, SECOND, true),
        (SECOND, FIRST, true),
        (FIRST, FIRST, false),
        (SECOND, INPUT, false),
        (MAIN, FIRST, false),
        (ALONE, INPUT, true),
        (NONE, INPUT, false),
        (INPUT, INPUT, true),
    ];
    for (first, second, whole) in rows {
        assert_eq!(&rt; both(rt.alloc(), first, second)?, whole);
    }
    Ok(())
}
