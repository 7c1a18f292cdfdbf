// Which names have rows once a call is learned, in a table that has the main call's.

use crate::read::{name, named, object};
use ciel_log_fits::known::KnownAfter;
use ciel_name::name::Sha1Namer;
use ciel_table::table::Table;
use ciel_table_tests::made::Spot;
use sky_base::object::Named;
use std::alloc::Global;
use std::test::Fail;

static MAIN: &str = "430000000000000000";

static CALL: &str = "43000000016600000001030000000000000003";

// A call that is neither learned nor to be learned.
static OTHER: &str = "43000000016600000001030000000000000004";

// The table with the main call's row.
fn table(alloc: Global) -> Result<Table<Spot>, Fail> {
    let mut table = Table::open(alloc, 8)?;
    let main = named(alloc, MAIN)?;
    match table.learn(&main, &Sha1Namer) {
        Ok(_) => Ok(table),
        Err(_) => Err(Fail::from("it isn't learned")),
    }
}

// Whether these two names have rows once the call is learned.
fn has_both(alloc: Global, first: &str, second: &str) -> Result<bool, Fail> {
    let table = table(alloc)?;
    let spawned = [named(alloc, CALL)?];
    let after = KnownAfter::new(alloc, &table, &spawned)?;
    let names = [name(alloc, first)?, name(alloc, second)?];
    Ok(after.has_all(&names))
}

#[test]
fn names_have_rows_then(rt: HostRuntime) -> Result<(), Fail> {
    let rows = [
        (MAIN, CALL, true),
        (CALL, CALL, true),
        (MAIN, OTHER, false),
        (OTHER, CALL, false),
    ];
    for (first, second, known) in rows {
        assert_eq!(&rt; has_both(rt.alloc(), first, second)?, known);
    }
    Ok(())
}

// Whether each name in an object has a row then.
fn has_all_in(alloc: Global, digits: &str) -> Result<bool, Fail> {
    let table = table(alloc)?;
    let spawned = [named(alloc, CALL)?];
    let after = KnownAfter::new(alloc, &table, &spawned)?;
    let object = object(alloc, digits)?;
    Ok(after.has_all_of(&object))
}

// A list of a number and a reference to the call; a reference to what has no row; bytes.
#[test]
fn objects_have_names_with_rows(rt: HostRuntime) -> Result<(), Fail> {
    let rows = [
        (
            "440500000002030000000000000003088b8da0234054f14c1d73c6546cc3b0eac8a0c01d",
            true,
        ),
        ("44080101010101010101010101010101010101010101", false),
        ("426162", true),
    ];
    for (digits, known) in rows {
        assert_eq!(&rt; has_all_in(rt.alloc(), digits)?, known);
    }
    Ok(())
}

// Whether each name inside two descriptions has a row once both are learned.
fn closes(alloc: Global, first: Named, second: Named) -> Result<bool, Fail> {
    let table = table(alloc)?;
    let spawned = [first, second];
    let after = KnownAfter::new(alloc, &table, &spawned)?;
    Ok(after.is_closed())
}

// A call over the call of `f` with 3, beside that and beside the main call.
#[test]
fn what_was_spawned_is_closed(rt: HostRuntime) -> Result<(), Fail> {
    static OVER: &str = "43000000016600000001088b8da0234054f14c1d73c6546cc3b0eac8a0c01d";
    let alloc = rt.alloc();
    assert!(&rt; closes(alloc, named(alloc, OVER)?, named(alloc, CALL)?)?);
    assert!(&rt; !closes(alloc, named(alloc, OVER)?, named(alloc, MAIN)?)?);
    Ok(())
}
