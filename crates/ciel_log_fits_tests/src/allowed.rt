// Which descriptions and objects a job allows.

use crate::read::{desc, named, object};
use ciel_log_fits::allowed::Allowed;
use ciel_log_fits::descs::{all_allowed, is_allowed, is_allowed_object};
use sky_base::script::{Script, Texts};
use sky_base::text::Txt;
use sky_machine_numbers::code::number_script;
use sky_machine_test_scripts::script::script_over;
use std::alloc::Global;
use std::test::Fail;

// A script with a function `f` of one parameter, whose job has an input `k`.
fn job(alloc: Global) -> Result<Script, Fail> {
    let mut keys = Vec::new(alloc);
    keys.push(Txt::new(alloc, "k")?)?;
    script_over(
        alloc,
        "function f(x) { return x; } return 1;",
        Texts::of(keys),
    )
}

fn allows(alloc: Global, allowed: &Allowed, digits: &str) -> Result<bool, Fail> {
    let desc = desc(alloc, digits)?;
    let allows = is_allowed(allowed, &desc)?;
    Ok(allows)
}

fn allows_object(alloc: Global, allowed: &Allowed, digits: &str) -> Result<bool, Fail> {
    let object = object(alloc, digits)?;
    Ok(is_allowed_object(allowed, &object))
}

fn allows_both(alloc: Global, allowed: &Allowed, first: &str, second: &str) -> Result<bool, Fail> {
    let both = [named(alloc, first)?, named(alloc, second)?];
    let allows = all_allowed(allowed, &both)?;
    Ok(allows)
}

// What is asked of descriptions, of objects, or of the input with another description.
#[derive(Clone, Copy)]
enum Of {
    Desc,
    Object,
    Both,
}

static INPUT: &str = "49000000016B";

fn answer(alloc: Global, of: Of, digits: &str) -> Result<bool, Fail> {
    let script = job(alloc)?;
    let tables = number_script(alloc, &script)?;
    let numbered = tables.over(&script);
    let allowed = Allowed::new(alloc, numbered.code.program())?;
    match of {
        Of::Desc => allows(alloc, &allowed, digits),
        Of::Object => allows_object(alloc, &allowed, digits),
        Of::Both => allows_both(alloc, &allowed, INPUT, digits),
    }
}

// Calls: the main call, `f` of 3, `f` of nothing, `g` of nothing. Outputs of `cat`: the last of 64, the first of 65, one behind the last, one
// over the function `f`, one over a function `g`. The inputs `k` and `z`. Objects: bytes, a fault, the functions `f` and `g`.
#[test]
fn a_job_allows(rt: HostRuntime) -> Result<(), Fail> {
    let rows = [
        (Of::Desc, "430000000000000000", true),
        (Of::Desc, "43000000016600000001030000000000000003", true),
        (Of::Desc, "43000000016600000000", false),
        (Of::Desc, "43000000016700000000", false),
        (Of::Desc, "450000000363617400000000400000003F", true),
        (Of::Desc, "4500000003636174000000004100000000", false),
        (Of::Desc, "4500000003636174000000000100000001", false),
        (
            Of::Desc,
            "45000000036361740700000001660000000100000000",
            true,
        ),
        (
            Of::Desc,
            "45000000036361740700000001670000000100000000",
            false,
        ),
        (Of::Desc, INPUT, true),
        (Of::Desc, "49000000017A", false),
        (Of::Object, "426162", true),
        (Of::Object, "46030000000100000018", true),
        (Of::Object, "44070000000166", true),
        (Of::Object, "44070000000167", false),
        (Of::Both, "430000000000000000", true),
        (Of::Both, "43000000016700000000", false),
    ];
    for (of, digits, allows) in rows {
        assert_eq!(&rt; answer(rt.alloc(), of, digits)?, allows);
    }
    Ok(())
}
