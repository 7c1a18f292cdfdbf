// A crew with a log, and one order that is sent.

ghost use Rattle.std.specs.Prelude.{◌≡◌, ◌≤◌, IfOk, None};
ghost use Rattle.std.specs.Arc.{arc_value};
ghost use Rattle.ciel_log_tests.specs.Small.{CanPerform, IsSmall};

use crate::deaf::Deaf;
use crate::made::{LineShop, open, order};
use ciel_io::mem_keep::SureKeep;
use ciel_log::logged::{Closed, Logged};
use ciel_log::state::LogState;
use ciel_store::seats::Eye;
use ciel_task_crew::crew::Crew;
use ciel_task_order::order::Order;
use hex::encode_upper;
use sky_base::text::Txt;
use std::alloc::Global;
use std::sync::Arc;
use std::test::Fail;

// What a crew with a log is made of, and an order for it.
struct Parts {
    path: Txt,
    inner: Deaf,
    shop: Arc<LineShop, Global>,
    eye: Eye,
    order: Order,
}

fn ready(alloc: Global) -> Result<Parts, Fail>
    ensures shop { IfOk result (λ r. arc_value r.inner.shop ≡ arc_value r.shop) }
    ensures free { IfOk result (λ r. r.inner.sent ≡ None) }
    ensures eye { IfOk result (λ r. r.eye.of ≡ (arc_value r.shop).shelves.of) }
    ensures small { IfOk result (λ r. IsSmall (arc_value r.shop)) }
    ensures order { IfOk result (λ r. CanPerform (arc_value r.shop) r.order) }
    ensures worker { IfOk result (λ r. r.order.worker ≡ 0) }
{
    let path = Txt::new(alloc, "l")?;
    let (shop, eye) = open(alloc)?;
    let order = order(alloc, &shop)?;
    let inner = Deaf {
        alloc,
        shop: Arc::try_clone(&shop)?,
        sent: None,
    };
    Ok(Parts {
        path,
        inner,
        shop,
        eye,
        order,
    })
}

// How the log at the path "l" stands where it has so many bytes and one order is sent; none where that was refused.
fn after_one_order(alloc: Global, keep: &mut SureKeep, held: u64) -> Result<Option<LogState>, Fail>
    requires { held ≤ 268435456 }
{
    let Parts {
        path,
        inner,
        shop,
        eye,
        order,
    } = ready(alloc)?;
    let mut logged = Logged::open(alloc, inner, shop, eye, keep, path, held);
    let sent = logged.send(order);
    let Closed {
        inner: _,
        keep: _,
        state,
    } = logged.into_parts();
    match sent {
        Ok(()) => Ok(Some(state)),
        Err(_) => Ok(None),
    }
}

#[test]
fn a_full_log_takes_no_record(rt: HostRuntime) -> Result<(), Fail> {
    let mut keep = SureKeep::new(rt.alloc(), 100)?;
    let state = after_one_order(rt.alloc(), &mut keep, 268_435_456)?;
    assert!(&rt; state == Some(LogState::Full { held: 268_435_456 }));
    assert!(&rt; keep.file(&Txt::new(rt.alloc(), "l")?).is_none());
    Ok(())
}

// Whether these bytes, in hexadecimal digits, stand at the path "l".
fn stands(alloc: Global, keep: &SureKeep, expected: &str) -> Result<bool, Fail> {
    let path = Txt::new(alloc, "l")?;
    match keep.file(&path) {
        Some(file) => {
            let digits = encode_upper(alloc, file)?;
            Ok(digits.as_str() == expected)
        }
        None => Ok(false),
    }
}

#[test]
fn a_record_just_fits(rt: HostRuntime) -> Result<(), Fail> {
    let mut keep = SureKeep::new(rt.alloc(), 100)?;
    let state = after_one_order(rt.alloc(), &mut keep, 268_435_434)?;
    assert!(&rt; state == Some(LogState::Whole));
    let file = "00000012530000000000000005000000000000000000";
    assert!(&rt; stands(rt.alloc(), &keep, file)?);
    Ok(())
}

#[test]
fn a_record_is_one_byte_too_long(rt: HostRuntime) -> Result<(), Fail> {
    let mut keep = SureKeep::new(rt.alloc(), 100)?;
    let state = after_one_order(rt.alloc(), &mut keep, 268_435_435)?;
    assert!(&rt; state == Some(LogState::Full { held: 268_435_435 }));
    Ok(())
}
