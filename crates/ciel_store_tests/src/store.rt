// The store: a block at its place, and a loss that is marked, seen and confirmed.

ghost use Rattle.std.specs.Prelude.{◌≡◌};
ghost use Rattle.ciel_store.specs.Seen.{IsPlaceOf};

use ciel_store::loss::Loss;
use ciel_store::seats::Eye;
use ciel_store::shelves::{Place, Shelves};
use std::test::Fail;

/// The block at a place, or the loss of its worker.
fn look(shelves: &Shelves<u32>, place: &Place<u32>, eye: &mut Eye) -> Result<u32, Loss>
    requires { IsPlaceOf shelves.now place.now × (eye.old.of ≡ shelves.now.of) }
    ensures { eye.new.of ≡ eye.old.of }
{
    match shelves.fetch(place, eye) {
        Ok(block) => Ok(*block),
        Err(gone) => Err(gone.loss),
    }
}

#[test]
fn a_loss_is_seen_once_it_is_marked(rt: HostRuntime) -> Result<(), Fail> {
    let (shelves, mut marker, mut eyes) = Shelves::<u32>::new(rt.alloc(), 2)?;
    let loss = Loss {
        number: 0,
        worker: 1,
    };
    let Ok(place) = shelves.put(&rt, 1, 7) else {
        return Err(Fail::from("memory"));
    };
    let again = place.share();
    assert_eq!(rt; again.worker(), 1);
    let eye = &mut eyes[0];
    assert!(rt; look(&shelves, &place, eye) == Ok(7));
    assert!(rt; look(&shelves, &again, eye) == Ok(7));
    shelves.mark_lost(&mut marker, loss);
    assert!(rt; look(&shelves, &place, eye) == Err(loss));
    assert!(rt; look(&shelves, &again, eye) == Err(loss));
    let seen = shelves.show(eye);
    shelves.confirm(&mut marker, seen);
    Ok(())
}
