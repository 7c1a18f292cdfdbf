// Which tasks can wait.

use crate::read::desc;
use ciel_log_fits::given::can_wait;
use sky_base::name::Name;
use sky_base::object::{Desc1, TaskId};
use std::test::Fail;

fn waits(desc: Option<Desc1>) -> bool {
    can_wait(&TaskId::Of(Name::short([5; 20])), &desc)
}

// The root task, and that of a call; not that of an executor, and not one without a description.
#[test]
fn tasks_can_wait(rt: HostRuntime) -> Result<(), Fail> {
    assert!(&rt; can_wait(&TaskId::Show, &None));
    assert!(&rt; waits(Some(desc(rt.alloc(), "430000000000000000")?)));
    assert!(&rt; !waits(Some(desc(rt.alloc(), "4500000003636174000000000200000001")?)));
    assert!(&rt; !waits(None));
    Ok(())
}
