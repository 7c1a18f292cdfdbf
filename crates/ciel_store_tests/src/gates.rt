// Gates: a list that is told while its room lasts, and two that meet.

use ciel_gate::gate::Gate;
use ciel_gate::meeting::Meeting;
use ciel_gate::open::Open;
use ciel_gate::recorder::Recorder;
use sky_base::name::Name;
use sky_base::object::TaskId;
use std::test::Fail;
use std::thread;

fn task(byte: u8) -> TaskId {
    TaskId::Of(Name::short([byte; 20]))
}

/// Enters and leaves, through the bound alone.
fn perform<G: Gate>(gate: &mut G, task: &TaskId) {
    gate.enter(task);
    gate.leave(task);
}

/// Whether these are the task of byte 1 and the root task.
fn are_told(tasks: &[TaskId]) -> bool {
    match tasks {
        [one, two] => *one == task(1) && *two == TaskId::Show,
        _ => false,
    }
}

#[test]
fn a_recorder_tells_the_tasks_entered(rt: HostRuntime) -> Result<(), Fail> {
    let mut gate = Recorder::new(rt.alloc(), 2)?;
    perform(&mut gate, &task(1));
    perform(&mut gate, &TaskId::Show);
    assert!(rt; are_told(gate.tasks()));
    perform(&mut gate, &task(1));
    perform(&mut Open, &task(1));
    Ok(())
}

#[test]
fn two_threads_meet(rt: HostRuntime) -> Result<(), Fail> {
    let (mut one, mut two) = Meeting::pair(rt.alloc(), task(1), task(2), 100_000_000)?;
    thread::join(&rt, || one.enter(&task(1)), || two.enter(&task(2)));
    assert!(rt; one.met() && two.met());
    Ok(())
}

#[test]
fn one_thread_meets_once(rt: HostRuntime) -> Result<(), Fail> {
    let (mut one, mut two) = Meeting::pair(rt.alloc(), task(1), task(2), 10)?;
    one.enter(&task(1));
    two.enter(&task(2));
    two.enter(&TaskId::Show);
    assert!(rt; !one.met() && two.met());
    Ok(())
}
