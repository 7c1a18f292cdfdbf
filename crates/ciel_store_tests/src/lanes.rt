// Desks and lanes over a work that doubles a number.

ghost use Rattle.std.specs.Prelude.{◌≡◌, ◌<◌, ◌≤◌, ◌*◌, ◌/◌, ◌^◌, length, IfOk, IfErr};
ghost use Rattle.ciel_crew_lanes.specs.Seen.{LaneSeen};

use ciel_crew_lanes::bells::bells;
use ciel_crew_lanes::desk::Desk;
use ciel_crew_lanes::lanes::Lanes;
use ciel_crew_lanes::work::Work;
use std::alloc::Global;
use std::process::Abort;
use std::sync::Wait;
use std::test::Fail;

// Doubles a number.
struct Doubles;

impl Work for Doubles {
    type In = u32;

    type Out = u64;

    ghost takes = { λ x. x < 1000000 };

    ghost fits = { λ x y. y ≡ 2 * x };

    fn work(job: u32) -> u64 {
        u64::from(job) * 2
    }
}

#[test]
fn a_desk_hands_a_job_and_its_output_over(rt: HostRuntime) -> Result<(), Fail> {
    let (mut desk, mut chair) = Desk::<Doubles>::pair(rt.alloc())?;
    desk.put(&rt, 3);
    assert!(rt; chair.work_one(&rt));
    assert_eq!(rt; desk.take(&rt), Some(6));
    Ok(())
}

#[test]
fn a_job_taken_back_is_still_out(rt: HostRuntime) -> Result<(), Fail> {
    let (mut desk, mut chair) = Desk::<Doubles>::pair(rt.alloc())?;
    desk.put(&rt, 4);
    let none = desk.take(&rt);
    assert_eq!(rt; none, None);
    assert!(rt; chair.work_one(&rt));
    assert_eq!(rt; desk.take(&rt), Some(8));
    Ok(())
}

#[test]
fn bells_of_two_ringers_are_heard(rt: HostRuntime) -> Result<(), Fail> {
    let (mut ringer, mut listener) = bells::<u32>(rt.alloc(), 2)?;
    let mut other = ringer.again()?;
    ringer.ring(&rt, 7);
    other.ring(&rt, 8);
    assert_eq!(rt; listener.hear(&rt), 7);
    assert_eq!(rt; listener.hear(&rt), 8);
    Ok(())
}

#[test]
fn lanes_give_each_output_once(rt: HostRuntime) -> Result<(), Fail> {
    let mut lanes = Lanes::<Doubles, HostRuntime>::open(rt, rt.alloc(), 2)?;
    lanes.put(0, 5);
    lanes.put(1, 6);
    let (first, ten_or_twelve) = lanes.take();
    assert_eq!(rt; ten_or_twelve, if first == 0 { 10 } else { 12 });
    let left = lanes.close();
    let (second, other) = match left.as_slice() {
        [one] => *one,
        _ => return Err(Fail::from("not one output")),
    };
    assert!(rt; first + second == 1);
    assert_eq!(rt; other, if second == 0 { 10 } else { 12 });
    Ok(())
}

// Each lane has a thread of its own here, and an output is taken at the lane that is named, whichever is done first.
#[test]
fn an_output_is_taken_at_its_lane(rt: HostRuntime) -> Result<(), Fail> {
    let mut lanes = Lanes::<Doubles, HostRuntime>::open(rt, rt.alloc(), 2)?;
    let beside = lanes.runs_beside(0) && lanes.runs_beside(1);
    lanes.put(0, 5);
    lanes.put(1, 6);
    let twelve = lanes.take_at(1);
    let ten = lanes.take_at(0);
    assert!(rt; beside);
    assert_eq!(rt; twelve, 12);
    assert_eq!(rt; ten, 10);
    Ok(())
}

// A lane whose output was taken takes another job, and what is out at the end comes back at its lane.
#[test]
fn a_lane_is_used_again(rt: HostRuntime) -> Result<(), Fail> {
    let mut lanes = Lanes::<Doubles, HostRuntime>::open(rt, rt.alloc(), 1)?;
    lanes.put(0, 5);
    let ten = lanes.take_at(0);
    lanes.put(0, 7);
    let left = lanes.close();
    assert_eq!(rt; ten, 10);
    assert!(rt; left.as_slice() == [(0, 14)].as_slice());
    Ok(())
}
