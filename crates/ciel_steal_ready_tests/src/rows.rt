//! What no clause says: that a job is found, and by whom.

use ciel_steal_ready::ready::{Ready, Seat};
use std::alloc::Global;
use std::sync::Wait;
use std::test::Fail;

fn next_of(rt: &impl Wait, seats: &mut Vec<Seat<u32>>, at: usize) -> Option<u32> {
    match seats.get_mut(at) {
        Some(seat) => seat.take(rt),
        None => None,
    }
}

fn put_three(rt: &impl Wait, ready: &mut Ready<u32>) -> Result<(), Fail> {
    for job in 1..4 {
        if ready.put(rt, job).is_err() {
            return Err(Fail::from("no memory"));
        }
    }
    Ok(())
}

#[test]
fn two_seats_in_turn_find_each_job_once(rt: HostRuntime) -> Result<(), Fail> {
    let (mut ready, mut seats) = Ready::<u32>::open(rt.alloc(), 2)?;
    put_three(&rt, &mut ready)?;
    let mut found = Vec::new(rt.alloc());
    let mut none = false;
    for turn in 0..20u32 {
        match next_of(&rt, &mut seats, (turn % 2) as usize) {
            Some(job) => {
                none = false;
                found.push(job)?;
            }
            None => {
                if none {
                    break;
                }
                none = true;
            }
        }
    }
    found.sort()?;
    assert_eq!(rt; found.as_slice(), [1, 2, 3].as_slice());
    Ok(())
}

#[test]
fn what_one_seat_fetched_another_steals(rt: HostRuntime) -> Result<(), Fail> {
    let (mut ready, mut seats) = Ready::<u32>::open(rt.alloc(), 2)?;
    put_three(&rt, &mut ready)?;
    assert_eq!(rt; next_of(&rt, &mut seats, 0), Some(1));
    let mut found = Vec::new(rt.alloc());
    for _ in 0..20u32 {
        match next_of(&rt, &mut seats, 1) {
            Some(job) => found.push(job)?,
            None => break,
        }
    }
    // a batch takes about half: 2 was fetched with 1, and 3 still lay in the shared queue
    assert_eq!(rt; found.as_slice(), [3, 2].as_slice());
    assert_eq!(rt; next_of(&rt, &mut seats, 0), None);
    Ok(())
}
