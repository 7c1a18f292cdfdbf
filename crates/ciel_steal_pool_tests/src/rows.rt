//! Each job's output comes once.

ghost use Rattle.std.specs.Prelude.{◌<◌, ◌≤◌};

use crate::jobs::all_outputs;
use std::alloc::Global;
use std::process::Abort;
use std::sync::Wait;
use std::test::Fail;
use std::thread::Threads;

// Whether these are twice the numbers below this one, in order.
fn are_doubles(found: &[u64], jobs: u32) -> bool {
    let mut wanted = 0u64;
    for output in found {
        if *output != wanted {
            return false;
        }
        wanted = wanted.saturating_add(2);
    }
    wanted == u64::from(jobs) * 2
}

fn each_once<R: Abort + Threads + Wait + Copy + Send + Drop + 'static>(
    rt: R,
    alloc: Global,
    workers: u32,
    threads: u32,
    jobs: u32,
) -> Result<(), Fail>
    requires workers { (0 < workers) × (workers ≤ 64) }
    requires threads { threads ≤ 64 }
    requires jobs { jobs ≤ 1000000 }
{
    let mut found = all_outputs(rt, alloc, workers, threads, jobs)?;
    found.sort()?;
    assert!(rt; are_doubles(found.as_slice(), jobs));
    Ok(())
}

#[test]
fn five_workers_share_two_threads(rt: HostRuntime) -> Result<(), Fail> {
    each_once(rt, rt.alloc(), 5, 2, 1_000)
}

#[test]
fn sixty_four_workers_share_eight_threads(rt: HostRuntime) -> Result<(), Fail> {
    each_once(rt, rt.alloc(), 64, 8, 10_000)
}

#[test]
fn one_worker_has_sixty_four_threads(rt: HostRuntime) -> Result<(), Fail> {
    each_once(rt, rt.alloc(), 1, 64, 100)
}

#[test]
fn with_no_thread_the_caller_works(rt: HostRuntime) -> Result<(), Fail> {
    each_once(rt, rt.alloc(), 3, 0, 100)
}
