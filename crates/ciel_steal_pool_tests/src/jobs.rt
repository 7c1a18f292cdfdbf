//! Jobs that go round in a pool, one more for each output that comes.

ghost use Rattle.std.specs.Prelude.{◌≡◌, ◌<◌, ◌≤◌, ◌*◌, [], ℕ, All, None, length};
ghost use Rattle.ciel_crew_lanes.specs.Seen.{IsOut, lane_at};

use ciel_crew_lanes::work::Work;
use ciel_steal_pool::pool::Pool;
use std::alloc::Global;
use std::sync::Wait;
use std::test::Fail;
use std::thread::Threads;

/// Doubles a number.
pub(crate) struct Doubles;

impl Work for Doubles {
    type In = u32;

    type Out = u64;

    ghost takes = { λ x. x < 1000000 };

    ghost fits = { λ x y. y ≡ 2 * x };

    fn work(job: u32) -> u64 {
        u64::from(job) * 2
    }
}

/// Lays the number of each worker but the first on its desk.
fn fill_others<R: Wait + Copy + Drop>(pool: &mut Pool<Doubles, R>, workers: u32)
    requires many { length pool.old ≡ workers }
    requires few { workers ≤ 64 }
    requires free { All (λ x. x ≡ record { put = []; out = None }) pool.old }
    ensures many { length pool.new ≡ workers }
    ensures first { (lane_at pool.new 0).out ≡ None }
{
    for worker in 1..workers {
        pool.put(worker, worker);
    }
}

/// Lays the number of each worker on its desk; none has a job before.
fn fill<R: Wait + Copy + Drop>(pool: &mut Pool<Doubles, R>, workers: u32)
    requires many { length pool.old ≡ workers }
    requires some { (0 < workers) × (workers ≤ 64) }
    requires free { All (λ x. x ≡ record { put = []; out = None }) pool.old }
    ensures out { IsOut pool.new }
{
    fill_others(pool, workers);
    pool.put(0, 0);
}

/// Takes an output, and lays another job on the desk that is free then.
fn pass_on<R: Wait + Copy + Drop>(pool: &mut Pool<Doubles, R>, job: u32) -> u64
    requires out { IsOut pool.old }
    requires job { job < 1000000 }
    ensures out { IsOut pool.new }
{
    let (worker, output) = pool.take();
    pool.put(worker, job);
    output
}

/// The outputs that come while the jobs from this one on are laid on desks.
fn outputs<R: Wait + Copy + Drop>(
    alloc: Global,
    pool: &mut Pool<Doubles, R>,
    from: u32,
    jobs: u32,
) -> Result<Vec<u64>, Fail>
    requires out { IsOut pool.old }
    requires jobs { jobs ≤ 1000000 }
{
    let mut found = Vec::new(alloc);
    for job in from..jobs {
        found.push(pass_on(pool, job))?;
    }
    Ok(found)
}

/// The outputs of so many jobs on so many workers over so many threads, those that come where the pool is closed at the end.
pub(crate) fn all_outputs<R: Threads + Wait + Copy + Send + Drop + 'static>(
    rt: R,
    alloc: Global,
    workers: u32,
    threads: u32,
    jobs: u32,
) -> Result<Vec<u64>, Fail>
    requires workers { (0 < workers) × (workers ≤ 64) }
    requires threads { threads ≤ 64 }
    requires jobs { jobs ≤ 1000000 }
{
    let mut pool = Pool::<Doubles, R>::open(rt, alloc, workers, threads)?;
    fill(&mut pool, workers);
    let mut found = outputs(alloc, &mut pool, workers, jobs)?;
    for (_, output) in pool.close() {
        found.push(output)?;
    }
    Ok(found)
}
