//! The pool: workers, each with its desk, and the threads that they share.

ghost use Rattle.std.specs.Prelude.{◌≡◌, ◌<◌, ◌≤◌, ◌++◌, ◌∷◌, [], ℕ, List, Some, None, length, slice_set, All, IfOk, IsNone, IsSomeAnd, MatchOption};
ghost use Rattle.std.specs.Prelude.{◌^◌, ◌+◌, vec_capacity, vec_len};
ghost use Rattle.ciel_crew_lanes.specs.Seen.{LaneSeen, IsOut, HasTaken, Closes, lane_at};

use crate::hall::Hall;
use crate::place::Place;
use crate::serve::{Bell, Post, serve};
use ciel_crew_lanes::bells::{Listener, Ringer, bells, bells_of};
use ciel_crew_lanes::desk::{Chair, Desk};
use ciel_crew_lanes::work::Work;
use ciel_steal_ready::ready::{Ready, Seat};
use std::alloc::{AllocError, Global};
use std::marker::Model;
use std::sync::{Arc, Mutex, Wait};
use std::thread;
use std::thread::{JoinHandle, Threads};

/// Workers that share a few threads. Contracts see for each worker the jobs that were put, and the one that is out.
#[derive(Drop)]
pub struct Pool<W: Work, R: Drop> {
    rt: R,
    places: Vec<Place<W>>,
    hall: Hall<W>,
    threads: Vec<JoinHandle<()>>,
    done: Vec<(u32, W::Out)>,
}

impl<W: Work, R: Drop> Model for Pool<W, R> {
    ghost Value = { List (LaneSeen W.In) };

    ghost view = { λ l. l.places.items };

    ghost invariant = { λ l. (l.done.items ≡ []) × (length l.places.items ≤ vec_capacity l.done) × (length l.places.items < 2 ^ 32) };
}

// A worker with a job out whose number is here.
fn own<W: Work>(places: &Vec<Place<W>>) -> Option<u32> {
    for (at, place) in places.iter().enumerate() {
        if place.is_out() && place.is_here() {
            return u32::try_from(at).ok();
        }
    }
    None
}

// The next worker at whose chair somebody worked comes back to its place.
fn welcome<W: Work, R: Wait>(rt: &R, places: &mut Vec<Place<W>>, hall: &mut Hall<W>) -> u32
    ensures same { places.new.items ≡ places.old.items }
{
    let worker = hall.next(rt);
    if (worker as usize) < places.len() {
        places[worker as usize].lay(true);
    }
    worker
}

// The number of a worker goes out, or stays where there is no memory.
fn send_out<W: Work, R: Wait>(rt: &R, places: &mut Vec<Place<W>>, hall: &mut Hall<W>, worker: u32)
    requires worker { worker < length places.old.items }
    ensures same { places.new.items ≡ places.old.items }
{
    let is_here = !hall.send_out(rt, worker);
    places[worker as usize].lay(is_here);
}

// The next output. A worker with no job out is passed over; where the job came back, its number and a bell go out again.
fn take_one<W: Work, R: Wait>(
    rt: &R,
    places: &mut Vec<Place<W>>,
    hall: &mut Hall<W>,
) -> (u32, W::Out)
    requires out { IsOut places.old.items }
    ensures taken { HasTaken W.fits places.old.items result.0 result.1 places.new.items }
{
    for _ in rt.forever() {
        let at = match own(places) {
            Some(at) => {
                hall.work(rt, at as usize);
                at
            }
            None => welcome(rt, places, hall),
        };
        if (at as usize) < places.len() && places[at as usize].is_out() {
            if let Some(output) = places[at as usize].take(rt) {
                return (at, output);
            }
            send_out(rt, places, hall, at);
        }
    }
    unreachable!()
}

// The output of one worker, where it has a job out. Others that come back are laid at their places.
fn last_of<W: Work, R: Wait>(
    rt: &R,
    places: &mut Vec<Place<W>>,
    hall: &mut Hall<W>,
    at: usize,
) -> Option<W::Out>
    requires there { at < length places.old.items }
    ensures output { MatchOption (lane_at places.old.items at).out (IsNone result) (λ job. IsSomeAnd result (λ x. W.fits job x)) }
    ensures others { places.new.items ≡ slice_set places.old.items at record { put = (lane_at places.old.items at).put; out = None } }
{
    if !places[at].is_out() {
        return None;
    }
    for _ in rt.forever() {
        if !places[at].is_here() {
            let _ = welcome(rt, places, hall);
        } else {
            hall.work(rt, at);
            let output = places[at].take(rt);
            if output.is_some() {
                return output;
            }
        }
    }
    unreachable!()
}

// Keeps an output, if there is one.
fn note<O: Drop>(done: &mut Vec<(u32, O)>, at: u32, output: Option<O>)
    requires { vec_len done.old < vec_capacity done.old }
    ensures items { MatchOption output (done.new.items ≡ done.old.items) (λ x. done.new.items ≡ done.old.items ++ (at, x) ∷ []) }
    ensures capacity { vec_capacity done.new ≡ vec_capacity done.old }
{
    if let Some(output) = output {
        done.push_reserved((at, output));
    }
}

impl<W: Work, R: Wait + Copy + Drop> Pool<W, R> {
    /// Puts a job on the desk of a worker that has none out, and its number among the ready ones. Where there is no memory for that the
    /// number stays here, and `take` or `close` works at its chair.
    pub fn put(&mut self, lane: u32, job: W::In)
        requires lane { lane < length self.old }
        requires none { (lane_at self.old lane).out ≡ None }
        requires takes { W.takes job }
        ensures put { self.new ≡ slice_set self.old lane record { put = (lane_at self.old lane).put ++ job ∷ []; out = Some job } }
    {
        let rt = self.rt;
        self.places[lane as usize].put(&rt, job);
        send_out(&rt, &mut self.places, &mut self.hall, lane);
    }

    /// An output of a worker that has a job out, with its number, whose job is then no longer out. It waits for one.
    pub fn take(&mut self) -> (u32, W::Out)
        requires out { IsOut self.old }
        ensures taken { HasTaken W.fits self.old result.0 result.1 self.new }
    {
        let rt = self.rt;
        take_one(&rt, &mut self.places, &mut self.hall)
    }
}

// Rings one last bell for each thread, and waits for them.
fn dismiss<R: Threads + Wait>(rt: &R, bell: &mut Ringer<Bell>, threads: Vec<JoinHandle<()>>) {
    for _ in 0..threads.len() {
        bell.ring(rt, Bell::Last);
    }
    for thread in threads {
        let _ = thread.join(rt);
    }
}

impl<W: Work, R: Threads + Wait + Drop> Pool<W, R> {
    /// Ends all workers. For each with a job out, in order, its number and an output that fits that job; no other stands in the list. It
    /// waits for the outputs and for the threads, and takes no memory.
    pub fn close(self) -> Vec<(u32, W::Out)>
        ensures closes { Closes W.fits 0 self result.items }
    {
        let Pool {
            rt,
            mut places,
            mut hall,
            threads,
            mut done,
        } = self;
        for at in 0..places.len() {
            let output = last_of(&rt, &mut places, &mut hall, at);
            note(&mut done, at as u32, output);
        }
        dismiss(&rt, &mut hall.bell, threads);
        done
    }
}

// The two sides of all workers: their places, and their chairs.
#[derive(Drop)]
struct Sides<W: Work> {
    places: Vec<Place<W>>,
    chairs: Vec<Mutex<Chair<W>>>,
}

// The two sides of a worker.
fn side_of<W: Work>(alloc: Global) -> Result<(Place<W>, Chair<W>), AllocError>
    ensures fresh { IfOk result (λ r. r.0 ≡ record { put = []; out = None }) }
{
    let (desk, chair) = Desk::<W>::pair(alloc)?;
    let place = Place {
        desk,
        is_out: false,
        is_here: true,
    };
    Ok((place, chair))
}

// So many workers.
fn sides_of<W: Work>(alloc: Global, workers: u32) -> Result<Sides<W>, AllocError>
    ensures many { IfOk result (λ v. length v.places.items ≡ workers) }
    ensures fresh { IfOk result (λ v. All (λ x. x ≡ record { put = []; out = None }) v.places.items) }
{
    let mut places = Vec::new(alloc);
    let mut chairs = Vec::new(alloc);
    for _ in 0..workers {
        let (place, chair) = side_of::<W>(alloc)?;
        places.push(place)?;
        chairs.push(Mutex::new(chair))?;
    }
    Ok(Sides { places, chairs })
}

// What each thread is given: a seat, an end that hears bells, one that rings for what comes back, and the chairs.
fn posts_of<W: Work>(
    alloc: Global,
    seats: Vec<Seat<u32>>,
    ears: Vec<Listener<Bell>>,
    back: &mut Ringer<u32>,
    chairs: &Arc<Vec<Mutex<Chair<W>>>, Global>,
) -> Result<Vec<Post<W>>, AllocError>
    requires same { length ears.items ≡ length seats.items }
    ensures many { IfOk result (λ v. length v.items ≡ length seats.items) }
{
    let mut posts = Vec::new(alloc);
    let mut ears = ears.into_iter();
    for seat in seats {
        match ears.next() {
            Some(bells) => posts.push(Post {
                seat,
                bells,
                back: back.again()?,
                chairs: Arc::try_clone(chairs)?,
            })?,
            None => unreachable!(),
        }
    }
    Ok(posts)
}

// Starts a thread, where one can be had.
fn hire<W: Work, R: Threads + Wait + Copy + Send + Drop + 'static>(
    rt: R,
    post: Post<W>,
) -> Option<JoinHandle<()>>
where
    W: Send + 'static,
    W::In: Send + 'static,
    W::Out: Send + 'static,
{
    match thread::spawn(&rt, move || serve::<W, R>(rt, post)) {
        Ok(handle) => Some(handle),
        Err(_) => None,
    }
}

// Starts as many threads as can be had, in the room made for them.
fn staff<W: Work, R: Threads + Wait + Copy + Send + Drop + 'static>(
    rt: R,
    room: Vec<JoinHandle<()>>,
    posts: Vec<Post<W>>,
) -> Vec<JoinHandle<()>>
where
    W: Send + 'static,
    W::In: Send + 'static,
    W::Out: Send + 'static,
    requires empty { room.items ≡ [] }
    requires room { length posts.items ≤ vec_capacity room }
{
    let mut threads = room;
    for post in posts {
        if let Some(thread) = hire(rt, post) {
            threads.push_reserved(thread);
        }
    }
    threads
}

// What the threads and the master are given.
#[derive(Drop)]
struct Rooms<W: Work> {
    hall: Hall<W>,
    posts: Vec<Post<W>>,
}

// A seat more than threads, and the last one is the master's; room for a bell of each worker and of each thread.
fn rooms_of<W: Work>(
    alloc: Global,
    workers: u32,
    threads: u32,
    chairs: Vec<Mutex<Chair<W>>>,
) -> Result<Rooms<W>, AllocError>
    requires workers { 0 < workers }
    requires threads { threads ≤ 64 }
    ensures posts { IfOk result (λ r. length r.posts.items ≡ threads) }
{
    let chairs = Arc::new(alloc, chairs)?;
    let (ready, mut seats) = Ready::<u32>::open(alloc, threads + 1)?;
    let (bell, mut ears) = bells_of::<Bell>(
        alloc,
        workers as usize + threads as usize,
        threads as usize + 1,
    )?;
    let (mut ringer, back) = bells::<u32>(alloc, workers as usize)?;
    let Some(seat) = seats.pop() else {
        unreachable!()
    };
    let Some(bells) = ears.pop() else {
        unreachable!()
    };
    let posts = posts_of(alloc, seats, ears, &mut ringer, &chairs)?;
    let hall = Hall {
        ready,
        seat,
        bell,
        bells,
        back,
        chairs,
        staffed: false,
    };
    Ok(Rooms { hall, posts })
}

impl<W: Work, R: Threads + Wait + Copy + Send + Drop + 'static> Pool<W, R>
where
    W: Send + 'static,
    W::In: Send + 'static,
    W::Out: Send + 'static,
{
    /// So many workers, with nothing out, over as many of the threads as can be had, and the room that `close` needs. Where none can be
    /// had, `take` and `close` work themselves. `threads` is at most 64.
    ///
    /// Answers `AllocError` for want of memory.
    pub fn open(rt: R, alloc: Global, lanes: u32, threads: u32) -> Result<Pool<W, R>, AllocError>
        requires some { 0 < lanes }
        requires threads { threads ≤ 64 }
        ensures opened { IfOk result (λ l. (length l ≡ lanes) × All (λ x. x ≡ record { put = []; out = None }) l) }
    {
        let Sides { places, chairs } = sides_of::<W>(alloc, lanes)?;
        let done = Vec::with_capacity(alloc, lanes as usize)?;
        let room = Vec::with_capacity(alloc, threads as usize)?;
        let Rooms { mut hall, posts } = rooms_of::<W>(alloc, lanes, threads, chairs)?;
        let threads = staff(rt, room, posts);
        hall.staffed = threads.len() > 0;
        Ok(Pool {
            rt,
            places,
            hall,
            threads,
            done,
        })
    }
}
