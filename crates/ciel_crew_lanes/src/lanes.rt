// Lanes: so many workers, each with its desk, and the bells by which the master hears whose output is there.

ghost use Rattle.std.specs.Prelude.{◌≡◌, ◌<◌, ◌≤◌, ◌++◌, ◌∷◌, [], ℕ, List, Some, None, length, slice_get, slice_set, IfOk, IfErr, IfSome, IsSome};
ghost use Rattle.std.specs.Prelude.{IsNone, IsSomeAnd, All, MatchOption, ◌^◌, ◌+◌, replicate, vec_capacity, vec_len};
ghost use Rattle.ciel_crew_lanes.specs.Seen.{LaneSeen, IsOut, HasTaken, Closes, lane_at};

use crate::bells::{Listener, Ringer, bells};
use crate::desk::Desk;
use crate::lane::{Bell, Hands, Lane, Post, hire};
use crate::work::Work;
use std::alloc::{AllocError, Global};
use std::marker::Model;
use std::sync::Wait;
use std::thread::Threads;

/// Workers, each with its desk. Contracts see for each lane the jobs that were put, and the one that is out.
#[derive(Drop)]
pub struct Lanes<W: Work, R: Drop> {
    rt: R,
    lanes: Vec<Lane<W>>,
    heard: Listener<u32>,
    done: Vec<(u32, W::Out)>,
}

impl<W: Work, R: Drop> Model for Lanes<W, R> {
    ghost Value = { List (LaneSeen W.In) };

    ghost view = { λ l. l.lanes.items };

    ghost invariant = { λ l. (l.done.items ≡ []) × (length l.lanes.items ≤ vec_capacity l.done) × (length l.lanes.items < 2 ^ 32) };
}

// Notes whose bell is heard.
fn hear_one<W: Work, R: Wait>(rt: &R, lanes: &mut Vec<Lane<W>>, heard: &mut Listener<u32>)
    ensures { lanes.new.items ≡ lanes.old.items }
{
    let at = heard.hear(rt) as usize;
    if at < lanes.len() {
        lanes[at].rings();
    }
}

// An output of this lane. Bells of other lanes that are heard meanwhile are kept.
fn take_from<W: Work, R: Wait>(
    rt: &R,
    lanes: &mut Vec<Lane<W>>,
    heard: &mut Listener<u32>,
    at: u32,
) -> W::Out
    requires lane { at < length lanes.old.items }
    requires out { IsSome (lane_at lanes.old.items at).out }
    ensures taken { HasTaken W.fits lanes.old.items at result lanes.new.items }
{
    for _ in rt.forever() {
        if lanes[at as usize].is_awaited() {
            hear_one(rt, lanes, heard);
        } else if let Some(output) = lanes[at as usize].worked(rt) {
            return output;
        }
    }
    unreachable!()
}

// The next output, of a lane that rang or by this thread itself. A bell of no lane with a job out is passed over.
fn take_one<W: Work, R: Wait>(
    rt: &R,
    lanes: &mut Vec<Lane<W>>,
    heard: &mut Listener<u32>,
) -> (u32, W::Out)
    requires out { IsOut lanes.old.items }
    ensures taken { HasTaken W.fits lanes.old.items result.0 result.1 lanes.new.items }
{
    for _ in rt.forever() {
        let at = match at_hand(lanes) {
            Some(at) => at,
            None => heard.hear(rt),
        };
        if (at as usize) < lanes.len() && lanes[at as usize].is_out() {
            if let Some(output) = lanes[at as usize].worked(rt) {
                return (at, output);
            }
        }
    }
    unreachable!()
}

// A lane with a job out and no thread, or whose bell was heard.
fn at_hand<W: Work>(lanes: &Vec<Lane<W>>) -> Option<u32> {
    for (at, lane) in lanes.iter().enumerate() {
        if lane.is_out() && !lane.is_awaited() {
            return u32::try_from(at).ok();
        }
    }
    None
}

// A lane that is to be, before anybody works at it.
#[derive(Drop)]
struct Place<W: Work> {
    desk: Desk<W>,
    bell: Ringer<Bell>,
    post: Post<W>,
    ghost fresh: { desk ≡ record { put = []; out = None; back = 0 } },
}

fn placed<W: Work>(
    alloc: Global,
    master: &mut Ringer<u32>,
    lane: u32,
) -> Result<Place<W>, AllocError> {
    let (desk, chair) = Desk::<W>::pair(alloc)?;
    let (bell, bells) = bells::<Bell>(alloc, 2)?;
    let post = Post {
        chair,
        bells,
        master: master.again()?,
        lane,
    };
    Ok(Place { desk, bell, post })
}

fn places_of<W: Work>(
    alloc: Global,
    master: &mut Ringer<u32>,
    lanes: u32,
) -> Result<Vec<Place<W>>, AllocError>
    ensures { IfOk result (λ v. length v.items ≡ lanes) }
{
    let mut all = Vec::new(alloc);
    for lane in 0..lanes {
        all.push(placed::<W>(alloc, master, lane)?)?;
    }
    Ok(all)
}

fn staffed<W: Work, R: Threads + Wait + Copy + Send + Drop + 'static>(
    rt: R,
    place: Place<W>,
) -> Lane<W>
where
    W: Send + 'static,
    W::In: Send + 'static,
    W::Out: Send + 'static,
    ensures { result ≡ record { put = []; out = None } }
{
    let Place {
        desk,
        mut bell,
        post,
    } = place;
    let hands = hire(rt, &mut bell, post);
    Lane {
        desk,
        bell,
        hands,
        is_out: false,
        rang: false,
    }
}

impl<W: Work, R: Threads + Wait + Copy + Send + Drop + 'static> Lanes<W, R>
where
    W: Send + 'static,
    W::In: Send + 'static,
    W::Out: Send + 'static,
{
    /// So many lanes, with nothing out, each with a thread where one can be had, and the room that `close` needs.
    pub fn open(rt: R, alloc: Global, lanes: u32) -> Result<Lanes<W, R>, AllocError>
        requires some { 0 < lanes }
        ensures opened { IfOk result (λ l. (length l ≡ lanes) × All (λ x. x ≡ record { put = []; out = None }) l) }
    {
        let (mut master, heard) = bells::<u32>(alloc, lanes as usize)?;
        let places = places_of::<W>(alloc, &mut master, lanes)?;
        let done = Vec::with_capacity(alloc, lanes as usize)?;
        let mut all = Vec::with_capacity(alloc, lanes as usize)?;
        for place in places {
            all.push_reserved(staffed(rt, place));
        }
        Ok(Lanes {
            rt,
            lanes: all,
            heard,
            done,
        })
    }
}

impl<W: Work, R: Wait + Copy + Drop> Lanes<W, R> {
    /// Puts a job on the desk of a lane that has none out. It takes no memory.
    pub fn put(&mut self, lane: u32, job: W::In)
        requires lane { lane < length self.old }
        requires none { (lane_at self.old lane).out ≡ None }
        requires takes { W.takes job }
        ensures put { self.new ≡ slice_set self.old lane record { put = (lane_at self.old lane).put ++ job ∷ []; out = Some job } }
    {
        let rt = self.rt;
        self.lanes[lane as usize].put(&rt, job);
    }

    /// An output of a lane that has a job out, with the number of the lane, whose job is then no longer out. It
    /// waits for one.
    pub fn take(&mut self) -> (u32, W::Out)
        requires out { IsOut self.old }
        ensures taken { HasTaken W.fits self.old result.0 result.1 self.new }
    {
        let rt = self.rt;
        take_one(&rt, &mut self.lanes, &mut self.heard)
    }

    /// An output of this lane, whose job is then no longer out. It waits for it.
    pub fn take_at(&mut self, lane: u32) -> W::Out
        requires lane { lane < length self.old }
        requires out { IsSome (lane_at self.old lane).out }
        ensures taken { HasTaken W.fits self.old lane result self.new }
    {
        let rt = self.rt;
        take_from(&rt, &mut self.lanes, &mut self.heard, lane)
    }
}

impl<W: Work, R: Drop> Lanes<W, R> {
    /// Whether the lane has a thread of its own. It takes no memory.
    pub fn runs_beside(&self, lane: u32) -> bool
        requires lane { lane < length self.now }
    {
        self.lanes[lane as usize].has_thread()
    }
}

// Keeps an output, if there is one.
fn note<O: Drop>(done: &mut Vec<(u32, O)>, at: u32, output: Option<O>)
    requires { vec_len done.old < vec_capacity done.old }
    ensures items { MatchOption output (done.new.items ≡ done.old.items) (λ x. done.new.items ≡ done.old.items ++ (at, x) ∷ []) }
    ensures capacity { vec_capacity done.new ≡ vec_capacity done.old }
{
    if let Some(output) = output {
        done.push_reserved((at, output));
    }
}

// Waits until each lane with a thread and a job out has put its output: each rings once for it.
fn hear_all<W: Work, R: Wait>(rt: &R, lanes: &Vec<Lane<W>>, heard: &mut Listener<u32>) {
    for lane in lanes {
        if lane.is_awaited() {
            let _ = heard.hear(rt);
        }
    }
}

// Ends a lane, with an output that fits the job that is out.
fn finish<W: Work, R: Threads + Wait>(rt: &R, mut lane: Lane<W>) -> Option<W::Out>
    ensures { MatchOption lane.out (IsNone result) (λ job. IsSomeAnd result (λ x. W.fits job x)) }
{
    let output = last_of(rt, &mut lane);
    let Lane {
        desk: _,
        mut bell,
        hands,
        is_out: _,
        rang: _,
    } = lane;
    if let Hands::Thread(handle) = hands {
        bell.ring(rt, Bell::Last);
        let _ = handle.join(rt);
    }
    output
}

fn last_of<W: Work, R: Wait>(rt: &R, lane: &mut Lane<W>) -> Option<W::Out>
    ensures { MatchOption lane.old.out (IsNone result) (λ job. IsSomeAnd result (λ x. W.fits job x)) }
{
    if !lane.is_out() {
        return None;
    }
    for _ in rt.forever() {
        let output = lane.worked(rt);
        if output.is_some() {
            return output;
        }
    }
    unreachable!()
}

impl<W: Work, R: Threads + Wait + Drop> Lanes<W, R> {
    /// Ends all lanes. For each with a job out, in order of lanes, the lane and an output that fits that job; no
    /// other lane stands in the list. It waits for the outputs and for the threads, and takes no memory.
    pub fn close(self) -> Vec<(u32, W::Out)>
        ensures closes { Closes W.fits 0 self result.items }
    {
        let Lanes {
            rt,
            lanes,
            mut heard,
            mut done,
        } = self;
        hear_all(&rt, &lanes, &mut heard);
        let mut at = 0;
        for lane in lanes {
            let output = finish(&rt, lane);
            note(&mut done, at, output);
            at += 1;
        }
        done
    }
}
