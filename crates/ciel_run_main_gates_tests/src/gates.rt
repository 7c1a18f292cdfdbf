// What gates tell of a run: the gate of each worker has the tasks that were started there, in order, and the others have none. And that two
// workers perform two tasks at the same time: each gate waits until the other's task was entered.

ghost use Rattle.std.specs.Prelude.{◌≡◌, ◌<◌, IfOk, length};

use ciel_gate::meeting::Meeting;
use ciel_gate::recorder::Recorder;
use ciel_master::entry::Entry;
use ciel_run_tests::calls::outcome;
use sky_base::name::Name;
use sky_base::object::TaskId;
use std::alloc::Global;
use std::process::Abort;
use std::sync::Wait;
use std::test::Fail;
use std::thread::Threads;

// 64 gates, each with room for so many tasks.
fn recorders(alloc: Global) -> Result<Vec<Recorder>, Fail>
    ensures { IfOk result (λ gates. length gates.items ≡ 64) }
{
    let mut gates = Vec::new(alloc);
    for _ in 0..64 {
        let Ok(gate) = Recorder::new(alloc, 40) else {
            return Err(Fail::from("memory"));
        };
        if gates.push(gate).is_err() {
            return Err(Fail::from("memory"));
        }
    }
    if gates.len() != 64 {
        return Err(Fail::from("gates"));
    }
    Ok(gates)
}

// The tasks that were started at a worker.
fn started(alloc: Global, journal: &[Entry], at: u32) -> Result<Vec<TaskId>, Fail> {
    let mut tasks = Vec::new(alloc);
    for entry in journal {
        if let Entry::Start { worker, task, .. } = entry
            && *worker == at
        {
            tasks.push(*task)?;
        }
    }
    Ok(tasks)
}

fn tells(
    rt: &impl Abort,
    alloc: Global,
    journal: &[Entry],
    gate: &Recorder,
    at: u32,
) -> Result<(), Fail> {
    let tasks = started(alloc, journal, at)?;
    assert!(rt; gate.tasks() == tasks.as_slice(), "worker {at}");
    Ok(())
}

fn all_tell(
    rt: &impl Abort,
    alloc: Global,
    journal: &[Entry],
    gates: &[Recorder],
) -> Result<(), Fail> {
    let mut at = 0u32;
    for gate in gates {
        tells(rt, alloc, journal, gate, at)?;
        at = at.saturating_add(1);
    }
    Ok(())
}

fn told<R: Abort + Threads + Wait + Copy + Send + Sync + Drop + 'static>(
    rt: R,
    alloc: Global,
    row: &str,
) -> Result<(), Fail> {
    let source =
        "function f(x) { return x * x; } a = spawn(f, [3]); b = spawn(f, [4]); return *a + *b;";
    let mut gates = recorders(alloc)?;
    let got = outcome(rt, alloc, row, source, (0, 0, 0, 0), &mut gates)?;
    assert_eq!(rt; got.ended.status, 0);
    assert_eq!(rt; gates.len(), 64);
    all_tell(&rt, alloc, got.ended.journal.as_slice(), gates.as_slice())
}

#[test]
fn gates_tell_the_tasks_of_their_workers(rt: HostRuntime) -> Result<(), Fail> {
    told(rt, rt.alloc(), "s")?;
    told(rt, rt.alloc(), "s --workers 2 --seed 3")?;
    told(rt, rt.alloc(), "s --workers 3 --lose 2:0,3:1")?;
    told(rt, rt.alloc(), "s --workers 3 --steal 2 --lose 2:0,3:1")?;
    told(rt, rt.alloc(), "s --plain")
}

// The names of the two tasks that count the words of a part.
static FIRST: [u8; 20] = [
    202, 99, 153, 149, 252, 96, 10, 92, 192, 152, 39, 87, 113, 104, 39, 133, 34, 165, 98, 54,
];

static SECOND: [u8; 20] = [
    14, 11, 165, 156, 150, 224, 186, 198, 8, 27, 105, 125, 73, 94, 243, 172, 41, 173, 93, 58,
];

// Two gates more, which wait for each other at these two tasks.
fn push_pair(alloc: Global, limit: u32, gates: &mut Vec<Meeting>) -> Result<(), Fail> {
    let first = TaskId::Of(Name::short(FIRST));
    let second = TaskId::Of(Name::short(SECOND));
    let (one, other) = Meeting::pair(alloc, first, second, limit)?;
    gates.push(one)?;
    gates.push(other)?;
    Ok(())
}

// 64 gates, of which each two wait for each other, so many turns at most.
fn pairs(alloc: Global, limit: u32) -> Result<Vec<Meeting>, Fail>
    ensures { IfOk result (λ gates. length gates.items ≡ 64) }
{
    let mut gates = Vec::new(alloc);
    for _ in 0..32 {
        push_pair(alloc, limit, &mut gates)?;
    }
    if gates.len() != 64 {
        return Err(Fail::from("gates"));
    }
    Ok(gates)
}

// Whether so many gates, from the first on, have met, and no other.
fn have_met(gates: &[Meeting], many: usize) -> bool {
    let mut at = 0usize;
    for gate in gates {
        if gate.met() != (at < many) {
            return false;
        }
        at = at.saturating_add(1);
    }
    true
}

// The word count in two parts, where each gate waits so many turns.
fn meets<R: Abort + Threads + Wait + Copy + Send + Sync + Drop + 'static>(
    rt: R,
    alloc: Global,
    row: &str,
    limit: u32,
    many: usize,
) -> Result<(), Fail> {
    let source = concat!(
        "ps = spawn_exec(\"split\", {\"in\": ref(\"t\")}, 2); ts = []; for (p in ps) ",
        "{ ts += spawn_exec(\"tally\", {\"in\": p}, 1)[0]; } ",
        "return spawn_exec(\"sum\", {\"in\": ts}, 1)[0];",
    );
    let mut gates = pairs(alloc, limit)?;
    let got = outcome(rt, alloc, row, source, (0, 0, 0, 0), &mut gates)?;
    assert_eq!(rt; got.ended.status, 0);
    assert!(rt; got.out.bytes() == b"1 a\n1 b\n".as_slice());
    assert_eq!(rt; gates.len(), 64);
    assert!(rt; have_met(gates.as_slice(), many));
    Ok(())
}

#[test]
fn two_workers_meet(rt: HostRuntime) -> Result<(), Fail> {
    meets(rt, rt.alloc(), "s --workers 2 t=f", 100_000_000, 2)
}

#[test]
fn two_workers_meet_on_two_threads(rt: HostRuntime) -> Result<(), Fail> {
    meets(
        rt,
        rt.alloc(),
        "s --workers 2 --steal 2 t=f",
        100_000_000,
        2,
    )
}

// Its gate waits in vain at the first of the two tasks, and at the second both have been entered.
#[test]
fn one_worker_meets_itself_alone(rt: HostRuntime) -> Result<(), Fail> {
    meets(rt, rt.alloc(), "s t=f", 1_000, 1)
}
