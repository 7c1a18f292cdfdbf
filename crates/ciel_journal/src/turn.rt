//! Which workers may be given a task, and which loss comes first.

ghost use Rattle.std.specs.Prelude.{◌≡◌, ◌∷◌, [], ℕ, List, Option, None, IfNone, IfOk, IfSome, false, nat_eq, replicate};
ghost use Rattle.std.specs.List.{list_any};
ghost use Rattle.ciel_journal.specs.Flags.{Sets};
ghost use Rattle.ciel_journal.specs.Turns.{FirstDue, NothingDue, due_test, idle_workers};

use std::alloc::{AllocError, Global};

/// Whether a worker is in the list. Lists of workers have at most 64 of them.
pub fn has(workers: &[u32], worker: u32) -> bool
    ensures among { result ≡ list_any (nat_eq worker) workers.now }
{
    workers.iter().any(|x| worker == *x)
}

// A flag for each worker, none of them set.
fn no_flags(alloc: Global, workers: u32) -> Result<Vec<bool>, AllocError>
    ensures none { IfOk result (λ fs. fs.items ≡ replicate workers false) }
{
    let mut flags = Vec::with_capacity(alloc, workers as usize)?;
    flags.resize(workers as usize, false)?;
    Ok(flags)
}

// Sets the flag of a worker, if it has one.
fn set_flag(flags: &mut Vec<bool>, worker: u32)
    ensures set { Sets (worker ∷ []) flags.old.items flags.new.items }
{
    let i = worker as usize;
    if i < flags.len() {
        flags[i] = true;
    }
}

// Sets the flags of these workers.
fn set_flags(flags: &mut Vec<bool>, workers: &[u32])
    ensures set { Sets workers.now flags.old.items flags.new.items }
{
    for i in 0..workers.len() {
        set_flag(flags, workers[i]);
    }
}

/// Of so many workers those that are neither lost nor busy, rising. It takes as many steps as there are workers, lost ones and busy ones
/// together.
pub fn idle(alloc: Global, workers: u32, gone: &[u32], busy: &[u32]) -> Result<Vec<u32>, AllocError>
    ensures idle { IfOk result (λ ws. ws.items ≡ idle_workers workers gone.now busy.now) }
{
    let mut flags = no_flags(alloc, workers)?;
    set_flags(&mut flags, gone);
    set_flags(&mut flags, busy);
    let mut idle = Vec::with_capacity(alloc, workers as usize)?;
    for worker in 0..workers {
        if !flags[worker as usize] {
            idle.push(worker)?;
        }
    }
    Ok(idle)
}

/// Whether a loss is due: its count of closes is reached, and its worker isn't lost.
fn is_due(loss: (u32, u32), closes: u64, gone: &[u32]) -> bool
    ensures due { result ≡ due_test closes gone.now (loss.0, loss.1) }
{
    loss.0 as u64 <= closes && !has(gone, loss.1)
}

/// The place of the first loss that is due, by its count of closes and then by its place in the
/// list. A loss is a count of closes and a worker. `None` where none is due.
pub fn first_due(losses: &[(u32, u32)], closes: u64, gone: &[u32]) -> Option<usize>
    ensures first { IfSome result (λ loss. (worker : ℕ) × FirstDue losses.now closes gone.now loss worker) }
    ensures none { IfNone result (NothingDue losses.now closes gone.now) }
{
    let mut first: Option<usize> = None;
    for i in 0..losses.len() {
        if is_due(losses[i], closes, gone) {
            if let Some(j) = first {
                if losses[i].0 < losses[j].0 {
                    first = Some(i);
                }
            } else {
                first = Some(i);
            }
        }
    }
    first
}
