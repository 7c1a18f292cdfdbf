//! The generator that chooses tasks and workers.

ghost use Rattle.std.specs.Prelude.{◌≡◌, ◌+◌, ◌*◌, ◌/◌, ◌%◌, ◌^◌, ◌<◌};
ghost use Rattle.ciel_journal.specs.Turns.{state_after};

/// The next number of the generator, below `count`, and its state then.
pub fn pick(state: &mut u64, count: usize) -> usize
    requires some { 0 < count }
    ensures state { state.new ≡ (state.old * 6364136223846793005 + 1442695040888963407) % 2 ^ 64 }
    ensures pick { result ≡ (state.new / 2 ^ 33) % count }
    ensures below { result < count }
{
    let next = *state as u128 * 6364136223846793005 + 1442695040888963407;
    *state = (next % 18446744073709551616) as u64;
    (*state / 8589934592) as usize % count
}

/// The state of the generator after so many draws from a seed: a run draws twice for each start, first for the task and then for the worker.
/// It takes time in the number of draws, and no memory.
pub fn state_after(seed: u64, draws: u64) -> u64
    ensures state { result ≡ state_after seed draws }
{
    let mut state = seed;
    for _draw in 0..draws {
        let _ = pick(&mut state, 1);
    }
    state
}
