//! On what the workers of a run work.

ghost use Rattle.std.specs.Prelude.{◌≡◌, ◌≢◌, ◌≤◌, IfNone, IfSome, false, true};
ghost use Rattle.sky_base.specs.KitView.{Gives};
ghost use Rattle.line_kit.specs.Gives.{gives};
ghost use Rattle.ciel_crew_choice.specs.Kinds.{IsFor};

/// On what the workers of a run work.
#[derive(Clone, Copy, Debug, PartialEq, Eq)]
pub enum Hands {
    /// On the caller's thread, one order after another.
    Caller,
    /// Each on a thread of its own, where one can be had.
    Own,
    /// Each on a thread of its own, where one can be had; and a task that reads what another one makes is begun on while that is made.
    Streamed,
    /// All on so many threads that they share, where they can be had; at most 64.
    Shared(u32),
}

impl Hands {
    /// The hands for so many workers: the threads that they share, where some are asked for; else those that begin on what is still made,
    /// where that is asked for; else the caller's for one worker, and for several a thread of each one's own. At most 64 threads are shared.
    pub fn of(workers: u32, shared: Option<u32>, streamed: bool) -> Hands
        requires { IfSome shared (λ threads. threads ≤ 64) }
        ensures fits { IsFor gives result }
        ensures every { streamed ≡ false → (kit : Gives) → IsFor kit result }
        ensures shared { IfSome shared (λ threads. result ≡ Hands.Shared threads) }
        ensures streamed { IfNone shared (streamed ≡ true → result ≡ Hands.Streamed) }
        ensures caller { IfNone shared (streamed ≡ false → workers ≡ 1 → result ≡ Hands.Caller) }
        ensures own { IfNone shared (streamed ≡ false → workers ≢ 1 → result ≡ Hands.Own) }
    {
        match shared {
            Some(threads) => Hands::Shared(threads),
            None if streamed => Hands::Streamed,
            None if workers == 1 => Hands::Caller,
            None => Hands::Own,
        }
    }
}
