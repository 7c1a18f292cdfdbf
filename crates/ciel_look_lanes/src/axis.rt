//! The places of what happened, from left to right in the order of the log, and of the lanes.

ghost use Rattle.std.specs.Prelude.{◌≡◌, ◌≤◌};
ghost use Rattle.ciel_look_lanes.specs.Axis.{lane_of, lane_top, x_of};

use std::marker::Model;

/// Where the first thing that happened stands.
pub const LEFT: usize = 90;

/// Where the first lane begins.
pub const TOP: usize = 70;

/// How high a lane is.
pub const LANE: usize = 46;

/// The most lanes of their own: workers with higher numbers share one more.
pub const MOST_LANES: usize = 64;

/// The widest that the lanes become.
const WIDEST: u128 = 10_200;

/// How many things happened: that is what contracts see.
#[derive(Drop)]
pub struct Axis {
    count: usize,
}

impl Model for Axis {
    ghost use Rattle.std.specs.Prelude.{ℕ};

    ghost Value = { ℕ };

    ghost view = { λ a. a.count };
}

impl Axis {
    /// So many things happened.
    pub fn of(count: usize) -> Axis
        ensures { result ≡ count }
    {
        Axis { count }
    }

    /// The place of what happened at this place.
    pub fn x(&self, at: usize) -> usize
        ensures { result ≡ x_of self.now at }
    {
        let ends = self.count as u128 + 1;
        let wide = (ends * 46).min(WIDEST);
        LEFT + ((at as u128).min(ends) * wide / ends) as usize
    }
}

/// The lane of a worker.
pub fn lane_of(worker: u32) -> usize
    ensures { result ≡ lane_of worker }
{
    (worker as usize).min(MOST_LANES)
}

/// The upper end of a lane.
pub fn lane_top(lane: usize) -> usize
    ensures top { lane ≤ 65 → result ≡ lane_top lane }
{
    TOP.saturating_add(lane.saturating_mul(LANE))
}
