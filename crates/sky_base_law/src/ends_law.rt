// The laws, as contracts of functions that do nothing.

ghost use Rattle.sky_base_law.specs.EndsLaws.{EndsWhereSeen, NextIsThere};

/// A task all of whose waits are seen comes to its end.
pub fn tasks_end_where_all_is_seen()
    ensures ends { EndsWhereSeen }
{}

/// From a wait on, a task comes to its end or to a first wait for something that a test does not pick, where all that it picks is seen.
pub fn what_comes_next()
    ensures next { NextIsThere }
{}
