//! The state of a master is safe, whatever was reported: its orders are sound for the shop, each call keeps it so, and a run comes to its end.
#![tactic(auto)]

ghost use Rattle.ciel_master_safe.specs.Laws.{GoesStay, RowsStay, SafeLoss, SafeOpened, SafeOrders, SafeReport, SafeStart};
ghost use Rattle.ciel_master_safe.specs.Turns.{LossTurns, MissedTurns, OpenedIsAtWork, ReportTurns, StartTurns, ThrownTurns};

/// An order for a task that can run is sound for the shop, and the table has rows for what it brings along.
pub fn orders_are_safe()
    ensures orders { SafeOrders }
{}

/// It is safe at the beginning, and stays so after a start, after a report that fits, whatever it says, and after a loss.
pub fn states_stay_safe()
    ensures opened { SafeOpened }
    ensures started { SafeStart }
    ensures accepted { SafeReport }
    ensures lost { SafeLoss }
{}

/// What an order goes by stays.
pub fn tasks_stay()
    ensures { GoesStay }
{}

/// The rows for what an order brings along stay.
pub fn rows_stay()
    ensures { RowsStay }
{}

/// At the beginning a master is at work and no worker has an order. It stays so with each turn, and each leaves less to do: a loss that
/// is due, a start, a report that fits, whatever it says, and one that is thrown away.
pub fn turns_come_to_an_end()
    ensures opened { OpenedIsAtWork }
    ensures loss { LossTurns }
    ensures start { StartTurns }
    ensures thrown { ThrownTurns }
    ensures report { ReportTurns }
    ensures missed { MissedTurns }
{}

pub use ciel_task_order::{order, report};
