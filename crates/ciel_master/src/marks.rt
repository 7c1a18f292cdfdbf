//! What a worker's eye has seen, handed to the seat that marks losses.

ghost use Rattle.std.specs.Prelude.{◌≡◌};
ghost use Rattle.ciel_journal.specs.Job.{In};
ghost use Rattle.ciel_store.specs.declared.loss.Loss.{Loss};
ghost use Rattle.ciel_task_order.specs.Performs.{HasSeen};
ghost use Rattle.ciel_task_order.specs.Places.{SeenAt};
ghost use Rattle.ciel_master.specs.Marked.{SeenOf, WasMarked, unseen};

use ciel_store::seats::{Marker, Seen};
use ciel_store::shelves::Shelves;
use ciel_task_order::block::Block;
use ciel_task_order::report::{End, Report};

/// Hands what an eye had seen to the marker; each loss there is one that was marked.
fn confirm_seen(shelves: &Shelves<Block>, marker: &mut Marker, seen: Option<Seen>)
    requires of { marker.old.of ≡ shelves.now.of }
    requires seen { SeenAt shelves.now seen }
    ensures same { marker.new ≡ marker.old }
    ensures marked { (loss : Loss) → HasSeen seen loss → In loss marker.new.losses }
{
    match seen {
        Some(seen) => shelves.confirm(marker, seen),
        None => {}
    }
}

/// So it is done with what the end of a report has.
fn confirm_end(shelves: &Shelves<Block>, marker: &mut Marker, end: End) -> End
    requires of { marker.old.of ≡ shelves.now.of }
    requires seen { SeenOf shelves.now end }
    ensures same { marker.new ≡ marker.old }
    ensures rest { result ≡ unseen end }
    ensures marked { WasMarked marker.new.losses end }
{
    match end {
        End::Missing { name, loss, seen } => {
            confirm_seen(shelves, marker, seen);
            End::Missing {
                name,
                loss,
                seen: None,
            }
        }
        End::Made(made) => End::Made(made),
        End::Saved {
            frozen,
            j,
            refs,
            holds,
            mark,
        } => End::Saved {
            frozen,
            j,
            refs,
            holds,
            mark,
        },
        End::Shown(shown) => End::Shown(shown),
    }
}

/// So it is done with a report.
pub(crate) fn confirm(shelves: &Shelves<Block>, marker: &mut Marker, report: Report) -> Report
    requires of { marker.old.of ≡ shelves.now.of }
    requires seen { SeenOf shelves.now report.end }
    ensures same { marker.new ≡ marker.old }
    ensures rest { result ≡ record report { end = unseen report.end } }
    ensures marked { WasMarked marker.new.losses report.end }
{
    let Report {
        number,
        worker,
        task,
        spawned,
        copied,
        end,
    } = report;
    let end = confirm_end(shelves, marker, end);
    Report {
        number,
        worker,
        task,
        spawned,
        copied,
        end,
    }
}
