//! The laws of kits with entries. Each is the contract of a function that does nothing.

ghost use Rattle.ciel_memo.specs.Laws.{KnowsTable, NoneIsPlain, RightIsPlain, RightStays};

use crate::kit::MemoKit;
use line_flow::kit::FlowKit;
use sky_base::kit::Kit;
use std::sync::Wait;

/// With no entries a kit gives what the inner one does, and with entries that are what the inner kit gives, so too. What such a kit keeps is
/// then what the inner kit gives.
pub fn right_entries_change_nothing()
    ensures none { NoneIsPlain }
    ensures right { RightIsPlain }
    ensures stays { RightStays }
{}

/// The executors over lines that are known are those of the table.
pub fn the_table_is_known()
    ensures { KnowsTable }
{}

/// What a run asks of its kit.
fn takes_a_kit<K: Kit + Send + Sync + Drop + 'static>(kit: K) {
    drop(kit);
}

/// A kit with entries over executors by pieces may be handed to a run.
pub fn may_be_run<R: Wait + Copy + Send + Sync + Drop + 'static>(kit: MemoKit<FlowKit, R>) {
    takes_a_kit(kit);
}
