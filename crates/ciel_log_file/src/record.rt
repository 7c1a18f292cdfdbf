//! One record of a log, taken again.

ghost use Rattle.std.specs.Prelude.{◌≡◌, IfOk, OnOk, length};
ghost use Rattle.sky_base.specs.JobView.{job_view};
ghost use Rattle.ciel_log_file.specs.Refused.{RefusedBehind, RefusedNow};
ghost use Rattle.ciel_log_file.specs.Replays.{EndsBy, EndsSo, TakesBehind, TakesRecord};
ghost use Rattle.ciel_log_file.specs.Sending.{AllTake, Placed};
ghost use Rattle.ciel_log_read.specs.Recorded.{IsRecord, record_bytes};
ghost use Rattle.ciel_log_read.specs.View.{record_view};
ghost use Rattle.ciel_log_replay.specs.Between.{Between};
ghost use Rattle.ciel_log_report.specs.Comes.{GoesOn, NotRefused};
ghost use Rattle.ciel_log_report.specs.declared.take.Came.{Came as CameSeen};
ghost use Rattle.ciel_master.specs.declared.stop.RunEnd.{RunEnd};
ghost use Rattle.ciel_master_board.specs.Driving.{Quiet};

use ciel_log_fits::allowed::Allowed;
use ciel_log_read::read::read_record;
use ciel_log_read::record::Record;
use ciel_log_replay::losses::lose_due;
use ciel_log_replay::starts::take_start;
use ciel_log_report::take::{Came, take_report};
use ciel_master::master::Master;
use ciel_master_safe::orders_are_safe;
use ciel_name::name::Namer;
use ciel_name::refusal::Decode;
use ciel_task_order::order::Order;
use ciel_task_order::shop::Shop;
use sky_base::kit::Kit;
use sky_base::name::Name;
use sky_base::object::Object;
use sky_base::text::Memory;
use sky_frozen::fitting::Fitting;
use std::alloc::Global;
use std::collections::BTreeMap;
use std::sync::Wait;

/// Takes the record that these bytes are, behind the losses that are due.
///
/// Answers `Memory` for want of memory.
pub(crate) fn take_record<K: Kit + Drop, N: Namer + Drop, R: Wait>(
    rt: &R,
    alloc: Global,
    master: &mut Master<K, N>,
    shop: &Shop<K, N>,
    script: &Allowed,
    fitting: &Fitting,
    out: &mut [Option<Order>],
    draws: &mut u64,
    kept: &mut BTreeMap<Name, Object>,
    bytes: &[u8],
) -> Result<Came, Memory>
    requires between { Between K.gives N.digest shop.now master.old out.old draws.old }
    requires takes { AllTake K.gives N.digest shop.now out.old }
    requires script { script.now ≡ (job_view shop.now.job).script }
    requires fitting { fitting.now ≡ (job_view shop.now.job).script }
    ensures takes_it { IfOk result (λ c. GoesOn c → TakesBehind (N.digest shop.now.namer) shop.now.shelves script.now
        (record { board = master.old.board; out = out.old; kept = kept.old }) bytes.now
        (record { board = master.new.board; out = out.new; kept = kept.new })) }
    ensures ends { IfOk result (λ c. (e : RunEnd) → c ≡ CameSeen.Ends e → EndsBy (N.digest shop.now.namer) shop.now.shelves script.now
        (record { board = master.old.board; out = out.old; kept = kept.old }) bytes.now e
        (record { board = master.new.board; out = out.new; kept = kept.new })) }
    ensures refused { IfOk result (λ c. c ≡ CameSeen.Refused → RefusedBehind (N.digest shop.now.namer) script.now
        (record { board = master.old.board; out = out.old; kept = kept.old }) bytes.now) }
    ensures between { IfOk result (λ c. GoesOn c → Between K.gives N.digest shop.now master.new out.new draws.new) }
    ensures placed { IfOk result (λ c. NotRefused c → Placed out.new) }
    ensures takes { IfOk result (λ c. NotRefused c → AllTake K.gives N.digest shop.now out.new) }
    ensures many { IfOk result (λ c. NotRefused c → length out.new ≡ length out.old) }
    ensures plan { IfOk result (λ c. NotRefused c → master.new.board.plan ≡ master.old.board.plan) }
{
    lose_due(master, shop, out, *draws);
    let record = match read_record(alloc, bytes) {
        Ok(record) => record,
        Err(Decode::NotValue) => return Ok(Came::Refused),
        Err(Decode::Memory) => return Err(Memory),
    };
    let came = take_read(
        rt, alloc, master, shop, script, fitting, out, draws, kept, &record,
    )?;
    Ok(came)
}

/// Takes a record, where no loss is due.
fn take_read<K: Kit + Drop, N: Namer + Drop, R: Wait>(
    rt: &R,
    alloc: Global,
    master: &mut Master<K, N>,
    shop: &Shop<K, N>,
    script: &Allowed,
    fitting: &Fitting,
    out: &mut [Option<Order>],
    draws: &mut u64,
    kept: &mut BTreeMap<Name, Object>,
    told: &Record,
) -> Result<Came, Memory>
    requires between { Between K.gives N.digest shop.now master.old out.old draws.old }
    requires quiet { Quiet master.old.board }
    requires takes { AllTake K.gives N.digest shop.now out.old }
    requires script { script.now ≡ (job_view shop.now.job).script }
    requires fitting { fitting.now ≡ (job_view shop.now.job).script }
    requires data { IsRecord (record_view told.now) }
    ensures takes_it { IfOk result (λ c. GoesOn c → TakesRecord (N.digest shop.now.namer) shop.now.shelves script.now
        (record { board = master.old.board; out = out.old; kept = kept.old }) (record_bytes (record_view told.now))
        (record { board = master.new.board; out = out.new; kept = kept.new })) }
    ensures ends { IfOk result (λ c. (e : RunEnd) → c ≡ CameSeen.Ends e → EndsSo (N.digest shop.now.namer) shop.now.shelves script.now
        (record { board = master.old.board; out = out.old; kept = kept.old }) (record_bytes (record_view told.now)) e
        (record { board = master.new.board; out = out.new; kept = kept.new })) }
    ensures refused { IfOk result (λ c. c ≡ CameSeen.Refused → RefusedNow (N.digest shop.now.namer) script.now
        (record { board = master.old.board; out = out.old; kept = kept.old }) (record_bytes (record_view told.now))) }
    ensures between { IfOk result (λ c. GoesOn c → Between K.gives N.digest shop.now master.new out.new draws.new) }
    ensures placed { IfOk result (λ c. NotRefused c → Placed out.new) }
    ensures takes { IfOk result (λ c. NotRefused c → AllTake K.gives N.digest shop.now out.new) }
    ensures many { IfOk result (λ c. NotRefused c → length out.new ≡ length out.old) }
    ensures plan { IfOk result (λ c. NotRefused c → master.new.board.plan ≡ master.old.board.plan) }
{
    orders_are_safe();
    match told {
        Record::Start {
            number,
            worker,
            from,
            task,
        } => {
            let taken = take_start(master, shop, out, draws, *number, *worker, *from, task)?;
            if taken {
                Ok(Came::Taken)
            } else {
                Ok(Came::Refused)
            }
        }
        Record::Report(logged) => {
            let came = take_report(
                rt, alloc, master, shop, script, fitting, out, *draws, logged, kept,
            )?;
            Ok(came)
        }
        Record::Dropped { number } => {
            if master.is_out(*number) {
                Ok(Came::Refused)
            } else {
                Ok(Came::Passed)
            }
        }
    }
}
