//! The performance of an order by a lane whose crew has streams.

ghost use Rattle.std.specs.Prelude.{◌≡◌, ◌++◌, [], ◌∷◌, true, IfOk, IfSome, IsSomeAnd, Some};
ghost use Rattle.sky_base.specs.JobView.{job_view};
ghost use Rattle.sky_base.specs.declared.object.Desc1.{Desc1 as DescSeen};
ghost use Rattle.ciel_crew_work.specs.Onward.{IsRead};
ghost use Rattle.ciel_crew_work.specs.Shop.{InputsInOrder};
ghost use Rattle.ciel_crew_work.specs.Crews.{Answers, Takes};
ghost use Rattle.ciel_gate.specs.Entered.{IsEntered};
ghost use Rattle.ciel_flow_pieces.specs.Pieces.{AllParts, LawOf};
ghost use Rattle.ciel_flow_pieces.specs.declared.piece.Piece.TheVariants.{End};
ghost use Rattle.ciel_flow_work.specs.Ahead.{IsAheadOf};
ghost use Rattle.ciel_flow_work.specs.Flowing.{IsLedBy, IsLedOf};
ghost use Rattle.line_kit.specs.Gives.{gives};

use crate::make::{make_leading, make_with};
use ciel_crew_work::performing::Tools;
use ciel_flow_pieces::ends::Producer;
use ciel_flow_pieces::follow::Left;
use ciel_flow_pieces::piece::Piece;
use ciel_gate::gate::Gate;
use ciel_name::name::Namer;
use ciel_store::seats::Eye;
use ciel_task_call::task::run_task;
use ciel_task_exec::found::Found;
use ciel_task_exec::order::{find_order, tell, tell_loss};
use ciel_task_order::order::Order;
use ciel_task_order::report::Report;
use ciel_task_order::shop::Shop;
use sky_base::kit::Kit;
use sky_base::object::Desc1;
use sky_base::text::{Memory, Txt};
use sky_base::value::Value;
use std::alloc::Global;
use std::sync::Wait;

/// A report, and whether it tells what was computed ahead.
#[derive(Drop)]
pub struct ReportSo {
    pub report: Report,
    pub ahead: bool,
}

// A report, and whether the end of the stream may be put.
#[derive(Drop)]
struct Led {
    told: ReportSo,
    whole: bool,
}

// An executor's order without a stream.
fn run_alone<K: Kit, N: Namer, R: Wait>(
    rt: &R,
    alloc: Global,
    shop: &Shop<K, N>,
    order: &Order,
    executor: &Txt,
    args: &Value,
    outputs: u32,
    ahead: Option<Left>,
    eye: &mut Eye,
) -> Result<ReportSo, Memory>
    requires desc { order.now.desc ≡ Some (DescSeen.Exec executor.now args.now outputs 0) }
    requires takes { Takes K.gives N.digest shop.now order.now }
    requires flow { K.gives shop.now.kit ≡ gives }
    requires inputs { InputsInOrder (job_view shop.now.job) }
    requires eye { eye.old.of ≡ shop.now.shelves.of }
    ensures of { eye.new.of ≡ eye.old.of }
    ensures answers { IfOk result (λ r. Answers K.gives N.digest shop.now order.now r.report) }
    ensures ahead { IfOk result (λ r. r.ahead ≡ true → IsSomeAnd ahead (IsAheadOf (job_view shop.now.job).inputs order.now)) }
{
    let found = find_order(rt, alloc, shop, order, executor, args, outputs, eye)?;
    match found {
        Found::Lost(name, loss) => {
            let report = tell_loss(alloc, shop, order, executor, args, outputs, name, loss, eye);
            Ok(ReportSo {
                report,
                ahead: false,
            })
        }
        Found::All { inputs, copied } => {
            let so = make_with(alloc, &shop.kit, executor, args, outputs, &inputs, ahead)?;
            let report = tell(
                rt, alloc, shop, order, executor, args, outputs, &so.made, copied,
            )?;
            Ok(ReportSo {
                report,
                ahead: so.ahead,
            })
        }
    }
}

// An executor's order with a stream of one of its outputs.
fn run_leading<K: Kit, N: Namer, R: Wait>(
    rt: &R,
    alloc: Global,
    shop: &Shop<K, N>,
    order: &Order,
    executor: &Txt,
    args: &Value,
    outputs: u32,
    index: u32,
    ahead: Option<Left>,
    producer: &mut Producer,
    eye: &mut Eye,
) -> Result<Led, Memory>
    requires desc { order.now.desc ≡ Some (DescSeen.Exec executor.now args.now outputs 0) }
    requires takes { Takes K.gives N.digest shop.now order.now }
    requires flow { K.gives shop.now.kit ≡ gives }
    requires inputs { InputsInOrder (job_view shop.now.job) }
    requires eye { eye.old.of ≡ shop.now.shelves.of }
    requires led { IsLedBy (job_view shop.now.job).inputs order.now.inputs.items executor.now args.now outputs index producer.old }
    ensures of { eye.new.of ≡ eye.old.of }
    ensures source { producer.new.source ≡ producer.old.source }
    ensures parts { AllParts producer.new.pieces }
    ensures answers { IfOk result (λ r. Answers K.gives N.digest shop.now order.now r.told.report) }
    ensures ahead { IfOk result (λ r. r.told.ahead ≡ true → IsSomeAnd ahead (IsAheadOf (job_view shop.now.job).inputs order.now)) }
    ensures end { IfOk result (λ r. r.whole ≡ true → LawOf producer.new.source (producer.new.pieces ++ End ∷ [])) }
{
    let found = find_order(rt, alloc, shop, order, executor, args, outputs, eye)?;
    match found {
        Found::Lost(name, loss) => {
            let report = tell_loss(alloc, shop, order, executor, args, outputs, name, loss, eye);
            Ok(Led {
                told: ReportSo {
                    report,
                    ahead: false,
                },
                whole: false,
            })
        }
        Found::All { inputs, copied } => {
            let so = make_leading(
                rt, alloc, executor, args, outputs, index, &inputs, ahead, producer,
            )?;
            let report = tell(
                rt, alloc, shop, order, executor, args, outputs, &so.made, copied,
            )?;
            Ok(Led {
                told: ReportSo {
                    report,
                    ahead: so.ahead,
                },
                whole: so.made.is_ok(),
            })
        }
    }
}

// The last piece is put, whatever the run came to.
fn lead_order<K: Kit, N: Namer, R: Wait>(
    rt: &R,
    alloc: Global,
    shop: &Shop<K, N>,
    order: &Order,
    executor: &Txt,
    args: &Value,
    outputs: u32,
    index: u32,
    ahead: Option<Left>,
    producer: Producer,
    eye: &mut Eye,
) -> Result<ReportSo, Memory>
    requires desc { order.now.desc ≡ Some (DescSeen.Exec executor.now args.now outputs 0) }
    requires takes { Takes K.gives N.digest shop.now order.now }
    requires flow { K.gives shop.now.kit ≡ gives }
    requires inputs { InputsInOrder (job_view shop.now.job) }
    requires eye { eye.old.of ≡ shop.now.shelves.of }
    requires led { IsLedBy (job_view shop.now.job).inputs order.now.inputs.items executor.now args.now outputs index producer }
    ensures of { eye.new.of ≡ eye.old.of }
    ensures answers { IfOk result (λ r. Answers K.gives N.digest shop.now order.now r.report) }
    ensures ahead { IfOk result (λ r. r.ahead ≡ true → IsSomeAnd ahead (IsAheadOf (job_view shop.now.job).inputs order.now)) }
{
    let mut producer = producer;
    let led = run_leading(
        rt,
        alloc,
        shop,
        order,
        executor,
        args,
        outputs,
        index,
        ahead,
        &mut producer,
        eye,
    );
    match led {
        Ok(Led { told, whole }) => {
            if whole {
                producer.put(rt, Piece::End);
            } else {
                producer.give_up(rt);
            }
            Ok(told)
        }
        Err(_) => {
            producer.give_up(rt);
            Err(Memory)
        }
    }
}

// By the kind of its task.
fn run<K: Kit, N: Namer, R: Wait>(
    rt: &R,
    alloc: Global,
    shop: &Shop<K, N>,
    order: &Order,
    ahead: Option<Left>,
    producer: Option<(Producer, u32)>,
    eye: &mut Eye,
) -> Result<ReportSo, Memory>
    requires takes { Takes K.gives N.digest shop.now order.now }
    requires flow { K.gives shop.now.kit ≡ gives }
    requires inputs { InputsInOrder (job_view shop.now.job) }
    requires read { IsRead (job_view shop.now.job).script }
    requires eye { eye.old.of ≡ shop.now.shelves.of }
    requires led { IfSome producer (λ p. IsLedOf (job_view shop.now.job).inputs order.now p.1 p.0) }
    ensures of { eye.new.of ≡ eye.old.of }
    ensures answers { IfOk result (λ r. Answers K.gives N.digest shop.now order.now r.report) }
    ensures ahead { IfOk result (λ r. r.ahead ≡ true → IsSomeAnd ahead (IsAheadOf (job_view shop.now.job).inputs order.now)) }
{
    match &order.desc {
        Some(
            Desc1::Exec {
                executor,
                args,
                outputs,
                ..
            },
        ) => match producer {
            None => {
                let so = run_alone(rt, alloc, shop, order, executor, args, *outputs, ahead, eye)?;
                Ok(so)
            }
            Some((producer, index)) => {
                let so = lead_order(
                    rt, alloc, shop, order, executor, args, *outputs, index, ahead, producer, eye,
                )?;
                Ok(so)
            }
        },
        _ => {
            let report = run_task(rt, alloc, shop, order, eye)?;
            Ok(ReportSo {
                report,
                ahead: false,
            })
        }
    }
}

/// Performs an order with its worker's gate and eye, as a worker does (`perform` of `ciel_task`): an executor's order may be answered with
/// what was computed ahead, where that is of its call and of the bytes that its own fetch gives, and it may have a stream of one of its
/// outputs, which has its last piece whatever the answer is.
///
/// Answers `Memory` for want of memory. The gate has entered the task then too.
pub fn perform_with<K: Kit, N: Namer, G: Gate, R: Wait>(
    rt: &R,
    alloc: Global,
    shop: &Shop<K, N>,
    order: &Order,
    ahead: Option<Left>,
    producer: Option<(Producer, u32)>,
    tools: &mut Tools<G>,
) -> Result<ReportSo, Memory>
    requires takes { Takes K.gives N.digest shop.now order.now }
    requires flow { K.gives shop.now.kit ≡ gives }
    requires inputs { InputsInOrder (job_view shop.now.job) }
    requires read { IsRead (job_view shop.now.job).script }
    requires eye { tools.old.eye.of ≡ shop.now.shelves.of }
    requires led { IfSome producer (λ p. IsLedOf (job_view shop.now.job).inputs order.now p.1 p.0) }
    ensures entered { IsEntered (G.entered tools.old.gate) order.now.task (G.entered tools.new.gate) }
    ensures of { tools.new.eye.of ≡ tools.old.eye.of }
    ensures answers { IfOk result (λ r. Answers K.gives N.digest shop.now order.now r.report) }
    ensures ahead { IfOk result (λ r. r.ahead ≡ true → IsSomeAnd ahead (IsAheadOf (job_view shop.now.job).inputs order.now)) }
{
    tools.gate.enter(&order.task);
    let report = run(rt, alloc, shop, order, ahead, producer, &mut tools.eye);
    tools.gate.leave(&order.task);
    report
}
