//! The names of descriptions, and of what a task makes.

ghost use Rattle.std.specs.Prelude.{◌≡◌, IfOk, map};
ghost use Rattle.sky_base.specs.Name.{digested};
ghost use Rattle.sky_base.specs.ObjectView.{desc_view};
ghost use Rattle.sky_base.specs.View.{view};
ghost use Rattle.sky_base.specs.declared.object.Desc1.{Desc1 as DescSeen};
ghost use Rattle.ciel_name.specs.Laws.{SpelledDesc};
ghost use Rattle.ciel_journal.specs.Job.{Each};
ghost use Rattle.ciel_master_board.specs.Reports.{IsNamed};
ghost use Rattle.ciel_master_safe.specs.Reports.{names_from, outputs_of};
ghost use Rattle.ciel_log_fits.specs.Named.{desc_of};

use ciel_name::name::Namer;
use ciel_name::object::canon;
use sky_base::name::Name;
use sky_base::names::Names;
use sky_base::object::{Desc1, Named};
use sky_base::text::{Memory, Txt};
use sky_base::value::Value;
use std::alloc::Global;

/// These descriptions, each with its name.
///
/// Answers `Memory` for want of memory.
pub fn name_all<N: Namer>(alloc: Global, namer: &N, descs: &[Desc1]) -> Result<Vec<Named>, Memory>
    requires spelled { Each (λ (d : DescSeen). SpelledDesc (desc_view d)) descs.now }
    ensures descs { IfOk result (λ ns. map desc_of ns.items ≡ descs.now) }
    ensures named { IfOk result (λ ns. Each (IsNamed (N.digest namer.now)) ns.items) }
{
    let mut named = Vec::new(alloc);
    for desc in descs {
        let one = with_name(alloc, namer, desc)?;
        let Ok(()) = named.push(one) else {
            return Err(Memory);
        };
    }
    Ok(named)
}

/// A description with its name.
fn with_name<N: Namer>(alloc: Global, namer: &N, desc: &Desc1) -> Result<Named, Memory>
    ensures name { IfOk result (λ n. n.name ≡ digested (N.digest namer.now) (desc_view desc.now)) }
    ensures desc { IfOk result (λ n. n.desc ≡ desc.now) }
{
    let name = name_of(alloc, namer, desc)?;
    let desc = desc.copy()?;
    Ok(Named { name, desc })
}

/// The name of a description.
fn name_of<N: Namer>(alloc: Global, namer: &N, desc: &Desc1) -> Result<Name, Memory>
    ensures { IfOk result (λ n. n ≡ digested (N.digest namer.now) (desc_view desc.now)) }
{
    let spelled = canon(alloc, desc)?;
    Ok(namer.name(spelled.as_slice()))
}

/// The names of what the task that goes by a description makes, in order; the root task, which goes by none, makes nothing.
///
/// Answers `Memory` for want of memory.
pub fn output_names<N: Namer>(
    alloc: Global,
    namer: &N,
    desc: &Option<Desc1>,
) -> Result<Names, Memory>
    ensures { IfOk result (λ ns. ns ≡ outputs_of (N.digest namer.now) desc.now) }
{
    match desc {
        None | Some(Desc1::Input { .. }) => Ok(Names::new(alloc)),
        Some(
            Desc1::Exec {
                executor,
                args,
                outputs,
                ..
            },
        ) => names_of_outputs(alloc, namer, executor, args, *outputs),
        Some(call) => {
            let mut names = Names::new(alloc);
            names.push(name_of(alloc, namer, call)?)?;
            Ok(names)
        }
    }
}

/// The names of all outputs of an executor's task, in order.
fn names_of_outputs<N: Namer>(
    alloc: Global,
    namer: &N,
    executor: &Txt,
    args: &Value,
    outputs: u32,
) -> Result<Names, Memory>
    ensures { IfOk result (λ ns. ns ≡ names_from (N.digest namer.now) executor.now (view args.now) outputs 0 outputs) }
{
    let mut names = Names::new(alloc);
    for index in 0..outputs {
        let output = Desc1::Exec {
            executor: executor.share()?,
            args: args.copy()?,
            outputs,
            index,
        };
        names.push(name_of(alloc, namer, &output)?)?;
    }
    Ok(names)
}
