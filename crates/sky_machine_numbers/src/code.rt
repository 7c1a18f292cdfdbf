// A script made ready to be run.

ghost use Rattle.std.specs.Prelude.{◌≡◌, ◌++◌, IfOk, length};
ghost use Rattle.sky_base.specs.ScriptView.{funs_view};
ghost use Rattle.sky_base_law.specs.Nodes.{pre_funs};
ghost use Rattle.sky_machine_code.specs.Numbers.{starts_from};
ghost use Rattle.sky_machine_numbers.specs.Filled.{Filled, Fits};
ghost use Rattle.sky_machine_numbers.specs.Tabled.{TablesOf};

use crate::nodes::Nodes;
use crate::parts::list_parts;
use crate::stmts::number_block;
use crate::tables::Tables;
use sky_base::script::{FunDef, Script};
use sky_base::text::Memory;
use sky_machine_code::code::Code;
use sky_machine_code::places::Places;
use std::alloc::Global;

/// A script that can be run: with its functions by their names and the numbers of its nodes, and with its nodes by their
/// numbers, by which a saved stack is taken up again.
#[derive(Drop)]
pub struct Numbered<'a> {
    pub code: Code<'a>,
    pub nodes: Nodes<'a>,
}

/// The tables of the script, by which it is run. Each node is met once.
///
/// Answers `Memory` for want of memory.
pub fn number_script(alloc: Global, script: &Script) -> Result<Tables, Memory>
    ensures { IfOk result (TablesOf script.now) }
{
    let places = Places::new(alloc, script)?;
    let _nodes = script.nodes();
    let mut ends = Vec::new(alloc);
    let mut starts = Vec::new(alloc);
    number_block(&mut ends, script.main())?;
    number_funs(&mut ends, &mut starts, script.funs().as_slice())?;
    let mut firsts = Vec::new(alloc);
    let mut parts = Vec::new(alloc);
    list_parts(ends.as_slice(), &mut firsts, &mut parts)?;
    Ok(Tables::of(places, ends, starts, firsts, parts))
}

// The blocks of functions, with the node of each.
fn number_funs(ends: &mut Vec<u32>, starts: &mut Vec<u32>, funs: &[FunDef]) -> Result<(), Memory>
    requires { Fits ends.old.items (pre_funs (funs_view funs.now)) }
    ensures ends { IfOk result (λ _. Filled ends.old.items ends.new.items (pre_funs (funs_view funs.now))) }
    ensures starts { IfOk result (λ _. starts.new.items ≡ starts.old.items ++ starts_from (funs_view funs.now) (length ends.old.items)) }
{
    let mut rest = funs;
    while let Some((fun, more)) = rest.split_first() {
        let Ok(()) = starts.push(ends.len() as u32) else {
            return Err(Memory);
        };
        number_block(ends, &fun.body)?;
        rest = more;
    }
    Ok(())
}
