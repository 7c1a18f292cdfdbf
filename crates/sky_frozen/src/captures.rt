// The functions of a script with the names that each uses, found by look-ups.

ghost use Rattle.std.specs.Prelude.{◌≡◌, IfOk, MatchOption, None};
ghost use Rattle.sky_base.specs.Eval.{find_fun};
ghost use Rattle.sky_base.specs.ScriptView.{funs_view};
ghost use Rattle.sky_frozen.specs.Keys.{AreUses, UsesAre};

use crate::keys::keys_of;
use sky_base::script::FunDef;
use sky_base::text::{Memory, Txt};
use sky_base::value::Pairs;
use sky_base_scope::program::Program;
use std::alloc::Global;
use std::marker::Model;

/// A script with the names that each of its functions uses, which are those that it may capture. Contracts see it as the script.
#[derive(Drop)]
pub struct Captures<'b, 'a> {
    program: &'b Program<'a>,
    // For each function, in order, the names that it uses.
    uses: Vec<Pairs>,
}

impl<'b, 'a> Model for Captures<'b, 'a> {
    ghost use Rattle.sky_base.specs.Tree as logic;
    ghost use Rattle.sky_base.specs.ScriptCode.{script_code};
    ghost use Rattle.sky_frozen.specs.Keys.{AreUses};

    ghost Value = { logic.Script };

    ghost coded = { script_code };

    ghost view = { λ c. c.program.now };

    ghost invariant = { λ c. AreUses c.uses.items c.program.now.funs };
}

impl<'b, 'a> Captures<'b, 'a> {
    /// The script with the names that each function uses, made once for all states that are tested.
    ///
    /// Answers `Memory` for want of memory.
    pub fn new(alloc: Global, program: &'b Program<'a>) -> Result<Captures<'b, 'a>, Memory>
        ensures { IfOk result (λ c. c ≡ program.now) }
    {
        let uses = uses_of(alloc, program.funs())?;
        Ok(Captures { program, uses })
    }

    /// The names that the function of this name uses, as the keys of a dictionary; `None` where the script has no such function.
    pub fn uses(&self, fun: &Txt) -> Option<&Pairs>
        ensures { MatchOption result (find_fun fun.now self.now.funs ≡ None) (λ keys. UsesAre keys.now (find_fun fun.now self.now.funs)) }
    {
        let Some(place) = self.program.place(fun) else {
            return None;
        };
        match self.uses.get(place) {
            Some(keys) => Some(keys),
            None => None,
        }
    }
}

// The names that each function uses, in the order of the functions.
fn uses_of(alloc: Global, funs: &[FunDef]) -> Result<Vec<Pairs>, Memory>
    ensures { IfOk result (λ index. AreUses index.items (funs_view funs.now)) }
{
    let mut index = Vec::new(alloc);
    for fun in funs {
        let keys = keys_of(alloc, fun.uses.as_slice())?;
        let Ok(()) = index.push(keys) else {
            return Err(Memory);
        };
    }
    Ok(index)
}
