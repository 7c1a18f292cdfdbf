//! A script with what is looked up in it where descriptions and objects are tested.

ghost use Rattle.std.specs.Prelude.{◌≡◌, IfOk, IsFalse, IsTrue};
ghost use Rattle.sky_base.specs.Eval.{find_fun, is_one_of};
ghost use Rattle.sky_base.specs.View.{view};
ghost use Rattle.sky_base_law.specs.Sound.{Sound};
ghost use Rattle.ciel_log_fits.specs.Calls.{TakesMany};

use sky_base::text::{Memory, Txt};
use sky_base::value::{Vals, Value};
use sky_base_scope::funs::is_one_of;
use sky_base_scope::program::Program;
use sky_frozen::captures::Captures;
use sky_frozen::values::is_sound;
use std::alloc::Global;
use std::marker::Model;

/// A script with the names that its functions use. It is made once for all reports that are tested. Contracts see it as the script.
#[derive(Drop)]
pub struct Allowed<'b, 'a> {
    program: &'b Program<'a>,
    captures: Captures<'b, 'a>,
}

impl<'b, 'a> Model for Allowed<'b, 'a> {
    ghost use Rattle.std.specs.Prelude.{◌≡◌};
    ghost use Rattle.sky_base.specs.Tree as logic;
    ghost use Rattle.sky_base.specs.ScriptCode.{script_code};

    ghost Value = { logic.Script };

    ghost coded = { script_code };

    ghost view = { λ a. a.program.now };

    ghost invariant = { λ a. a.captures ≡ a.program.now };
}

impl<'b, 'a> Allowed<'b, 'a> {
    /// The script with what is looked up.
    ///
    /// Answers `Memory` for want of memory.
    pub fn new(alloc: Global, program: &'b Program<'a>) -> Result<Allowed<'b, 'a>, Memory>
        ensures { IfOk result (λ a. a ≡ program.now) }
    {
        let captures = Captures::new(alloc, program)?;
        Ok(Allowed { program, captures })
    }

    /// Whether a value is sound for the script.
    pub(crate) fn is_sound(&self, value: &Value) -> bool
        ensures yes { IsTrue result → Sound self.now (view value.now) }
        ensures no { IsFalse result → Sound self.now (view value.now) → ⊥ }
    {
        is_sound(&self.captures, value)
    }

    /// Whether the job has an input of this name.
    pub(crate) fn has_key(&self, key: &Txt) -> bool
        ensures { result ≡ is_one_of key.now self.now.keys }
    {
        is_one_of(self.program.keys(), key)
    }

    /// Whether the script has a function of this name with as many parameters.
    pub(crate) fn has_function(&self, fun: &Txt, args: &Vals) -> bool
        ensures yes { IsTrue result → TakesMany (find_fun fun.now self.now.funs) args.now }
        ensures no { IsFalse result → TakesMany (find_fun fun.now self.now.funs) args.now → ⊥ }
    {
        match self.program.find(fun) {
            Some(function) => function.params.as_slice().len() == args.len(),
            None => false,
        }
    }
}
