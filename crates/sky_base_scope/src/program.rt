// A script with the places of its functions by their names, so that a call finds its function without
// a search through all of them.

ghost use Rattle.std.specs.Prelude.{◌≡◌, Some, None, MatchOption};
ghost use Rattle.sky_base.specs.Eval.{find_fun};
ghost use Rattle.sky_base.specs.ScriptView.{fun_view, funs_view};
ghost use Rattle.sky_base_scope.specs.FunPlace.{FindsEach, fun_place};

use crate::places::Places;
use sky_base::script::{FunDef, Script};
use sky_base::stmt::Block;
use sky_base::text::Txt;
use std::marker::Model;

/// A script whose functions are found by their names. Contracts see it as the script.
#[derive(Drop)]
pub struct Program<'a> {
    script: &'a Script,
    // The place of the first function of each name.
    places: &'a Places,
}

impl<'a> Model for Program<'a> {
    ghost use Rattle.sky_base.specs.Tree as logic;
    ghost use Rattle.sky_base.specs.ScriptCode.{script_code};
    ghost use Rattle.sky_base_scope.specs.FunPlace.{FindsEach};

    ghost Value = { logic.Script };

    ghost coded = { script_code };

    ghost view = { λ p. p.script.now };

    ghost invariant = { λ p. FindsEach p.places.now p.script.now.funs };
}

impl<'a> Program<'a> {
    /// The script with the places of its functions, in constant time.
    pub fn of(script: &'a Script, places: &'a Places) -> Program<'a>
        requires { FindsEach places.now script.now.funs }
        ensures { result ≡ script.now }
    {
        Program { script, places }
    }

    /// The first function of this name.
    #[tactic(auto, using(crate::proofs::FunPlaces::fun_places))]
    pub fn find(&self, name: &Txt) -> Option<&FunDef>
        ensures { MatchOption result (find_fun name.now self.now.funs ≡ None) (λ f. find_fun name.now self.now.funs ≡ Some (fun_view f.now)) }
    {
        match self.places.get(name) {
            Some(place) => match self.script.funs().as_slice().get(place) {
                Some(fun) => Some(fun),
                None => None,
            },
            None => None,
        }
    }

    /// The place of the first function of this name, among the functions from 0.
    pub fn place(&self, name: &Txt) -> Option<usize>
        ensures { result ≡ fun_place name.now self.now.funs }
    {
        self.places.get(name)
    }

    /// The functions, in the order of the text.
    pub fn funs(&self) -> &'a [FunDef]
        ensures { funs_view result.now ≡ self.now.funs }
    {
        self.script.funs().as_slice()
    }

    /// The statements outside of functions.
    pub fn main(&self) -> &'a Block
        ensures { result.now ≡ self.now.main }
    {
        self.script.main()
    }

    /// The names of the inputs.
    pub fn keys(&self) -> &[Txt]
        ensures { result.now ≡ self.now.keys }
    {
        self.script.keys().as_slice()
    }
}
