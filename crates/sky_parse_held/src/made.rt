// What is held of the text while it is read: its anonymous functions in the order of their words, the
// names in it, from which it is known at the end of a function which variables it captures, and the
// place of the first name that stands twice.

ghost use Rattle.std.specs.Prelude.{◌≡◌, ◌<◌, ◌≤◌, [], List, length, IfOk};
ghost use Rattle.sky_base.specs.TreeView.{at};
ghost use Rattle.sky_parse_grammar.specs.Lifted.{number_name, param_names};
ghost use Rattle.sky_base.specs.ScriptView.{funs_view};
ghost use Rattle.sky_parse_grammar.specs.Names.{first_of, same_params};
ghost use Rattle.sky_parse_grammar.specs.Nesting.{place_of};
ghost use Rattle.sky_parse_held.specs.Held.{nothing_held, seen_name, seen_twice, open_in, close_in};
ghost use Rattle.sky_parse_held.specs.Params.{params_view};

use crate::names::{parameters, uses};
use sky_base::script::{FunDef, Texts};
use sky_base::stmt::Block;
use sky_base::text::{Memory, Txt};
use std::alloc::Global;
use std::marker::Model;

/// A parameter, with the line and column of its name.
#[derive(Drop)]
pub struct Parameter {
    pub name: Txt,
    pub line: u32,
    pub col: u32,
}

/// What is held. A function whose body is being read has an empty body.
#[derive(Drop)]
pub struct Made {
    funs: Vec<FunDef>,
    names: Vec<Txt>,
    same: Option<(u32, u32)>,
}

impl Model for Made {
    ghost use Rattle.sky_parse_held.specs.Held.{Held, held_code};
    ghost use Rattle.sky_base.specs.ScriptView.{funs_view};
    ghost use Rattle.sky_parse_grammar.specs.Nesting.{place_of};

    ghost Value = { Held };

    ghost coded = { held_code };

    ghost view = { λ m. record { funs = funs_view m.funs.items; names = m.names.items; same = place_of m.same } };
}

/// A place that was found, else the other one.
fn or_else(found: Option<(u32, u32)>, other: Option<(u32, u32)>) -> Option<(u32, u32)>
    ensures { place_of result ≡ first_of (place_of found) (place_of other) }
{
    match found {
        Some(place) => Some(place),
        None => other,
    }
}

impl Made {
    /// Nothing yet.
    pub fn new(alloc: Global) -> Made
        ensures { result ≡ nothing_held }
    {
        Made {
            funs: Vec::new(alloc),
            names: Vec::new(alloc),
            same: None,
        }
    }

    /// Holds a name that stands in the text, and answers a second owner of it.
    pub fn seen(&mut self, name: &Txt) -> Result<Txt, Memory>
        ensures { IfOk result (λ x. (x ≡ name.now) × (self.new ≡ seen_name name.now self.old)) }
    {
        let own = name.share()?;
        match self.names.push(name.share()?) {
            Ok(()) => Ok(own),
            Err(_) => Err(Memory),
        }
    }

    /// Holds the place of a name that stands twice, if one was found and none before.
    pub fn twice(&mut self, found: Option<(u32, u32)>)
        ensures { self.new ≡ seen_twice (place_of found) self.old }
    {
        self.same = or_else(self.same, found);
    }

    /// Puts a function with these parameters and an empty body at the end. Answers its number, how many
    /// names stand in front of its body, and its name.
    #[tactic(auto, using(crate::proofs::MadeLaw::made))]
    pub fn open(
        &mut self,
        alloc: Global,
        line: u32,
        col: u32,
        params: &[Parameter],
    ) -> Result<(usize, usize, Txt), Memory>
        ensures number { IfOk result (λ x. (x.0 ≡ length self.old.funs) × (x.1 ≡ length self.old.names)
            × (x.2 ≡ number_name (length self.old.funs))) }
        ensures held { IfOk result (λ x. self.new ≡ seen_twice (same_params [] (params_view params.now))
            (open_in (at line col) (param_names (params_view params.now)) self.old)) }
    {
        let number = self.funs.len();
        let from = self.names.len();
        let Ok(()) = self.funs.reserve(1) else {
            return Err(Memory)
        };
        let Ok(name) = format!(in alloc; "#{number}") else {
            return Err(Memory)
        };
        let name = Txt::from_string(name)?;
        let (params, same) = parameters(alloc, params)?;
        let fun = FunDef {
            name: name.share()?,
            params,
            body: Block::of(Vec::new(alloc)),
            line,
            col,
            uses: Texts::of(Vec::new(alloc)),
        };
        self.funs.push_reserved(fun);
        self.same = or_else(self.same, same);
        Ok((number, from, name))
    }

    /// Gives the function of a number its body, in which the names stand from that of the other number on.
    pub fn close(
        &mut self,
        alloc: Global,
        number: usize,
        from: usize,
        body: Block,
    ) -> Result<(), Memory>
        requires number { number < length self.old.funs }
        requires from { from ≤ length self.old.names }
        ensures { IfOk result (λ x. self.new ≡ close_in number from body self.old) }
    {
        let uses = uses(
            alloc,
            self.funs[number].params.as_slice(),
            &self.names[from..],
        )?;
        let fun = &mut self.funs[number];
        fun.uses = uses;
        fun.body = body;
        Ok(())
    }

    /// The functions, and the place of the first name that stands twice.
    pub fn into_parts(self) -> (Vec<FunDef>, Option<(u32, u32)>)
        ensures funs { funs_view result.0.items ≡ self.funs }
        ensures same { place_of result.1 ≡ self.same }
    {
        (self.funs, self.same)
    }
}
