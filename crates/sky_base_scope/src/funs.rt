// The functions of a script as values, and what a call of one runs.

ghost use Rattle.std.specs.Prelude.{◌≡◌, Some, None, IfOk, MatchOption};
ghost use Rattle.sky_base.specs.Kept.{Kept};
ghost use Rattle.sky_base.specs.View.{view};
ghost use Rattle.sky_base.specs.OpView.{Answers};
ghost use Rattle.sky_base.specs.Eval.{find_fun, fun_named, closed, is_one_of, body_of};
ghost use Rattle.sky_base_scope.specs.RunView.{code_of};

use crate::program::Program;
use crate::state::State;
use sky_base::fault::FaultKind;
use sky_base::op::{OpRefusal, limited};
use sky_base::stmt::Block;
use sky_base::text::Txt;
use sky_base::value::{Pairs, Value};
use std::alloc::Global;

/// The function of this name as a value, which captures nothing; Unknown where there is none.
pub fn fun_named(alloc: Global, script: &Program, name: &Txt) -> Result<Value, OpRefusal>
    ensures answer { Answers result (fun_named (find_fun name.now script.now.funs) name.now) }
    ensures kept { IfOk result (λ v. Kept (view v)) }
{
    match script.find(name) {
        Some(_) => {
            let name = name.share()?;
            let caught = Pairs::new(alloc);
            Ok(limited(Value::Fun { name, caught })?)
        }
        None => Err(OpRefusal::Refused(FaultKind::Unknown)),
    }
}

/// The function of this name with those of the variables that its body uses; Unknown where there is none, then TooDeep,
/// TooLarge where it passes a limit.
pub fn closed(
    alloc: Global,
    script: &Program,
    state: &State,
    name: &Txt,
) -> Result<Value, OpRefusal>
    ensures answer { Answers result (closed (find_fun name.now script.now.funs) name.now state.now.vars) }
    ensures kept { IfOk result (λ v. Kept (view v)) }
{
    let Some(fun) = script.find(name) else {
        return Err(OpRefusal::Refused(FaultKind::Unknown));
    };
    let caught = state.caught(alloc, fun.uses.as_slice())?;
    let name = name.share()?;
    Ok(limited(Value::Fun { name, caught })?)
}

/// Whether a text is among others.
pub fn is_one_of(texts: &[Txt], text: &Txt) -> bool
    ensures { result ≡ is_one_of text.now texts.now }
{
    for other in texts {
        if text.as_str().cmp(other.as_str()).is_eq() {
            return true;
        }
    }
    false
}

/// What a call of a function runs.
#[derive(Drop)]
pub struct Code<'a> {
    pub params: &'a [Txt],
    pub block: &'a Block,
}

/// What a call of the function of this name runs; the empty name is that of the main body.
#[tactic(auto, using(crate::proofs::OpLaw::found_bodies))]
pub fn code_of<'a>(script: &'a Program, name: &Txt) -> Option<Code<'a>>
    ensures { MatchOption result (code_of (body_of name.now script.now) ≡ None)
        (λ c. code_of (body_of name.now script.now) ≡ Some (c.params.now, c.block.now)) }
{
    if name.is_empty() {
        return Some(Code {
            params: &[],
            block: script.main(),
        });
    }
    match script.find(name) {
        Some(fun) => Some(Code {
            params: fun.params.as_slice(),
            block: &fun.body,
        }),
        None => None,
    }
}
