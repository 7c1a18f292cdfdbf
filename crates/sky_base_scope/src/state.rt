// The variables of a body that is run, and how many nodes its task has visited.

ghost use Rattle.std.specs.Prelude.{List, ◌≡◌, ◌≢◌, ◌<◌, ◌^◌, ◌+◌, ◌⊎◌, true, false, nat_lt, Option, Some, None, IfOk, IfErr, IfSome, MatchOption};
ghost use Rattle.std.specs.Option.{option_map};
ghost use Rattle.sky_base.specs.Kept.{Kept};
ghost use Rattle.sky_base.specs.Val.{no_pairs, null};
ghost use Rattle.sky_base.specs.View.{view};
ghost use Rattle.sky_base.specs.Op.{find, grown};
ghost use Rattle.sky_base.specs.Res.{visits, counted, with_vars, fault_at};
ghost use Rattle.sky_base.specs.Eval.{set_var, bind, caught_by};
ghost use Rattle.sky_base.specs.TreeView.{at};
ghost use Rattle.sky_base_known.specs.Walk.{Row};
ghost use Rattle.sky_base_scope.specs.Plain.{add_to, put_in};
ghost use Rattle.sky_base_scope.specs.RunView.{Changes, Grows, KeptVals, KeptPairs, is_list};

use crate::cut::{Cut, fault, raise};
use sky_base::fault::FaultKind;
use sky_base::op::{OpRefusal, append, plus, set_at};
use sky_base::text::{Memory, Txt};
use sky_base::value::{Pairs, Vals, Value};
use std::alloc::Global;
use std::marker::Model;

/// How many nodes a task may visit.
pub const MOST_VISITS: u32 = 1_000_000;

/// The variables of a body, each within the limits, and how many nodes its task has visited.
#[derive(Drop)]
pub struct State {
    vars: Pairs,
    count: u32,
}

impl Model for State {
    ghost use Rattle.sky_base_scope.specs.Plain.{Vars};
    ghost use Rattle.sky_base_scope.specs.StateCode.{state_code};
    ghost use Rattle.sky_base_scope.specs.RunView.{KeptPairs};

    ghost Value = { Vars };

    ghost coded = { state_code };

    ghost view = { λ a. record { vars = a.vars; count = a.count } };

    ghost invariant = { λ a. KeptPairs a.vars };
}

impl State {
    /// No variables, after so many visits.
    pub fn new(alloc: Global, count: u32) -> State
        ensures { result ≡ record { vars = no_pairs; count = count } }
    {
        State {
            vars: Pairs::new(alloc),
            count,
        }
    }

    /// These variables, after so many visits.
    pub fn of(vars: Pairs, count: u32) -> State
        requires { KeptPairs vars }
        ensures { result ≡ record { vars = vars; count = count } }
    {
        State { vars, count }
    }

    /// The variables.
    pub fn vars(&self) -> &Pairs
        ensures variables { result.now ≡ self.now.vars }
        ensures kept { KeptPairs result.now }
    {
        &self.vars
    }

    /// How many nodes the task has visited.
    pub fn count(&self) -> u32
        ensures { result ≡ self.now.count }
    {
        self.count
    }

    /// Goes on after a call whose body ended with this state: the variables stay.
    pub fn resume(&mut self, inner: &State)
        ensures { self.new ≡ with_vars self.old.vars inner.now }
    {
        self.count = inner.count;
    }

    /// Visits a node: TooLong at its place where the task has visited 1,000,000.
    #[tactic(auto, using(std::proofs::lemmas::Bool::Decides::nat_tests), unfolding(sky_base::specs::Res::visits))]
    pub fn visit(&mut self, line: u32, col: u32) -> Result<(), Cut>
        ensures ok { IfOk result (λ _. (nat_lt self.old.count visits ≡ true) × (self.new ≡ counted self.old)) }
        ensures cut { IfErr result (λ c. (nat_lt self.old.count visits ≡ false) × (c ≡ Cut.Fault (fault_at FaultKind.TooLong (at line col)))) }
        ensures still { IfErr result (λ _. self.new ≡ self.old) }
    {
        if self.count >= MOST_VISITS {
            return Err(fault(FaultKind::TooLong, line, col));
        }
        self.count += 1;
        Ok(())
    }

    /// The value of a variable, copied, if it has one.
    #[tactic(auto, using(crate::proofs::Vars::vars))]
    pub fn find(&self, name: &Txt) -> Result<Option<Value>, Memory>
        ensures value { IfOk result (λ o. find name.now self.now.vars ≡ option_map view o) }
        ensures kept { IfOk result (λ o. IfSome o (λ v. Kept (view v))) }
    {
        match self.vars.find(name) {
            Some(v) => Ok(Some(v.copy()?)),
            None => Ok(None),
        }
    }

    /// Sets a variable. After `Memory` the state is as it was.
    #[tactic(auto, using(crate::proofs::Vars::vars))]
    pub fn set(&mut self, name: &Txt, v: Value) -> Result<(), Memory>
        requires { Kept (view v) }
        ensures ok { IfOk result (λ _. self.new ≡ set_var name.now (view v) self.old) }
        ensures still { IfErr result (λ _. self.new ≡ self.old) }
    {
        self.vars.insert(name.share()?, v)
    }

    /// Binds parameters to arguments, over what the function captured, in place of all variables. After `Memory` the
    /// state is as it was.
    pub fn bind(&mut self, caught: &Pairs, params: &[Txt], args: &Vals) -> Result<(), Memory>
        requires caught { KeptPairs caught.now }
        requires args { KeptVals args.now }
        ensures ok { IfOk result (λ _. self.new ≡ with_vars (bind params.now args.now caught.now) self.old) }
        ensures still { IfErr result (λ _. self.new ≡ self.old) }
    {
        self.vars = bound(caught, params, args)?;
        Ok(())
    }

    /// Those of the variables whose names are among these.
    #[tactic(auto, using(crate::proofs::Catches::catches))]
    pub fn caught(&self, alloc: Global, names: &[Txt]) -> Result<Pairs, Memory>
        ensures { IfOk result (λ ps. ps ≡ caught_by names.now self.now.vars) }
    {
        let mut caught = Pairs::new(alloc);
        // The names of the variables rise.
        let _vars = self.vars.as_slice();
        for name in names {
            if let Some(v) = self.vars.find(name) {
                caught.insert(name.share()?, v.copy()?)?;
            }
        }
        Ok(caught)
    }

    // The value of a variable, which is null from then on, so that nobody else need hold the value. After `Memory` the
    // state is as it was.
    #[tactic(auto, using(crate::proofs::Vars::vars))]
    fn take(&mut self, name: &Txt) -> Result<Option<Value>, Memory>
        ensures none { IfOk result (λ o. o ≡ None → find name.now self.old.vars ≡ None) }
        ensures some { IfOk result (λ o. IfSome o (λ v. (find name.now self.old.vars ≡ Some (view v))
            × (self.new ≡ set_var name.now null self.old) × Kept (view v))) }
        ensures still { IfOk result (λ o. o ≡ None → self.new ≡ self.old) }
        ensures err { IfErr result (λ _. self.new ≡ self.old) }
    {
        let Some(v) = self.find(name)? else {
            return Ok(None);
        };
        self.set(name, Value::Null)?;
        Ok(Some(v))
    }

    /// `x += e;` with the places of the name and of the `+=`. A list that nobody else holds grows in
    /// place. After a fault the variables are as they were. After `Memory` the variable may be
    /// null, and nothing else has changed.
    #[tactic(auto, using(crate::proofs::Vars::vars))]
    pub fn grow(
        &mut self,
        alloc: Global,
        name: &Txt,
        name_line: u32,
        name_col: u32,
        line: u32,
        col: u32,
        e: Value,
    ) -> Result<(), Cut>
        requires { Kept (view e) }
        ensures changes { (rows : List Row) → Changes result rows self.new
            (add_to (find name.now self.old.vars) name.now (at name_line name_col) (at line col) (view e) rows self.old) }
        ensures still { IfErr result (λ c. c ≢ Cut.Memory → self.new ≡ self.old) }
        ensures memory { IfErr result (λ _. (self.new ≡ self.old) ⊎ (self.new ≡ set_var name.now null self.old)) }
    {
        let Some(mut v) = self.take(name)? else {
            return Err(fault(FaultKind::Unknown, name_line, name_col));
        };
        match grow(alloc, &mut v, e) {
            Ok(()) => {}
            Err(refusal) => {
                self.set(name, v)?;
                return Err(raise(refusal, line, col));
            }
        }
        self.set(name, v)?;
        Ok(())
    }

    /// `x[i] = e;` with the places of the name and of the `[`. A list or a dictionary that nobody else
    /// holds is changed in place. After a fault the variables are as they were. After `Memory` the variable may be
    /// null, and nothing else has changed.
    #[tactic(auto, using(crate::proofs::Vars::vars))]
    pub fn put(
        &mut self,
        name: &Txt,
        name_line: u32,
        name_col: u32,
        line: u32,
        col: u32,
        i: &Value,
        e: Value,
    ) -> Result<(), Cut>
        requires i { Kept (view i.now) }
        requires e { Kept (view e) }
        ensures changes { (rows : List Row) → Changes result rows self.new
            (put_in (find name.now self.old.vars) name.now (at name_line name_col) (at line col) (view i.now) (view e) rows self.old) }
        ensures still { IfErr result (λ c. c ≢ Cut.Memory → self.new ≡ self.old) }
        ensures memory { IfErr result (λ _. (self.new ≡ self.old) ⊎ (self.new ≡ set_var name.now null self.old)) }
    {
        let Some(mut v) = self.take(name)? else {
            return Err(fault(FaultKind::Unknown, name_line, name_col));
        };
        match set_at(&mut v, i, e) {
            Ok(()) => {}
            Err(refusal) => {
                self.set(name, v)?;
                return Err(raise(refusal, line, col));
            }
        }
        self.set(name, v)?;
        Ok(())
    }
}

// The parameters bound to the arguments, over what was captured.
fn bound(caught: &Pairs, params: &[Txt], args: &Vals) -> Result<Pairs, Memory>
    requires caught { KeptPairs caught.now }
    requires args { KeptVals args.now }
    ensures value { IfOk result (λ ps. ps ≡ bind params.now args.now caught.now) }
    ensures kept { IfOk result (λ ps. KeptPairs ps) }
{
    let mut vars = caught.copy()?;
    for (i, param) in params.iter().enumerate() {
        let Some(arg) = args.get(i) else {
            return Ok(vars);
        };
        vars.insert(param.share()?, arg.copy()?)?;
    }
    Ok(vars)
}

fn is_list(v: &Value) -> bool
    ensures { result ≡ is_list (view v.now) }
{
    matches!(v, Value::List(_))
}

// What `+=` makes of a value: a list gets a new last element.
#[tactic(auto, using(crate::proofs::Vars::grows))]
fn grow(alloc: Global, v: &mut Value, e: Value) -> Result<(), OpRefusal>
    requires v { Kept (view v.old) }
    requires e { Kept (view e) }
    ensures answer { Grows result (grown (view v.old) (view e)) v.new }
    ensures kept { Kept (view v.new) }
    ensures still { IfErr result (λ _. v.new ≡ v.old) }
{
    if is_list(v) {
        return append(v, e);
    }
    let sum = plus(alloc, v, &e)?;
    *v = sum;
    Ok(())
}
