// What forms under way wait for: what the innermost of them does.

ghost use Rattle.std.specs.Prelude.{◌≡◌, [], ◌∷◌, Some, None, IfOk, MatchOption};
ghost use Rattle.sky_base.specs.TreeView.{exp_view, signs_view};
ghost use Rattle.sky_base_law.specs.Opened.{exp_node};
ghost use Rattle.sky_base_law.specs.Nodes.{node_at};
ghost use Rattle.sky_machine_entries.specs.Entries.{forms, entry_of, form_of, wait_of};
ghost use Rattle.sky_machine_waits.specs.Waits.{signs_of, sign_at, sign_of, waits_for, wait_in};

use sky_base::names::Names;
use sky_base::text::Memory;
use sky_base::tree::{Expr, SignAt};
use sky_machine_code::shape::{Shape, shape_of};
use sky_machine_entries::control::Wait;
use sky_machine_entries::entry::{Entry, InForm, Star};
use sky_machine_numbers::node::NodeRef;
use sky_machine_numbers::nodes::Nodes;
use std::alloc::Global;

/// What the forms under way, the outermost first, wait for in a script; none where the innermost of them doesn't wait.
///
/// Answers `Memory` for want of memory.
pub fn waiting(alloc: Global, nodes: &Nodes, entries: &[Entry]) -> Result<Option<Wait>, Memory>
    ensures { IfOk result (λ o. MatchOption o (wait_in nodes.now (forms entries.now) ≡ None)
        (λ q. wait_in nodes.now (forms entries.now) ≡ Some (wait_of q))) }
{
    match entries.last() {
        Some(entry) => {
            let wait = wait_at(alloc, nodes, entry)?;
            Ok(wait)
        }
        None => Ok(None),
    }
}

/// What a form waits for.
fn wait_at(alloc: Global, nodes: &Nodes, entry: &Entry) -> Result<Option<Wait>, Memory>
    ensures { IfOk result (λ o. MatchOption o (wait_in nodes.now (entry_of entry.now ∷ []) ≡ None)
        (λ q. wait_in nodes.now (entry_of entry.now ∷ []) ≡ Some (wait_of q))) }
{
    match entry {
        Entry::Form(InForm::Star(star)) => Ok(wait_of_star(nodes, star)),
        Entry::Form(InForm::ExecWait(exec)) => Ok(Some(Wait::All(copy(alloc, &exec.names)?))),
        _ => Ok(None),
    }
}

/// A `*` waits for the object of its reference, at its place.
fn wait_of_star(nodes: &Nodes, star: &Star) -> Option<Wait>
    ensures { MatchOption result (wait_in nodes.now (form_of (InForm.Star star.now) ∷ []) ≡ None)
        (λ q. wait_in nodes.now (form_of (InForm.Star star.now) ∷ []) ≡ Some (wait_of q)) }
{
    let signs = match nodes.at(star.node) {
        Some(NodeRef::Exp(e)) => signs_in(e),
        _ => return None,
    };
    match nth(signs, star.step) {
        Some(SignAt { line, col, .. }) => Some(Wait::One {
            line,
            col,
            name: star.name,
        }),
        None => None,
    }
}

/// The signs of a prefix; another expression has none.
fn signs_in<'a>(e: &'a Expr) -> &'a [SignAt]
    ensures { signs_view result.now ≡ signs_of (Some (exp_node (exp_view e.now))) }
{
    match shape_of(e) {
        Shape::Prefix { signs, .. } => signs,
        _ => &[],
    }
}

/// The sign at which a step of a prefix waits, if there is one: at step 1 + m the m-th from the inside.
fn nth(signs: &[SignAt], step: u128) -> Option<SignAt>
    ensures { MatchOption result (sign_at (signs_view signs.now) step ≡ None) (λ s. sign_at (signs_view signs.now) step ≡ Some (sign_of s)) }
{
    let behind = signs.len() as u128 + 1;
    if step < 2 {
        return None;
    }
    if behind < step {
        return None;
    }
    Some(signs[(behind - step) as usize])
}

/// The same names.
fn copy(alloc: Global, names: &Names) -> Result<Names, Memory>
    ensures { IfOk result (λ ns. ns ≡ names.now) }
{
    match Vec::from_slice(alloc, names.as_slice()) {
        Ok(items) => Ok(Names::of(items)),
        Err(_) => Err(Memory),
    }
}
