// Signs before an operand: the operand is pending, or a `*` waits.

ghost use Rattle.std.specs.Prelude.{◌≡◌, ◌-◌, ◌≤◌, reverse};
ghost use Rattle.std.specs.Option.{option_map};
ghost use Rattle.sky_base.specs.TreeView.{signs_view};
ghost use Rattle.sky_base_law.specs.Opened.{times, next_sign, sign_open, prefix_open};
ghost use Rattle.sky_machine_entries.specs.Entries.{entry_of};
ghost use Rattle.sky_state.specs.StandView.{stack_view};

use sky_base::tree::SignAt;
use sky_base::value::Value;
use sky_machine_entries::entry::{Entry, InForm, Prefix, Star};

/// Signs, at this step with these values. The sign next to the operand is done at step 2, the one before it at step 3; a `*` that
/// waits keeps its reference, and the signs before it in the text are still to come.
pub fn open_prefix<'a>(
    node: u32,
    signs: &'a [SignAt],
    step: u32,
    kept: &[Value],
) -> Option<Entry<'a>>
    ensures { option_map entry_of result ≡ prefix_open (signs_view signs.now) node step (stack_view kept.now) }
{
    match step {
        0 => None,
        1 => Some(Entry::Form(InForm::Prefix(Prefix { node, signs }))),
        _ => open_star(node, signs, step, kept),
    }
}

// A `*` waits.
fn open_star<'a>(node: u32, signs: &'a [SignAt], step: u32, kept: &[Value]) -> Option<Entry<'a>>
    requires { 2 ≤ step }
    ensures { option_map entry_of result ≡ sign_open (times next_sign (step - 1) (reverse (signs_view signs.now))) node step (stack_view kept.now) }
{
    let [value] = kept else {
        return None;
    };
    let Value::Ref(name) = value else {
        return None;
    };
    Some(Entry::Form(InForm::Star(Star {
        node,
        step: step as u128,
        name: *name,
        signs: all_but(signs, step - 1),
    })))
}

// All signs but so many at the end.
fn all_but<'a>(signs: &'a [SignAt], count: u32) -> &'a [SignAt]
    ensures { reverse (signs_view result.now) ≡ times next_sign count (reverse (signs_view signs.now)) }
{
    let left = signs.len().saturating_sub(count as usize);
    &signs[..left]
}
