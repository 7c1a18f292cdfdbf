// Whether the values that an entry keeps are of the kinds that its row names.

ghost use Rattle.std.specs.Prelude.{◌≡◌, IsTrue, IsFalse};
ghost use Rattle.sky_base.specs.View.{vals_of};
ghost use Rattle.sky_state.specs.Table.{keeps, IsStep, IsOpenCall, IsWaiting};
ghost use Rattle.sky_state.specs.Fits.{OfKinds, TakenFrom, Two, One, IsList, IsNumber, IsReference, IsListOfReferences, AllReferences, UpToLength};
ghost use Rattle.sky_state.specs.StandView.{stack_view};
ghost use Rattle.sky_frozen_fits.specs.Rows.{row_view};

use crate::row::RowAt;
use sky_base::value::Value;

/// How many values belong to the entry.
pub fn kept(row: &RowAt) -> u64
    ensures { result ≡ keeps (row_view row.now) }
{
    match row {
        RowAt::Pending { kept, .. } => *kept,
        RowAt::Turn { .. } => 2,
        RowAt::Star | RowAt::Outputs => 1,
        RowAt::Before | RowAt::Ran { .. } | RowAt::OpenCall | RowAt::NoStep => 0,
    }
}

/// Whether there is such a step.
pub fn is_step(row: &RowAt) -> bool
    ensures yes { IsTrue result → IsStep (row_view row.now) }
    ensures no { IsFalse result → IsStep (row_view row.now) → ⊥ }
{
    !matches!(row, RowAt::NoStep)
}

/// Whether the entry is an open call.
pub fn is_open_call(row: &RowAt) -> bool
    ensures yes { IsTrue result → IsOpenCall (row_view row.now) }
    ensures no { IsFalse result → IsOpenCall (row_view row.now) → ⊥ }
{
    matches!(row, RowAt::OpenCall)
}

/// Whether the entry waits.
pub fn is_waiting(row: &RowAt) -> bool
    ensures yes { IsTrue result → IsWaiting (row_view row.now) }
    ensures no { IsFalse result → IsWaiting (row_view row.now) → ⊥ }
{
    matches!(row, RowAt::Star | RowAt::Outputs)
}

/// Whether the values of an entry are of the kinds that the row names; the number of a `for` is from 0 to its list's length.
pub fn of_kinds(row: &RowAt, values: &[Value]) -> bool
    ensures kinds { IsTrue result → OfKinds (row_view row.now) (stack_view values.now) }
    ensures taken { IsTrue result → TakenFrom (row_view row.now) (stack_view values.now) }
    ensures no { IsFalse result → OfKinds (row_view row.now) (stack_view values.now) → TakenFrom (row_view row.now) (stack_view values.now) → ⊥ }
{
    match row {
        RowAt::Turn { .. } => is_turn(values),
        RowAt::Star => is_reference(values),
        RowAt::Outputs => is_references(values),
        RowAt::Pending { .. }
        | RowAt::Before
        | RowAt::Ran { .. }
        | RowAt::OpenCall
        | RowAt::NoStep => true,
    }
}

// A list, and a number from 0 to its length.
fn is_turn(values: &[Value]) -> bool
    ensures kinds { IsTrue result → Two (λ v u. IsList v × IsNumber u) (stack_view values.now) }
    ensures taken { IsTrue result → Two UpToLength (stack_view values.now) }
    ensures no { IsFalse result → Two UpToLength (stack_view values.now) → ⊥ }
{
    let [first, second] = values else {
        return false;
    };
    let Value::List(list) = first else {
        return false;
    };
    let Value::Int(taken) = second else {
        return false;
    };
    if *taken < 0 {
        return false;
    }
    *taken as u64 <= list.len() as u64
}

// One reference.
fn is_reference(values: &[Value]) -> bool
    ensures yes { IsTrue result → One IsReference (stack_view values.now) }
    ensures no { IsFalse result → One IsReference (stack_view values.now) → ⊥ }
{
    let [value] = values else {
        return false;
    };
    matches!(value, Value::Ref(_))
}

// One list of references.
fn is_references(values: &[Value]) -> bool
    ensures yes { IsTrue result → One IsListOfReferences (stack_view values.now) }
    ensures no { IsFalse result → One IsListOfReferences (stack_view values.now) → ⊥ }
{
    let [value] = values else {
        return false;
    };
    let Value::List(list) = value else {
        return false;
    };
    all_references(list.as_slice())
}

// Each is a reference.
fn all_references(values: &[Value]) -> bool
    ensures yes { IsTrue result → AllReferences (vals_of values.now) }
    ensures no { IsFalse result → AllReferences (vals_of values.now) → ⊥ }
{
    let mut rest = values;
    while let Some((value, more)) = rest.split_first() {
        let Value::Ref(_) = value else {
            return false;
        };
        rest = more;
    }
    true
}
