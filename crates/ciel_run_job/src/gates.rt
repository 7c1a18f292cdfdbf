//! The gates of a run: those of its workers are lent to the crew, and the others stay aside.

ghost use Rattle.std.specs.Prelude.{◌≡◌, ◌≤◌, ◌++◌, IfOk, OnOk, drop, length, take};

use sky_base::text::Memory;

/// Takes the gates behind the first so many away.
pub fn set_aside<G: Drop>(gates: &mut Vec<G>, workers: usize) -> Result<Vec<G>, Memory>
    requires enough { workers ≤ length gates.old.items }
    ensures first { OnOk result (gates.new.items ≡ take workers gates.old.items) }
    ensures others { IfOk result (λ v. v.items ≡ drop workers gates.old.items) }
{
    match gates.split_off(workers) {
        Ok(others) => Ok(others),
        Err(_) => Err(Memory),
    }
}

/// Puts gates behind others.
pub fn put_behind<G: Drop>(gates: &mut Vec<G>, others: &mut Vec<G>) -> Result<(), Memory>
    ensures { OnOk result (gates.new.items ≡ gates.old.items ++ others.old.items) }
{
    match gates.append(others) {
        Ok(()) => Ok(()),
        Err(_) => Err(Memory),
    }
}
