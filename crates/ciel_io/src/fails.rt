// Lists of the calls that are to fail.

ghost use Rattle.std.specs.Prelude.{◌≡◌};
ghost use Rattle.ciel_io.specs.Faults.{is_listed};

/// Whether the call of this number, from 1, is one of those that are to fail.
pub(crate) fn has_call(fails: &[u32], number: u64) -> bool
    ensures { result ≡ is_listed fails.now number }
{
    fails.iter().any(|fail| u64::from(*fail) == number)
}
