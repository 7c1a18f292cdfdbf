// Forms that keep nothing, at their first or second step.

ghost use Rattle.std.specs.Prelude.{◌≡◌};
ghost use Rattle.std.specs.Option.{option_map};
ghost use Rattle.sky_base_law.specs.Opened as saved;
ghost use Rattle.sky_machine_entries.specs.Entries.{entry_of};
ghost use Rattle.sky_state.specs.StandView.{stack_view};

use sky_base::value::Value;
use sky_machine_entries::entry::Entry;

/// The form, at step 1 where nothing is kept.
pub fn at_first<'a>(step: u32, kept: &[Value], entry: Entry<'a>) -> Option<Entry<'a>>
    ensures { option_map entry_of result ≡ saved.at_first step (stack_view kept.now) (entry_of entry.entry) }
{
    if step == 1 && kept.is_empty() {
        Some(entry)
    } else {
        None
    }
}

/// The one form at step 1, or the other at step 2, where nothing is kept.
pub fn at_two<'a>(
    step: u32,
    kept: &[Value],
    first: Entry<'a>,
    second: Entry<'a>,
) -> Option<Entry<'a>>
    ensures { option_map entry_of result ≡ saved.at_two step (stack_view kept.now) (entry_of first.entry) (entry_of second.entry) }
{
    if !kept.is_empty() {
        return None;
    }
    match step {
        1 => Some(first),
        2 => Some(second),
        _ => None,
    }
}
