// The list of the forms under way, the innermost at its end.

ghost use Rattle.std.specs.Prelude.{◌≡◌, ◌+◌, ◌*◌, List, [], ◌∷◌, ◌++◌, IfOk, IfSome, IfNone, length};
ghost use Rattle.sky_base.specs.Res.{then_do};
ghost use Rattle.sky_base.specs.Eval.{World, inside};
ghost use Rattle.sky_base.specs.Tree.{Script};
ghost use Rattle.std.specs.Prelude.{ℕ};
ghost use Rattle.sky_machine_entries.specs.Config.{Run, opened, room, goes_on, rest_in};
ghost use Rattle.sky_machine_entries.specs.Entries.{entry_of, forms};
ghost use Rattle.sky_machine_entries.specs.Ready.{Ready, AllReady};

use crate::entry::Entry;
use sky_base::text::Memory;

/// One more form under way.
pub fn push<'a>(entries: &mut Vec<Entry<'a>>, entry: Entry<'a>) -> Result<(), Memory>
    ensures rest { IfOk result (λ _. (w : World (List ℕ)) (r : Run) → rest_in w entries.new.items r
        ≡ rest_in w entries.old.items (then_do r (entry_of entry.entry) (goes_on w (forms entries.old.items) (entry_of entry.entry)))) }
    ensures room { IfOk result (λ _. (w : World (List ℕ)) → room w (forms entries.new.items)
        ≡ inside w (entry_of entry.entry) (room w (forms entries.old.items))) }
    ensures opened { IfOk result (λ _. opened (forms entries.new.items) ≡ opened (forms entries.old.items) + opened (entry_of entry.entry ∷ [])) }
    ensures ready { IfOk result (λ _. (sc : Script) → AllReady sc entries.old.items → Ready sc (entry_of entry.entry)
        → AllReady sc entries.new.items) }
    ensures longer { IfOk result (λ _. length entries.new.items ≡ length entries.old.items + 1) }
{
    let Ok(()) = entries.reserve(1) else {
        return Err(Memory)
    };
    entries.push_reserved(entry);
    Ok(())
}

/// The innermost form under way, which is taken off.
pub fn pop<'a>(entries: &mut Vec<Entry<'a>>) -> Option<Entry<'a>>
    ensures some { IfSome result (λ en. entries.old.items ≡ entries.new.items ++ en ∷ []) }
    ensures empty { IfNone result (entries.old.items ≡ []) }
    ensures still { IfNone result (entries.new.items ≡ []) }
{
    entries.pop()
}
