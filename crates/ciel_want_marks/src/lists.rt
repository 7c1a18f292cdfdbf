//! Lists that are looked up by number. Beyond the end no flag is set, and each list is empty; what is set there is forgotten.

ghost use Rattle.std.specs.Prelude.{◌≡◌, ◌++◌, ◌∷◌, [], List, ℕ, OnOk, slice_get, slice_set};
ghost use Rattle.ciel_want_marks.specs.Lists.{Settled, at, entry, flag};

use crate::numbers::Numbers;
use sky_base::text::Memory;
use std::alloc::Global;
use std::mem;

/// The flag of a number.
pub(crate) fn flag(flags: &[bool], number: u32) -> bool
    ensures { result ≡ flag flags.now number }
{
    let i = number as usize;
    i < flags.len() && flags[i]
}

/// Sets the flag of a number.
pub(crate) fn set_flag(flags: &mut Vec<bool>, number: u32, value: bool)
    ensures { flags.new.items ≡ slice_set flags.old.items number value }
{
    let i = number as usize;
    if i < flags.len() {
        flags[i] = value;
    }
}

/// The entry of a number.
pub(crate) fn entry_at(numbers: &[Option<u32>], number: u32) -> Option<u32>
    ensures { result ≡ entry numbers.now number }
{
    let i = number as usize;
    if i < numbers.len() { numbers[i] } else { None }
}

/// The list of a number.
pub(crate) fn list_at(lists: &[Numbers], number: u32) -> &[u32]
    ensures { result.now ≡ at lists.now number }
{
    let i = number as usize;
    if i < lists.len() {
        lists[i].as_slice()
    } else {
        &[]
    }
}

/// The first of a list.
pub(crate) fn first_of(list: &[u32]) -> Option<u32>
    ensures { result ≡ slice_get list.now 0 }
{
    if list.is_empty() { None } else { Some(list[0]) }
}

/// Puts a number at the end of the list of a number.
pub(crate) fn push_at(lists: &mut Vec<Numbers>, number: u32, item: u32) -> Result<(), Memory>
    ensures { OnOk result (lists.new.items ≡ slice_set lists.old.items number (at lists.old.items number ++ item ∷ [])) }
{
    let i = number as usize;
    if i < lists.len() {
        let list = &mut lists[i];
        return list.push(item);
    }
    Ok(())
}

/// Takes the list of a number away, which is empty then.
pub(crate) fn take_at(alloc: Global, lists: &mut Vec<Numbers>, number: u32) -> Numbers
    ensures taken { result ≡ at lists.old.items number }
    ensures left { lists.new.items ≡ slice_set lists.old.items number [] }
{
    let i = number as usize;
    let none = Numbers::new(alloc);
    if i < lists.len() {
        mem::replace(&mut lists[i], none)
    } else {
        none
    }
}

/// Sets the list of a number.
pub(crate) fn put_at(lists: &mut Vec<Numbers>, number: u32, list: Numbers)
    ensures { lists.new.items ≡ slice_set lists.old.items number list }
{
    let i = number as usize;
    if i < lists.len() {
        lists[i] = list;
    }
}

/// Takes those whose flags are set off the end of the list of a number, and answers the last one that is left.
pub(crate) fn settle_at(lists: &mut Vec<Numbers>, number: u32, flags: &[bool]) -> Option<u32>
    ensures { (left : List ℕ) × (lists.new.items ≡ slice_set lists.old.items number left)
        × Settled flags.now (at lists.old.items number) left result }
{
    let i = number as usize;
    if i < lists.len() {
        let list = &mut lists[i];
        list.settle(flags)
    } else {
        None
    }
}
