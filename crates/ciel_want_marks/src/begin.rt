//! The marks of a graph, from nothing.

ghost use Rattle.std.specs.Prelude.{◌≡◌, ◌<◌, ◌^◌, ◌∷◌, [], ℕ, IfNone, IfOk, IfSome, Some, None, false, true, length, replicate};
ghost use Rattle.ciel_want_marks.specs.Lists.{at, flag};
ghost use Rattle.ciel_want_marks.specs.Marks.{Needs, Stands};
ghost use Rattle.ciel_want_marks.specs.Moves.{HasGraph, IsGraph, IsUnmade, Unfiled};

use crate::lists::set_flag;
use crate::marks::{Marks, push};
use crate::numbers::Numbers;
use crate::rising::RisingNumbers;
use sky_base::text::Memory;
use std::alloc::Global;

// Flags, none of which is set.
fn no_flags(alloc: Global, many: usize) -> Result<Vec<bool>, Memory>
    ensures { IfOk result (λ fs. fs.items ≡ replicate many false) }
{
    let mut flags = Vec::new(alloc);
    match flags.resize(many, false) {
        Ok(()) => Ok(flags),
        Err(_) => Err(Memory),
    }
}

// The root alone.
fn root_alone(alloc: Global, many: usize) -> Result<Vec<bool>, Memory>
    requires some { 0 < many }
    ensures long { IfOk result (λ fs. length fs.items ≡ many) }
    ensures root { IfOk result (λ fs. flag fs.items 0 ≡ true) }
    ensures others { IfOk result (λ fs. (u : ℕ) → flag fs.items u ≡ true → u ≡ 0) }
{
    let mut flags = no_flags(alloc, many)?;
    set_flag(&mut flags, 0, true);
    Ok(flags)
}

// Lists with nothing in them.
fn no_lists(alloc: Global, many: usize) -> Result<Vec<Numbers>, Memory>
    ensures long { IfOk result (λ ls. length ls.items ≡ many) }
    ensures none { IfOk result (λ ls. (u : ℕ) → at ls.items u ≡ []) }
{
    let mut lists = Vec::new(alloc);
    for _ in 0..many {
        push(&mut lists, Numbers::new(alloc))?;
    }
    Ok(lists)
}

// One number.
fn only(alloc: Global, number: u32) -> Result<Numbers, Memory>
    ensures { IfOk result (λ ns. ns ≡ number ∷ []) }
{
    let mut numbers = Numbers::new(alloc);
    numbers.push(number)?;
    Ok(numbers)
}

// The marks where no row is filed.
fn unfiled(
    alloc: Global,
    live: Vec<bool>,
    makers: Vec<Option<u32>>,
    out: Vec<bool>,
) -> Result<Marks, Memory>
    requires few { length live.items < 2 ^ 32 }
    ensures { IfOk result (λ m. Unfiled live.items makers.items out.items m) }
{
    let many = live.len();
    Ok(Marks {
        alloc,
        live,
        makers,
        watchers: no_lists(alloc, many)?,
        wanted: root_alone(alloc, many + 1)?,
        out,
        touched: no_flags(alloc, many + 1)?,
        makes: no_lists(alloc, many + 1)?,
        lacks: no_lists(alloc, many + 1)?,
        list: RisingNumbers::new(alloc),
        todo: only(alloc, 0)?,
        orphans: false,
    })
}

impl Marks {
    /// The marks of a graph: of each row whether it is live, and the node that makes it; of each node whether it is out. The needs of
    /// the root are to be looked at: what is left is a search. `None` exactly where a row that isn't live is made by no node.
    ///
    /// Answers `Memory` for want of memory.
    pub fn begin(
        alloc: Global,
        live: Vec<bool>,
        makers: Vec<Option<u32>>,
        out: Vec<bool>,
    ) -> Result<Option<Marks>, Memory>
        requires few { length live.items < 2 ^ 32 }
        requires graph { IsGraph live.items makers.items out.items }
        ensures graph { IfOk result (λ o. IfSome o (λ m. HasGraph live.items makers.items out.items m)) }
        ensures stands { IfOk result (λ o. IfSome o (λ m. (needs : Needs) → Stands m needs [] [])) }
        ensures none { IfOk result (λ o. IfNone o (IsUnmade live.items makers.items)) }
    {
        let mut marks = unfiled(alloc, live, makers, out)?;
        let many = marks.rows();
        for row in 0..many {
            if marks.is_unmade(row) {
                return Ok(None);
            }
            let maker = marks.maker(row);
            marks.file_under(row, maker)?;
        }
        Ok(Some(marks))
    }
}
