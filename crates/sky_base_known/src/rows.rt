// The descriptions that a run holds, each once, under their numbers. A description is looked up by its
// sum, and then compared itself with each that has this sum.

use crate::sum::sum;
use sky_base::object::Desc1;
use sky_base::same::is_same_desc;
use sky_base::text::Memory;
use std::alloc::Global;
use std::collections::BTreeMap;
use std::marker::Model;

/// How many descriptions a run may hold.
pub const MOST_ROWS: usize = 65_536;

/// The descriptions that a run holds, at most 65,536 and each once. Contracts see them as a list.
#[derive(Drop)]
pub struct Rows {
    items: Vec<Held>,
    // The number of the last description with each sum.
    latest: BTreeMap<u64, u32>,
}

// A description, and the number of the last one before it with its sum.
#[derive(Drop)]
struct Held {
    desc: Desc1,
    earlier: Option<u32>,
}

impl Model for Rows {
    ghost use Rattle.std.specs.Prelude.{◌≤◌, List, length};
    ghost use Rattle.ciel_json.specs.Tasks.{Apart};
    ghost use Rattle.sky_base_known.specs.HeldView.{rows_of, Finds};
    ghost use Rattle.sky_base_known.specs.RowCode.{rows_code};
    ghost use Rattle.sky_base_known.specs.Walk.{Row, most_rows};

    ghost Value = { List Row };

    ghost coded = { rows_code };

    ghost view = { λ a. rows_of a.items.items };

    ghost invariant = { λ a. Apart (rows_of a.items.items) × (length a.items.items ≤ most_rows) × Finds a.latest a.items.items };
}

impl Rows {
    ghost use Rattle.std.specs.Prelude.{◌≡◌, Option, Some, None, IfOk, IfErr, IfSome, IfNone, MatchOption, slice_get, false, [], ◌∷◌, ◌++◌, ◌<◌, ◌≤◌};
    ghost use Rattle.std.specs.Prelude.{length};
    ghost use Rattle.ciel_json.specs.Tasks.{Apart};
    ghost use Rattle.sky_base.specs.ObjectView.{desc_view};
    ghost use Rattle.sky_base_known.specs.Walk.{learn_to, is_held, most_rows};
    ghost use Rattle.sky_base_known.specs.Number.{index_of};

    /// None is held.
    #[tactic(auto, using(crate::proofs::Places::places))]
    pub fn new(alloc: Global) -> Rows
        ensures { result ≡ [] }
    {
        Rows {
            items: Vec::new(alloc),
            latest: BTreeMap::new(alloc),
        }
    }

    /// The description of a number, if it is held.
    #[tactic(auto, using(crate::proofs::Places::places))]
    pub fn get(&self, number: u32) -> Option<&Desc1>
        ensures { MatchOption result (slice_get self.now number ≡ None) (λ d. slice_get self.now number ≡ Some (desc_view d.now)) }
    {
        match self.items.get(number as usize) {
            Some(held) => Some(&held.desc),
            None => None,
        }
    }

    /// How many descriptions are held: at most 65,536, and each once.
    #[tactic(auto, using(crate::proofs::Places::places))]
    pub fn len(&self) -> usize
        ensures number { result ≡ length self.now }
        ensures apart { Apart self.now }
        ensures room { length self.now ≤ most_rows }
    {
        self.items.len()
    }

    /// The description of a number that is held.
    #[tactic(auto, using(crate::proofs::Places::places))]
    pub fn desc(&self, number: u32) -> &Desc1
        requires held { number < length self.now }
        ensures { slice_get self.now number ≡ Some (desc_view result.now) }
    {
        &self.items[number as usize].desc
    }

    /// The number of a description, if it is held.
    #[tactic(auto, using(crate::proofs::Places::places))]
    pub fn find(&self, desc: &Desc1) -> Option<u32>
        ensures { MatchOption result (is_held (desc_view desc.now) self.now ≡ false) (λ k. slice_get self.now k ≡ Some (desc_view desc.now)) }
    {
        let mut next = self.latest.get(&sum(desc)).copied();
        while let Some(number) = next {
            let held = &self.items[number as usize];
            if is_same_desc(desc, &held.desc) {
                return Some(number);
            }
            next = held.earlier;
        }
        None
    }

    /// The number of a description, which is held from then on; none where it would be one too many.
    /// After `Memory` nothing is changed.
    #[tactic(auto, using(crate::proofs::Places::places))]
    pub fn learn(&mut self, desc: Desc1) -> Result<Option<u32>, Memory>
        ensures held { IfOk result (λ o. IfSome o (λ k. learn_to self.old (desc_view desc) ≡ Some self.new)) }
        ensures number { IfOk result (λ o. IfSome o (λ k. slice_get self.new k ≡ Some (desc_view desc))) }
        ensures place { IfOk result (λ o. IfSome o (λ k. index_of (desc_view desc) self.new ≡ k)) }
        ensures full { IfOk result (λ o. o ≡ None → learn_to self.old (desc_view desc) ≡ None) }
        ensures kept { IfOk result (λ o. o ≡ None → self.new ≡ self.old) }
        ensures err { IfErr result (λ _. self.new ≡ self.old) }
    {
        match self.find(&desc) {
            Some(number) => Ok(Some(number)),
            None => {
                if self.items.len() < MOST_ROWS {
                    let number = self.add(desc)?;
                    Ok(Some(number))
                } else {
                    Ok(None)
                }
            }
        }
    }

    // Puts a description that isn't held behind the others, and gives its number.
    #[tactic(auto, using(crate::proofs::Places::places))]
    fn add(&mut self, desc: Desc1) -> Result<u32, Memory>
        requires new { is_held (desc_view desc) self.old ≡ false }
        requires room { length self.old < 65536 }
        ensures put { IfOk result (λ _. self.new ≡ self.old ++ desc_view desc ∷ []) }
        ensures number { IfOk result (λ k. k ≡ length self.old) }
        ensures err { IfErr result (λ _. self.new ≡ self.old) }
    {
        let number = self.items.len() as u32;
        let sum = sum(&desc);
        let earlier = self.latest.get(&sum).copied();
        let Ok(()) = self.items.push(Held { desc, earlier }) else {
            return Err(Memory);
        };
        let Ok(_) = self.latest.insert(sum, number) else {
            let _ = self.items.pop();
            return Err(Memory);
        };
        Ok(number)
    }
}
