//! The marks: which nodes are wanted, which wait for which rows, and which can run.

ghost use Rattle.std.specs.Prelude.{◌^◌, ◌&&◌, ◌||◌, nat_eq, not, ◌≡◌, ◌↔◌, ◌≤◌, ◌<◌, ◌+◌, ◌++◌, ◌∷◌, [], ℕ, true, false};
ghost use Rattle.std.specs.Prelude.{IfOk, IfSome, MatchOption, None, Ok, OnErr, OnOk, Option, Some, length, slice_get, slice_set, is_some};
ghost use Rattle.ciel_journal.specs.Job.{In};
ghost use Rattle.ciel_want_marks.specs.Lists.{Rising, at, entry, flag};
ghost use Rattle.ciel_want_marks.specs.Marks.{Active, MarksSeen};
ghost use Rattle.ciel_want_marks.specs.Moves.{AddsRight, CanGoOut, ClosesRight, EndsPartly, GoesOn, KeepsRight, ListedAt, LooksAt};
ghost use Rattle.ciel_want_marks.specs.Moves.{MakesDead, NotAdded, NotPlaced, Opens, Placed, PlacesRight};
ghost use Rattle.ciel_want_marks.specs.Moves.{SameGraph, SettledAt, UnlistedAt, filed, filed_under, grown, is_none, lacking, left_of, made_live, wants};
ghost use Rattle.ciel_want_marks.specs.Moves.{wants_makers, wants_some, watched};

use crate::lists::{
    entry_at, first_of, flag, list_at, push_at, put_at, set_flag, settle_at, take_at,
};
use crate::numbers::Numbers;
use crate::rising::RisingNumbers;
use sky_base::text::Memory;
use std::alloc::Global;
use std::marker::Model;

/// The marks of a graph of tasks. Contracts see them as lists by number.
pub struct Marks {
    pub(crate) alloc: Global,
    pub(crate) live: Vec<bool>,
    pub(crate) makers: Vec<Option<u32>>,
    pub(crate) watchers: Vec<Numbers>,
    pub(crate) wanted: Vec<bool>,
    pub(crate) out: Vec<bool>,
    pub(crate) touched: Vec<bool>,
    pub(crate) makes: Vec<Numbers>,
    pub(crate) lacks: Vec<Numbers>,
    pub(crate) list: RisingNumbers,
    pub(crate) todo: Numbers,
    pub(crate) orphans: bool,
}

// Written by hand, so that marks that are let go of are one call and not a list of fields.
impl Drop for Marks {
    fn drop(self) {
        let Marks {
            alloc: _,
            live: _,
            makers: _,
            watchers: _,
            wanted: _,
            out: _,
            touched: _,
            makes: _,
            lacks: _,
            list: _,
            todo: _,
            orphans: _,
        } = self;
    }
}

impl Model for Marks {
    ghost use Rattle.ciel_want_marks.specs.Marks.{MarksSeen};

    ghost Value = { MarksSeen };

    ghost view = { λ m. record {
      live = m.live.items;
      makers = m.makers.items;
      watchers = m.watchers.items;
      wanted = m.wanted.items;
      out =
          m.out.items;
      touched = m.touched.items;
      makes = m.makes.items;
      lacks = m.lacks.items;
      list = m.list;
      todo = m.todo;
      orphans = m.orphans;
    } };
}

pub(crate) fn push<T: Drop>(items: &mut Vec<T>, item: T) -> Result<(), Memory>
    ensures { OnOk result (items.new.items ≡ items.old.items ++ item ∷ []) }
{
    match items.push(item) {
        Ok(()) => Ok(()),
        Err(_) => Err(Memory),
    }
}

impl Marks {
    // One row more, and the node after it, of which nothing is known.
    fn grow(&mut self) -> Result<(), Memory>
        ensures grown { OnOk result (self.new ≡ grown self.old) }
    {
        let alloc = self.alloc;
        push(&mut self.live, false)?;
        push(&mut self.makers, None)?;
        push(&mut self.watchers, Numbers::new(alloc))?;
        push(&mut self.wanted, false)?;
        push(&mut self.out, false)?;
        push(&mut self.touched, false)?;
        push(&mut self.makes, Numbers::new(alloc))?;
        push(&mut self.lacks, Numbers::new(alloc))?;
        Ok(())
    }

    /// Whether a row is live.
    pub fn is_live(&self, row: u32) -> bool
        ensures live { result ≡ flag self.now.live row }
    {
        flag(&self.live, row)
    }

    /// Whether there are so many rows that no other may be added.
    pub fn is_long(&self) -> bool
        ensures long { result ≡ false → length self.now.live < 2 ^ 32 }
        ensures exact { (result ≡ true) ↔ 2 ^ 32 ≤ length self.now.live + 1 }
    {
        self.live.len() >= u32::MAX as usize
    }

    /// Whether a node is out.
    pub fn is_out(&self, node: u32) -> bool
        ensures out { result ≡ flag self.now.out node }
    {
        flag(&self.out, node)
    }

    /// The least rows of the nodes that can run, rising; the root is none of them.
    pub fn list(&self) -> &[u32]
        ensures list { result.now ≡ self.now.list }
        ensures rising { Rising self.now.list }
    {
        self.list.as_slice()
    }

    /// Whether the root isn't out, and nothing that it waits for is kept as not live.
    pub fn root_runs(&self) -> bool
        ensures runs { result ≡ not (flag self.now.out 0) && is_none (at self.now.lacks 0) }
    {
        !flag(&self.out, 0) && list_at(&self.lacks, 0).is_empty()
    }

    /// The node that makes a row, if one does.
    pub fn maker(&self, row: u32) -> Option<u32>
        ensures maker { result ≡ entry self.now.makers row }
    {
        entry_at(&self.makers, row)
    }

    // Whether no node makes a row, which isn't live.
    pub(crate) fn is_unmade(&self, row: u32) -> bool
        ensures { result ≡ not (is_some (entry self.now.makers row)) && not (flag self.now.live row) }
    {
        self.maker(row).is_none() && !self.is_live(row)
    }

    /// The rows that a node makes, the least one first.
    pub fn makes(&self, node: u32) -> &[u32]
        ensures makes { result.now ≡ at self.now.makes node }
    {
        list_at(&self.makes, node)
    }

    /// Nodes that waited for a row when they were looked at last. Some may stand twice, and some may not wait for it any more.
    pub fn watchers(&self, row: u32) -> &[u32]
        ensures watchers { result.now ≡ at self.now.watchers row }
    {
        list_at(&self.watchers, row)
    }

    /// The least row of a node, if it makes one.
    pub fn least(&self, node: u32) -> Option<u32>
        ensures least { result ≡ slice_get (at self.now.makes node) 0 }
    {
        first_of(list_at(&self.makes, node))
    }

    /// Whether a node is wanted and not out.
    pub fn is_active(&self, node: u32) -> bool
        ensures active { result ≡ flag self.now.wanted node && not (flag self.now.out node) }
    {
        flag(&self.wanted, node) && !flag(&self.out, node)
    }

    // Takes the rows that are live off the end of what a node lacks, and answers the last one that is left.
    fn settle(&mut self, node: u32) -> Option<u32>
        ensures { SettledAt self.old self.new node result }
    {
        settle_at(&mut self.lacks, node, &self.live)
    }

    // Puts the least row of a node into the list.
    fn list_it(&mut self, node: u32) -> Result<(), Memory>
        ensures { OnOk result (ListedAt self.old self.new node) }
    {
        match self.least(node) {
            Some(row) => self.list.insert(row),
            None => Ok(()),
        }
    }

    // A node waits for a row.
    fn watch(&mut self, row: u32, node: u32) -> Result<(), Memory>
        ensures { OnOk result (self.new ≡ watched row node self.old) }
    {
        push_at(&mut self.watchers, row, node)
    }

    // A node is wanted, and if it wasn't, its needs are to be looked at.
    fn want(&mut self, node: u32) -> Result<(), Memory>
        ensures { OnOk result (self.new ≡ wants node self.old) }
    {
        if flag(&self.wanted, node) {
            return Ok(());
        }
        self.todo.push(node)?;
        set_flag(&mut self.wanted, node, true);
        Ok(())
    }

    // The maker of a row is wanted.
    fn want_maker(&mut self, row: u32) -> Result<(), Memory>
        ensures { OnOk result (self.new ≡ wants_some (entry self.old.makers row) self.old) }
    {
        match self.maker(row) {
            Some(node) => self.want(node),
            None => Ok(()),
        }
    }

    // The makers of rows are wanted, that of the last first: then the needs of the first one's are looked at first, and what can run
    // is listed mostly behind what is listed already.
    fn want_makers(&mut self, rows: &[u32]) -> Result<(), Memory>
        ensures { OnOk result (self.new ≡ wants_makers rows.now self.old) }
    {
        let mut i = rows.len();
        while i > 0 {
            i -= 1;
            self.want_maker(rows[i])?;
        }
        Ok(())
    }

    // A node that is wanted and not out waits for the last of what it lacks that isn't live, or is listed where all is.
    fn go_on(&mut self, node: u32) -> Result<(), Memory>
        ensures same { OnOk result (SameGraph self.old self.new) }
        ensures left { OnOk result (left_of self.new ≡ left_of self.old) }
        ensures stands { OnOk result (GoesOn node self.old self.new) }
        ensures todo { OnOk result (self.new.todo ≡ self.old.todo) }
    {
        if !self.is_active(node) {
            return Ok(());
        }
        match self.settle(node) {
            None => self.list_it(node),
            Some(row) => self.watch(row, node),
        }
    }

    /// Looks at the needs of a node that is wanted and not out. `rows` are those of the names that it waits for and aren't live.
    ///
    /// Answers `Memory` for want of memory. Some of the nodes that make the rows may be wanted then, and `rows`, or the first of them, may be
    /// kept as what the node lacks; but the node is put neither into the list nor among those that wait for a row. So the marks may be wrong.
    pub fn count(&mut self, node: u32, rows: Numbers) -> Result<(), Memory>
        ensures same { OnOk result (SameGraph self.old self.new) }
        ensures stands { OnOk result (LooksAt node rows self.old self.new) }
    {
        self.want_makers(rows.as_slice())?;
        self.set_lacks(node, rows);
        self.go_on(node)?;
        Ok(())
    }

    // Sets what a node lacks.
    fn set_lacks(&mut self, node: u32, rows: Numbers)
        ensures { self.new ≡ lacking self.old node rows }
    {
        put_at(&mut self.lacks, node, rows);
    }

    /// The next node whose needs are to be looked at. Where there is none, the marks are right.
    pub fn next_open(&mut self) -> Option<u32>
        ensures same { SameGraph self.old self.new }
        ensures left { IfSome result (λ u. left_of self.new < left_of self.old) }
        ensures active { IfSome result (λ u. Active self.new u) }
        ensures stands { Opens result self.old self.new }
    {
        'search: while let Some(node) = self.pop() {
            if self.is_active(node) {
                return Some(node);
            }
        }
        None
    }

    // Takes the last one whose needs are to be looked at.
    fn pop(&mut self) -> Option<u32>
        ensures same { self.new ≡ record self.old { todo = self.new.todo } }
        ensures last { MatchOption result ((self.old.todo ≡ []) × (self.new.todo ≡ [])) (λ u. self.old.todo ≡ self.new.todo ++ u ∷ []) }
    {
        self.todo.pop()
    }

    /// A row became live. False exactly where it has no maker, or its maker is wanted and not out: the marks stay as they were, which may
    /// be wrong then.
    ///
    /// Answers `Memory` for want of memory. The row is live then, its maker is marked as one that made a row live, and nobody waits for the
    /// row any more. Of the nodes that waited for it some may have gone on, and some are neither in the list nor wait for another row: the
    /// marks may be wrong.
    pub fn place(&mut self, row: u32) -> Result<bool, Memory>
        ensures placed { IfOk result (λ fits. fits ≡ true → Placed row self.old self.new) }
        ensures right { IfOk result (λ fits. fits ≡ true → PlacesRight row self.old self.new) }
        ensures cause { IfOk result (λ fits. (fits ≡ false) ↔ NotPlaced row self.old) }
        ensures same { IfOk result (λ fits. fits ≡ false → self.new ≡ self.old) }
    {
        let Some(maker) = self.maker(row) else {
            return Ok(false);
        };
        if self.is_active(maker) {
            return Ok(false);
        }
        let mut waiting = self.set_live(row, maker);
        'waiting: while let Some(node) = waiting.pop() {
            self.go_on(node)?;
        }
        Ok(true)
    }

    // Sets the row's flag and that of its maker, and takes those that wait for it.
    fn set_live(&mut self, row: u32, maker: u32) -> Numbers
        ensures waiting { result ≡ at self.old.watchers row }
        ensures set { self.new ≡ made_live row maker self.old }
    {
        set_flag(&mut self.live, row, true);
        set_flag(&mut self.touched, maker, true);
        take_at(self.alloc, &mut self.watchers, row)
    }

    // Whether the node can run, as far as it is kept.
    fn can_run(&self, node: u32) -> bool
        ensures { (result ≡ true) ↔ CanGoOut node self.now }
    {
        if node == 0 {
            return self.root_runs();
        }
        match self.least(node) {
            Some(row) => !flag(&self.out, node) && self.list.has(row),
            None => false,
        }
    }

    /// A node is out from now on. False exactly where it is out already, or can't run as far as it is kept: the marks stay as they were,
    /// which may be wrong then.
    pub fn start(&mut self, node: u32) -> bool
        ensures out { result ≡ true → self.new.out ≡ slice_set self.old.out node true }
        ensures graph { result ≡ true → (self.new.live ≡ self.old.live) × (self.new.makers ≡ self.old.makers) }
        ensures right { result ≡ true → KeepsRight self.old self.new }
        ensures cause { (result ≡ true) ↔ CanGoOut node self.old }
        ensures same { result ≡ false → self.new ≡ self.old }
    {
        if !self.can_run(node) {
            return false;
        }
        self.set_out(node, true);
        self.unlist(node);
        true
    }

    // Sets whether a node is out.
    fn set_out(&mut self, node: u32, out: bool)
        ensures { self.new ≡ record self.old { out = slice_set self.old.out node out } }
    {
        set_flag(&mut self.out, node, out);
    }

    // Takes the least row of a node out of the list.
    fn unlist(&mut self, node: u32)
        ensures { UnlistedAt self.old self.new node }
    {
        if let Some(row) = self.least(node) {
            self.list.remove(row);
        }
    }

    // Whether each row that a node makes is live.
    fn all_live(&self, node: u32) -> bool
        ensures all { result ≡ true → (r : ℕ) → In r (at self.now.makes node) → flag self.now.live r ≡ true }
        ensures dead { result ≡ false → MakesDead node self.now }
    {
        let rows = list_at(&self.makes, node);
        for i in 0..rows.len() {
            if !flag(&self.live, rows[i]) {
                return false;
            }
        }
        true
    }

    /// A node is out no longer. If it isn't wanted, that is all. If it is the root, or no row that it makes became live, it goes on: its needs
    /// are put among those that are to be looked at, and looking at them is a search (`next_open`, `count`). Else it is wanted no longer,
    /// where all rows that it makes are live: it came to its end.
    ///
    /// False exactly where it is wanted and isn't the root, and some row that it makes became live, and another one isn't live. It is out no
    /// longer then too, and nothing else changes, so the marks may be wrong.
    ///
    /// Answers `Memory` for want of memory. The node is out no longer then, and nothing else changes: its needs aren't put among those that
    /// are to be looked at, so the marks may be wrong.
    pub fn close(&mut self, node: u32) -> Result<bool, Memory>
        ensures out { OnOk result (self.new.out ≡ slice_set self.old.out node false) }
        ensures graph { OnOk result ((self.new.live ≡ self.old.live) × (self.new.makers ≡ self.old.makers)) }
        ensures stands { IfOk result (λ fits. fits ≡ true → ClosesRight node self.old self.new) }
        ensures cause { IfOk result (λ fits. (fits ≡ false) ↔ EndsPartly node self.old) }
        ensures partly { IfOk result (λ fits. fits ≡ false → self.new ≡ record self.old { out = slice_set self.old.out node false }) }
        ensures kept { OnErr result (self.new ≡ record self.old { out = slice_set self.old.out node false }) }
    {
        self.set_out(node, false);
        if !self.is_wanted(node) {
            return Ok(true);
        }
        if self.goes_on(node) {
            self.open(node)?;
            return Ok(true);
        }
        if !self.all_live(node) {
            return Ok(false);
        }
        self.forget(node);
        Ok(true)
    }

    // Whether a node is wanted.
    fn is_wanted(&self, node: u32) -> bool
        ensures { result ≡ flag self.now.wanted node }
    {
        flag(&self.wanted, node)
    }

    // Whether it is the root, or no row that it makes became live meanwhile.
    fn goes_on(&self, node: u32) -> bool
        ensures { result ≡ nat_eq node 0 || not (flag self.now.touched node) }
    {
        node == 0 || !flag(&self.touched, node)
    }

    // The needs of a node are to be looked at.
    fn open(&mut self, node: u32) -> Result<(), Memory>
        ensures opened { OnOk result (self.new ≡ record self.old { todo = self.old.todo ++ node ∷ [] }) }
        ensures kept { OnErr result (self.new ≡ self.old) }
    {
        self.todo.push(node)
    }

    // A node is wanted no longer.
    fn forget(&mut self, node: u32)
        ensures { self.new ≡ record self.old { wanted = slice_set self.old.wanted node false; touched = slice_set self.old.touched node false } }
    {
        set_flag(&mut self.wanted, node, false);
        set_flag(&mut self.touched, node, false);
    }

    // Files a row under its maker.
    fn file(&mut self, row: u32, live: bool, maker: Option<u32>) -> Result<(), Memory>
        ensures { OnOk result (self.new ≡ filed row live maker self.old) }
    {
        set_flag(&mut self.live, row, live);
        if let Some(maker_of) = self.makers.get_mut(row as usize) {
            *maker_of = maker;
        }
        self.file_under(row, maker)
    }

    // Files a row under its maker, or as one of those that have none.
    pub(crate) fn file_under(&mut self, row: u32, maker: Option<u32>) -> Result<(), Memory>
        ensures { OnOk result (self.new ≡ filed_under row maker self.old) }
    {
        match maker {
            None => {
                self.orphans = true;
                Ok(())
            }
            Some(node) => push_at(&mut self.makes, node, row),
        }
    }

    /// One row more, at the end, which nobody waits for yet. False exactly where it is made by no node and isn't live, or another row is
    /// made by no node: the marks stay as they were, which may be wrong then.
    ///
    /// Answers `Memory` for want of memory. Some of the lists may have the row then and others not, and it may be missing among the rows
    /// that its maker makes. The marks may only be dropped then.
    pub fn add(&mut self, live: bool, maker: Option<u32>) -> Result<bool, Memory>
        requires few { length self.old.live < 2 ^ 32 }
        ensures right { IfOk result (λ fits. fits ≡ true → AddsRight live maker self.old self.new) }
        ensures cause { IfOk result (λ fits. (fits ≡ false) ↔ NotAdded live maker self.old) }
        ensures same { IfOk result (λ fits. fits ≡ false → self.new ≡ self.old) }
    {
        if self.is_full(live, maker) {
            return Ok(false);
        }
        let row = self.rows();
        self.grow()?;
        self.file(row, live, maker)?;
        Ok(true)
    }

    // How many rows there are.
    pub(crate) fn rows(&self) -> u32
        requires few { length self.now.live < 2 ^ 32 }
        ensures { result ≡ length self.now.live }
    {
        self.live.len() as u32
    }

    // Whether the marks tell nothing of one row more.
    fn is_full(&self, live: bool, maker: Option<u32>) -> bool
        ensures { result ≡ (self.now.orphans || (not live && not (is_some maker))) }
    {
        self.orphans || (!live && maker.is_none())
    }
}
