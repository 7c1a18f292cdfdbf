// Lines with sums: the lines stand one after the other in one buffer, and a line may stand there more than once.

ghost use Rattle.std.specs.Prelude.{◌≡◌, ◌<◌, ◌≤◌, ◌∷◌, ◌++◌, [], IfOk, IfErr, IfSome, length};
ghost use Rattle.std.specs.List.{slice_range};
ghost use Rattle.line_flow.specs.Entries.{more_at, IsAt, lent};

use sky_base::text::Memory;
use std::alloc::Global;
use std::marker::Model;

/// Where a line stands, and its sum.
#[derive(Clone, Copy)]
pub(crate) struct Entry {
    start: usize,
    end: usize,
    sum: u128,
}

/// Lines with sums. Contracts see their list.
#[derive(Drop)]
pub(crate) struct Entries {
    bytes: Vec<u8>,
    entries: Vec<Entry>,
}

impl Model for Entries {
    ghost use Rattle.std.specs.Prelude.{List, ℕ, length};
    ghost use Rattle.line_flow.specs.Entries.{seen, AllWithin};

    ghost Value = { List (List ℕ × ℕ) };

    ghost view = { λ t. seen t.bytes.items t.entries.items };

    ghost invariant = { λ t. AllWithin (length t.bytes.items) t.entries.items };
}

fn line_of<'a>(bytes: &'a [u8], entry: Entry) -> &'a [u8]
    requires { (entry.start ≤ entry.end) × (entry.end ≤ length bytes.now) }
    ensures { result.now ≡ slice_range bytes.now entry.start entry.end }
{
    &bytes[entry.start..entry.end]
}

impl Entries {
    /// No lines.
    pub(crate) fn new(alloc: Global) -> Entries
        ensures { result ≡ [] }
    {
        Entries {
            bytes: Vec::new(alloc),
            entries: Vec::new(alloc),
        }
    }

    /// How many there are.
    pub(crate) fn len(&self) -> usize
        ensures { result ≡ length self.now }
    {
        self.entries.len()
    }

    /// The line of an entry, where there is one.
    pub(crate) fn line(&self, at: usize) -> Option<&[u8]>
        ensures { IfSome result (λ line. IsAt self.now at line.now) }
    {
        match self.entries.get(at) {
            Some(entry) => Some(line_of(&self.bytes, *entry)),
            None => None,
        }
    }

    /// Adds a number at an entry. A sum that more than 128 bits would write is as want of memory.
    pub(crate) fn add(&mut self, at: usize, number: u64) -> Result<(), Memory>
        requires { at < length self.old }
        ensures ok { IfOk result (λ _. self.new ≡ more_at self.old at number) }
        ensures err { IfErr result (λ _. self.new ≡ self.old) }
    {
        match self.entries[at].sum.checked_add(u128::from(number)) {
            Some(more) => {
                self.entries[at].sum = more;
                Ok(())
            }
            None => Err(Memory),
        }
    }

    /// Puts a line with its sum at the end.
    pub(crate) fn push(&mut self, line: &[u8], sum: u128) -> Result<(), Memory>
        ensures ok { IfOk result (λ _. self.new ≡ self.old ++ (line.now, sum) ∷ []) }
        ensures err { IfErr result (λ _. self.new ≡ self.old) }
    {
        let start = self.bytes.len();
        if self.bytes.extend_from_slice(line).is_ok() {
            let end = self.bytes.len();
            if self.entries.push(Entry { start, end, sum }).is_ok() {
                return Ok(());
            }
            self.bytes.truncate(start);
        }
        Err(Memory)
    }

    /// A list of them.
    pub(crate) fn listed(&self, alloc: Global) -> Result<Vec<(&[u8], u128)>, Memory>
        ensures { IfOk result (λ v. lent v.items ≡ self.now) }
    {
        let Ok(mut all) = Vec::with_capacity(alloc, self.entries.len()) else {
            return Err(Memory);
        };
        for entry in &self.entries {
            if all.push((line_of(&self.bytes, *entry), entry.sum)).is_err() {
                return Err(Memory);
            }
        }
        Ok(all)
    }
}
