//! A memo's file as a memo.

ghost use Rattle.std.specs.Prelude.{◌≡◌, ◌∷◌, IfErr, IfOk, MatchOption};
ghost use Rattle.ciel_memo_file.specs.File.{BadAt, BadEntry, IsMemo, NoStart};
ghost use Rattle.ciel_memo_file.specs.Refused.{IfBad};
ghost use Rattle.ciel_memo_file.specs.Steps.{Placed, seen};

use crate::gathered::Gathered;
use crate::memo::Memo;
use crate::refusal::MemoRefusal;
use crate::write::{FORM, MARK};
use sky_base::text::Bytes;
use std::alloc::Global;

impl Memo {
    /// The memo whose file these bytes are: exactly the entries of the file, in its order.
    ///
    /// Answers `BadMemo` exactly where they aren't such a file: they begin with other bytes than `4D 01`, or behind whole entries something
    /// stands that is no next one. Answers `Memory` for want of memory. An entry is read from no more bytes than it may have, and what a count
    /// promises takes no memory before it is there. No input or output is copied: the memo shares the file's bytes.
    pub fn read(alloc: Global, file: &Bytes) -> Result<Memo, MemoRefusal>
        ensures memo { IfOk result (λ m. IsMemo file.now m) }
        ensures refused { IfErr result (λ e. IfBad e (λ at. BadAt file.now at)) }
    {
        let Some(rest) = behind_start(file.as_slice()) else {
            return Err(MemoRefusal::BadMemo { at: 0 });
        };
        let gathered = match gather(alloc, file, rest) {
            Ok(gathered) => gathered,
            Err(refusal) => return Err(refusal),
        };
        let shared = file.share()?;
        Ok(Memo::of(alloc, gathered, shared)?)
    }
}

/// What stands behind the two first bytes of a file.
fn behind_start(bytes: &[u8]) -> Option<&[u8]>
    ensures { MatchOption result (NoStart bytes.now) (λ rest. bytes.now ≡ 77 ∷ 1 ∷ rest.now) }
{
    let (first, behind) = bytes.split_first()?;
    let (second, rest) = behind.split_first()?;
    if *first != MARK || *second != FORM {
        return None;
    }
    Some(rest)
}

/// The entries behind the two first bytes of a file.
fn gather(alloc: Global, file: &Bytes, rest: &[u8]) -> Result<Gathered, MemoRefusal>
    requires { file.now ≡ 77 ∷ 1 ∷ rest.now }
    ensures memo { IfOk result (λ g. IsMemo (77 ∷ 1 ∷ rest.now) (seen g)) }
    ensures placed { IfOk result (λ g. Placed (seen g) g.places.entries) }
    ensures refused { IfErr result (λ e. IfBad e (λ at. BadEntry (77 ∷ 1 ∷ rest.now) at)) }
{
    let mut gathered = Gathered::new(alloc);
    let mut left = rest;
    while !left.is_empty() {
        let at = 2 + (rest.len() - left.len());
        left = match gathered.next(alloc, file, left, at) {
            Ok(left) => left,
            Err(refusal) => return Err(refusal),
        };
    }
    Ok(gathered)
}
