// Whether two journals are the same, entry by entry.

use ciel_master::entry::Entry;
use sky_base::names::Names;

/// Whether they have the same entries in the same order.
pub(crate) fn are_same(one: &[Entry], other: &[Entry]) -> bool {
    if one.len() != other.len() {
        return false;
    }
    for (a, b) in one.iter().zip(other.iter()) {
        if !is_same(a, b) {
            return false;
        }
    }
    true
}

fn is_same(a: &Entry, b: &Entry) -> bool {
    match a {
        Entry::Start {
            number,
            worker,
            task,
            from,
        } => matches!(b, Entry::Start { number: n, worker: w, task: t, from: f }
            if number == n && worker == w && task == t && from == f),
        Entry::Done {
            number,
            made,
            copied,
        } => match b {
            Entry::Done {
                number: n,
                made: m,
                copied: c,
            } => number == n && made.as_slice() == m.as_slice() && are_names(copied, c),
            _ => false,
        },
        Entry::Saved { number, j, mark } => {
            matches!(b, Entry::Saved { number: n, j: k, mark: m } if number == n && j == k && mark == m)
        }
        Entry::Missed { number, name, lost } => {
            matches!(b, Entry::Missed { number: n, name: m, lost: l } if number == n && name == m && lost == l)
        }
        Entry::Lost { worker, after } => {
            matches!(b, Entry::Lost { worker: w, after: a } if worker == w && after == a)
        }
    }
}

fn are_names(one: &Names, other: &Names) -> bool {
    one.as_slice() == other.as_slice()
}
