//! The search: the needs of each node that is wanted, until none is to be looked at.

ghost use Rattle.std.specs.Prelude.{◌≡◌, [], IfNone, IfOk, IfSome};
ghost use Rattle.ciel_want_marks.specs.Marks.{Stands};
ghost use Rattle.ciel_want_ready.specs.Fits.{Fits, lives, makers, needs_by};
ghost use Rattle.ciel_want.specs.Waited.{Whole};

use crate::needs::dead_needs;
use crate::nodes::row_of;
use ciel_table::table::Table;
use ciel_want_marks::marks::Marks;
use sky_base::at::At;
use sky_base::name::Name;
use sky_base::text::Memory;
use std::alloc::Global;

/// Looks at all needs that are to be looked at. None where a name that a node waits for has no row.
pub(crate) fn search<P: At + Drop>(
    alloc: Global,
    table: &Table<P>,
    main: &Name,
    mut marks: Marks,
) -> Result<Option<Marks>, Memory>
    requires live { marks.live ≡ lives table.now }
    requires makers { marks.makers ≡ makers table.now }
    requires stands { Stands marks (needs_by main.now table.now) [] [] }
    ensures fits { IfOk result (λ o. IfSome o (λ m. Fits main.now table.now m)) }
    ensures out { IfOk result (λ o. IfSome o (λ m. m.out ≡ marks.out)) }
    ensures none { IfOk result (λ o. IfNone o (Whole main.now table.now → ⊥)) }
{
    'search: while let Some(node) = marks.next_open() {
        let row = row_of(node);
        let Some(rows) = dead_needs(alloc, table, main, row)? else {
            return Ok(None);
        };
        marks.count(node, rows)?;
    }
    Ok(Some(marks))
}
