// Rows that are kept once they are shown.

ghost use Rattle.std.specs.Prelude.{IfOk};
ghost use Rattle.tv_invariant.specs.Keeping.{Keeps, KeepsShown};

use crate::kept::Kept;
use crate::showing::is_shown_by;
use crate::thinning::{marked, marks_of, thinned};
use std::alloc::{AllocError, Global};
use tv_linear::{CoverTree, Row, push_item};

/// Keeps the row with those by which the tree shows it, if it does.
fn keep_shown(
    alloc: Global,
    columns: u32,
    from: Vec<Row>,
    row: &Row,
    tree: &CoverTree,
    kept: &mut Vec<Kept>,
) -> Result<(), AllocError>
    ensures { IfOk result (λ _. KeepsShown columns from.items row.now tree.now kept.old.items kept.new.items) }
{
    if !is_shown_by(columns, &from, row, tree) {
        return Ok(());
    }
    let row = row.copy(alloc)?;
    push_item(kept, Kept { columns, row, from })?;
    Ok(())
}

/// Keeps a row that a cover shows, with those of the rows that the cover uses.
pub fn keep(
    alloc: Global,
    columns: u32,
    rows: &[Row],
    row: &Row,
    tree: &CoverTree,
    kept: &mut Vec<Kept>,
) -> Result<(), AllocError>
    ensures { IfOk result (λ _. Keeps columns rows.now row.now tree.now kept.old.items kept.new.items) }
{
    let used = marks_of(alloc, tree, rows.len())?;
    let from = marked(alloc, rows, &used)?;
    let tree = thinned(alloc, tree, &used)?;
    keep_shown(alloc, columns, from, row, &tree, kept)
}
