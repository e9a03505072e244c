// Rows that were shown to follow from others.

ghost use Rattle.std.specs.Prelude.{IsTrue};
ghost use Rattle.tv_invariant.specs.Kept.{Follows};

use crate::rows::{are_implied, implies};
use tv_linear::Row;

/// A row that follows from others.
#[derive(Drop)]
pub struct Kept {
    pub columns: u32,
    pub row: Row,
    /// The rows that its proof needs.
    pub from: Vec<Row>,
    pub ghost follows: { Follows columns from.items row },
}

/// Whether it was shown before that the row follows from some of the rows.
pub fn is_kept(kept: &[Kept], columns: u32, rows: &[Row], row: &Row) -> bool
    ensures { IsTrue result → Follows columns rows.now row.now }
{
    'kept: for one in kept {
        if one.columns == columns && implies(&one.row, row) && are_implied(rows, &one.from) {
            return true;
        }
    }
    false
}
