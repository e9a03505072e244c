// The column that enters a basis.

ghost use Rattle.std.specs.Prelude.{◌<◌, length, MatchOption};
ghost use Rattle.tv_simplex.specs.Choosing.{NoneNegative, IsFirstNegative};
ghost use Rattle.tv_simplex.specs.Tables.{shown, IsTable};

use crate::fractions::is_negative;
use crate::rows::{fraction_of, row_at};
use crate::table::Table;

/// The first column of the system with a negative entry in the row, which is that of the objective.
pub fn entering_column(table: &Table, objective: usize) -> Option<usize>
    requires table { IsTable table.now }
    requires objective { objective < length table.now.rows.items }
    ensures { MatchOption result
        (NoneNegative (shown table.now objective) table.now.columns)
        (λ c. IsFirstNegative (shown table.now objective) table.now.columns c) }
{
    let mut left = row_at(&table.rows, objective);
    'entries: while let [first, rest @ ..] = left {
        let column = first.column as usize;
        if column >= table.columns {
            return None;
        }
        if is_negative(&fraction_of(first)) {
            return Some(column);
        }
        left = rest;
    }
    None
}
