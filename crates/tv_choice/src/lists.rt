// Lists of rows.

ghost use Rattle.std.specs.Prelude.{◌≡◌, ◌+◌, ◌-◌, ◌^◌, ◌<◌, ◌≤◌, ◌++◌, ◌∷◌, [], All, length, map, IfOk};
ghost use Rattle.tv_farkas.specs.Refuting.{AreShort};
ghost use Rattle.tv_choice.specs.Rows.{fixes};

use std::alloc::{AllocError, Global};
use tv_farkas::{at_least, at_most};
use tv_linear::{Row, copies, push_item};

/// The rows, and one more at the end.
pub fn with_row(alloc: Global, rows: &[Row], row: &Row) -> Result<Vec<Row>, AllocError>
    ensures { IfOk result (λ v. v.items ≡ rows.now ++ row.now ∷ []) }
{
    let mut all = copies(alloc, rows)?;
    push_item(&mut all, row.copy(alloc)?)?;
    Ok(all)
}

/// Rows that fix the first columns at these numbers.
pub fn fixing(alloc: Global, columns: u32, values: &[i128]) -> Result<Vec<Row>, AllocError>
    requires bounded { columns < 2 ^ 32 - 1 }
    requires inside { length values.now ≤ columns }
    requires short { AreShort values.now }
    ensures { IfOk result (λ v. v.items ≡ fixes columns 0 values.now) }
{
    let mut rows = Vec::new(alloc);
    'values: for column in 0..values.len() {
        let value = values[column];
        push_item(&mut rows, at_most(alloc, columns, column as u32, value)?)?;
        push_item(
            &mut rows,
            at_least(alloc, columns, column as u32, value - 1)?,
        )?;
    }
    Ok(rows)
}
