ghost use Rattle.std.specs.Prelude.{◌≡◌, IfOk};
ghost use Rattle.tv_linear.specs.Views.{rows_seen};

use std::alloc::{AllocError, Global};
use tv_linear::{Row, Rows, push_item};

/// Copies of rows that are lent.
pub fn copy_rows(alloc: Global, rows: Rows) -> Result<Vec<Row>, AllocError>
    ensures { IfOk result (λ v. v.items ≡ rows_seen rows.entry) }
{
    let mut copies = Vec::new(alloc);
    let mut left = rows;
    'rows: while let Some((row, rest)) = left.split_first() {
        let coefficients = Vec::from_slice(alloc, row.coefficients())?;
        push_item(&mut copies, Row::from_narrow(coefficients, row.constant))?;
        left = rest;
    }
    Ok(copies)
}
