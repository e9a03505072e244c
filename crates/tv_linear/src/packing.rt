ghost use Rattle.std.specs.Prelude.{◌≡◌, ◌↔◌, ◌++◌, ◌∷◌, [], All, IsTrue, OnOk};
ghost use Rattle.tv_linear.specs.Linear.{columns, IsNarrow};
ghost use Rattle.tv_linear.specs.Packed.{packed};

use crate::Row;
use std::alloc::AllocError;

/// Puts the numbers of rows after others, each constant after the coefficients of its row.
pub fn append_rows(numbers: &mut Vec<i64>, rows: &[Row]) -> Result<(), AllocError>
    ensures appended { OnOk result (numbers.new.items ≡ numbers.old.items ++ packed rows.now) }
    ensures narrow { OnOk result (All IsNarrow rows.now) }
{
    for row in rows {
        append_row(numbers, row)?;
    }
    Ok(())
}

fn append_row(numbers: &mut Vec<i64>, row: &Row) -> Result<(), AllocError>
    ensures appended { OnOk result (numbers.new.items ≡ numbers.old.items ++ (row.now.coefficients ++ row.now.constant ∷ [])) }
    ensures narrow { IsNarrow row.now }
{
    numbers.extend_from_slice(row.coefficients())?;
    numbers.push(row.constant() as i64)?;
    Ok(())
}

/// Whether each row has `count` columns.
pub fn have_columns(rows: &[Row], count: u32) -> bool
    ensures { IsTrue result ↔ All (λ r. columns r ≡ count) rows.now }
{
    rows.iter().all(|row| row.columns() == count)
}
