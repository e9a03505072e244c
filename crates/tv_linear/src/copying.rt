// Copies of rows and of lists of numbers.

ghost use Rattle.std.specs.Prelude.{◌≡◌, ◌++◌, ◌+◌, ◌-◌, ◌^◌, ◌<◌, All, IfOk, map};
ghost use Rattle.tv_linear.specs.Linear.{columns, IsNarrow};
ghost use Rattle.tv_linear.specs.Arithmetic.{padded_row};

use crate::Row;
use std::alloc::{AllocError, Global};

/// Puts copies of the rows at the end of a list. Each row is narrow.
pub fn push_copies(alloc: Global, rows: &[Row], list: &mut Vec<Row>) -> Result<(), AllocError>
    ensures copied { IfOk result (λ _. list.new.items ≡ list.old.items ++ rows.now) }
    ensures narrow { IfOk result (λ _. All IsNarrow rows.now) }
{
    'rows: for row in rows {
        let _columns = row.columns();
        list.push(row.copy(alloc)?)?;
    }
    Ok(())
}

/// A copy of the row, which is narrow.
pub fn copy_row(alloc: Global, row: &Row) -> Result<Row, AllocError>
    ensures same { IfOk result (λ copy. copy ≡ row.now) }
    ensures narrow { IsNarrow row.now }
{
    let _columns = row.columns();
    row.copy(alloc)
}

/// Copies of the rows.
pub fn copies(alloc: Global, rows: &[Row]) -> Result<Vec<Row>, AllocError>
    ensures { IfOk result (λ v. v.items ≡ rows.now) }
{
    let mut list = Vec::new(alloc);
    push_copies(alloc, rows, &mut list)?;
    Ok(list)
}

/// The rows of the first list and those of the second.
pub fn joined(alloc: Global, first: &[Row], second: &[Row]) -> Result<Vec<Row>, AllocError>
    ensures { IfOk result (λ v. v.items ≡ first.now ++ second.now) }
{
    let mut list = copies(alloc, first)?;
    push_copies(alloc, second, &mut list)?;
    Ok(list)
}

/// Each row with `more` further columns.
pub fn all_padded(alloc: Global, rows: &[Row], more: u32) -> Result<Vec<Row>, AllocError>
    requires bounded { All (λ r. columns r + more < 2 ^ 32 - 1) rows.now }
    ensures exact { IfOk result (λ v. v.items ≡ map (padded_row more) rows.now) }
{
    let mut all = Vec::new(alloc);
    'rows: for row in rows {
        all.push(row.padded(alloc, more)?)?;
    }
    Ok(all)
}

/// Copies of the lists.
pub fn copies_of_lists(alloc: Global, lists: &[Vec<i64>]) -> Result<Vec<Vec<i64>>, AllocError>
    ensures { IfOk result (λ v. map (λ l. l.items) v.items ≡ map (λ l. l.items) lists.now) }
{
    let mut copies = Vec::new(alloc);
    for list in lists {
        copies.push(Vec::from_slice(alloc, list)?)?;
    }
    Ok(copies)
}
