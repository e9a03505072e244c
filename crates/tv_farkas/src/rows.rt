// Rows that are taken once, and rows of one column.

ghost use Rattle.std.specs.Prelude.{◌≡◌, ◌+◌, ◌-◌, ◌^◌, ◌<◌, IfOk, IsTrue, ◌↔◌, pos, ◌+ℤ◌};
ghost use Rattle.std.specs.List.{Contains};
ghost use Rattle.tv_linear.specs.Linear.{IsWithin};
ghost use Rattle.tv_farkas.specs.Paths.{TakenOnce, at_most_row, at_least_row};
ghost use Rattle.tv_farkas.specs.Stretching.{IsTakenBy};

use std::alloc::{AllocError, Global};
use tv_linear::{Row, push_item};

/// Rows that are taken once, and for each row of the list that they come from whether it was taken before.
#[derive(Drop)]
pub struct Distinct {
    pub rows: Vec<Row>,
    pub repeated: Vec<bool>,
}

/// Whether two rows have the same numbers.
pub fn is_same(first: &Row, second: &Row) -> bool
    ensures { IsTrue result ↔ first.now ≡ second.now }
{
    first.constant() == second.constant() && first.coefficients() == second.coefficients()
}

/// Whether the two lists have the same rows, one by one.
pub fn are_same(first: &[Row], second: &[Row]) -> bool
    ensures { IsTrue result ↔ first.now ≡ second.now }
{
    match (first, second) {
        ([], []) => true,
        ([row, rows @ ..], [other, others @ ..]) => is_same(row, other) && are_same(rows, others),
        _ => false,
    }
}

/// Whether the row is one of the list.
pub fn is_among(rows: &[Row], row: &Row) -> bool
    ensures { IsTrue result ↔ Contains rows.now row.now }
{
    'rows: for other in rows {
        if is_same(other, row) {
            return true;
        }
    }
    false
}

/// Takes each row once, at its first place.
pub fn take_once(alloc: Global, rows: &[Row]) -> Result<Distinct, AllocError>
    ensures taken { IfOk result (λ d. TakenOnce rows.now d.rows.items) }
    ensures marked { IfOk result (λ d. IsTakenBy d.repeated.items rows.now d.rows.items) }
{
    let mut kept = Vec::new(alloc);
    let mut repeated = Vec::new(alloc);
    'rows: for row in rows {
        let again = is_among(&kept, row);
        push_item(&mut repeated, again)?;
        if !again {
            push_item(&mut kept, row.copy(alloc)?)?;
        }
    }
    Ok(Distinct {
        rows: kept,
        repeated,
    })
}

/// The row `x - floor` of a column.
pub fn at_most(alloc: Global, columns: u32, column: u32, floor: i128) -> Result<Row, AllocError>
    requires bounded { columns < 2 ^ 32 - 1 }
    requires column { column < columns }
    requires short { IsWithin 62 floor }
    ensures { IfOk result (λ r. r ≡ at_most_row columns column floor) }
{
    Row::column(alloc, columns, column)?.with_constant(alloc, -floor)
}

/// The row `floor + 1 - x` of a column.
pub fn at_least(alloc: Global, columns: u32, column: u32, floor: i128) -> Result<Row, AllocError>
    requires bounded { columns < 2 ^ 32 - 1 }
    requires column { column < columns }
    requires short { IsWithin 62 (floor +ℤ pos 1) }
    ensures { IfOk result (λ r. r ≡ at_least_row columns column floor) }
{
    Row::column(alloc, columns, column)?
        .opposite(alloc)?
        .with_constant(alloc, floor + 1)
}
