//! Rows that are narrow, or a fault.

ghost use Rattle.std.specs.Prelude.{◌≡◌, ◌-◌, ◌^◌, ◌<◌, pos, IfOk, true};
ghost use Rattle.tv_linear.specs.Linear.{Linear, columns, IsWithin};
ghost use Rattle.tv_linear.specs.Arithmetic.{constant_row, column_row, opposite};
ghost use Rattle.tv_linear.specs.Fits.{GivesWhere, IsNarrowAt};
ghost use Rattle.tv_cases.specs.Forms.{is_narrow};
ghost use Rattle.tv_cases.specs.Lists.{difference, at_most};
ghost use Rattle.tv_cases.specs.Given.{Gives, IsMade};

use crate::fault::PartFault;
use std::alloc::{AllocError, Global};
use tv_linear::{Row, RowFault, Total};

/// A row that was made column by column, without the column of its fault.
fn as_part(made: Result<Row, RowFault>) -> Result<Row, PartFault>
    ensures { (exact meant : Linear) → GivesWhere (IsNarrowAt exact) (columns exact) meant made → Gives (is_narrow exact) meant result }
{
    match made {
        Ok(row) => Ok(row),
        Err(RowFault::Wide { .. }) => Err(PartFault::Wide),
        Err(RowFault::Memory) => Err(PartFault::Memory),
    }
}

/// A row that is known to be narrow.
pub(crate) fn known(row: Row) -> Result<Row, PartFault>
    ensures { Gives (is_narrow row) row result }
{
    let _columns = row.columns();
    Ok(row)
}

pub(crate) fn number_row(alloc: Global, width: u32, number: i128) -> Result<Row, PartFault>
    requires { width < 2 ^ 32 - 1 }
    ensures exact { Gives (is_narrow (constant_row width number)) (constant_row width number) result }
    ensures even { IfOk result (λ row. columns row ≡ width) }
{
    as_part(Row::number(alloc, width, number))
}

/// The row of 1, where a product begins.
pub(crate) fn one_row(alloc: Global, width: u32) -> Result<Row, PartFault>
    requires { width < 2 ^ 32 - 1 }
    ensures exact { Gives true (constant_row width (pos 1)) result }
    ensures even { IfOk result (λ row. columns row ≡ width) }
{
    number_row(alloc, width, 1)
}

pub(crate) fn column_row(alloc: Global, width: u32, column: u32) -> Result<Row, PartFault>
    requires bounded { width < 2 ^ 32 - 1 }
    requires inside { column < width }
    ensures exact { Gives (is_narrow (column_row width column)) (column_row width column) result }
    ensures even { IfOk result (λ row. columns row ≡ width) }
{
    known(Row::column(alloc, width, column)?)
}

pub(crate) fn opposite_row(alloc: Global, row: &Row) -> Result<Row, PartFault>
    ensures { Gives (is_narrow (opposite row.now)) (opposite row.now) result }
{
    known(row.opposite(alloc)?)
}

/// The tightened row of `left - right + less`.
pub(crate) fn at_most(alloc: Global, less: i128, left: &Row, right: &Row) -> Result<Row, PartFault>
    requires even { columns left.now ≡ columns right.now }
    requires small { IsWithin 62 less }
    ensures { Gives (is_narrow (difference less left.now right.now)) (at_most less left.now right.now) result }
{
    as_part(Row::at_most(alloc, less, left, right))
}

/// The row of a sum; `None` where it is too wide.
pub(crate) fn sum_row(alloc: Global, total: Total) -> Result<Option<Row>, AllocError>
    requires { columns total.row < 2 ^ 32 - 1 }
    ensures { IfOk result (IsMade (is_narrow total.row) total.row) }
{
    total.into_row(alloc)
}
