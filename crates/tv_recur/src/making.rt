// Rows made of others.

ghost use Rattle.std.specs.Prelude.{◌≡◌, ◌+◌, ◌-◌, ◌^◌, ◌<◌, All, IfOk, length};
ghost use Rattle.std.specs.Result.{IfErr};
ghost use Rattle.tv_linear.specs.Linear.{columns as width, IsWithin};
ghost use Rattle.tv_linear.specs.Arithmetic.{width_of};
ghost use Rattle.tv_cases.specs.EdgeCases.{columns_from};
ghost use Rattle.tv_cases.specs.Views.{case_view};
ghost use Rattle.tv_cases.specs.Before.{AreRowsBefore};
ghost use Rattle.tv_points.specs.PointRows.{number_rows};
ghost use Rattle.tv_recur.specs.Making.{ArePut, drawn_terms, IsUnmade, RefusesBefore, RefusesPut, IsHandedOn};

use std::alloc::{AllocError, Global};
use tv_cases::{Case, all_before};
use tv_farkas::CoverFault;
use tv_linear::{Row, RowFault, push_item};

/// The fault of a row as that of a search.
pub(crate) fn handed_on(fault: RowFault) -> CoverFault
    ensures { IsHandedOn fault result }
{
    match fault {
        RowFault::Wide { column } => CoverFault::Wide { column },
        RowFault::Memory => CoverFault::Memory,
    }
}

/// The rows that have before the case the values of these rows after it.
pub(crate) fn rows_before(
    alloc: Global,
    rows: &[Row],
    case: &Case,
    variables: u32,
) -> Result<Vec<Row>, CoverFault>
    requires bounded { variables + case.now.draws < 2 ^ 32 - 1 }
    requires terms { All (λ u. width u.term ≡ variables + case.now.draws) (case_view case.now).updates }
    requires even { All (λ r. width r ≡ variables) rows.now }
    ensures rows { IfOk result (λ v. AreRowsBefore (case_view case.now) rows.now v.items) }
    ensures refusals { IfErr result (IsUnmade (RefusesBefore (case_view case.now)) rows.now) }
{
    match all_before(alloc, rows, case, variables) {
        Ok(all) => Ok(all),
        Err(RowFault::Wide { column }) => Err(CoverFault::Wide { column }),
        Err(RowFault::Memory) => Err(CoverFault::Memory),
    }
}

/// The rows with a term put in for each of their columns.
pub(crate) fn rows_put(alloc: Global, rows: &[Row], terms: &[Row]) -> Result<Vec<Row>, CoverFault>
    requires each { All (λ r. width r ≡ length terms.now) rows.now }
    requires even { All (λ t. width t ≡ width_of terms.now) terms.now }
    ensures rows { IfOk result (λ v. ArePut terms.now rows.now v.items) }
    ensures refusals { IfErr result (IsUnmade (RefusesPut terms.now) rows.now) }
{
    let mut all = Vec::new(alloc);
    'rows: for row in rows {
        match row.compose(alloc, terms) {
            Ok(made) => push_item(&mut all, made)?,
            Err(RowFault::Wide { column }) => return Err(CoverFault::Wide { column }),
            Err(RowFault::Memory) => return Err(CoverFault::Memory),
        }
    }
    Ok(all)
}

/// The variables as terms of their own.
fn variable_rows(alloc: Global, columns: u32) -> Result<Vec<Row>, AllocError>
    requires bounded { columns < 2 ^ 32 - 1 }
    ensures { IfOk result (λ v. v.items ≡ columns_from columns 0 columns) }
{
    let mut rows = Vec::new(alloc);
    'variables: for variable in 0..columns {
        push_item(&mut rows, Row::column(alloc, columns, variable)?)?;
    }
    Ok(rows)
}

/// A row for each number.
pub(crate) fn numbers_as_rows(
    alloc: Global,
    columns: u32,
    numbers: &[i128],
) -> Result<Vec<Row>, AllocError>
    requires bounded { columns < 2 ^ 32 - 1 }
    requires narrow { All (IsWithin 62) numbers.now }
    ensures { IfOk result (λ v. v.items ≡ number_rows columns numbers.now) }
{
    let mut rows = Vec::new(alloc);
    'numbers: for number in numbers {
        push_item(&mut rows, Row::narrow_number(alloc, columns, *number)?)?;
    }
    Ok(rows)
}

/// So many variables, each its own term, and then the numbers of the draws.
pub(crate) fn drawn_terms(
    alloc: Global,
    columns: u32,
    draws: &[i128],
) -> Result<Vec<Row>, AllocError>
    requires bounded { columns < 2 ^ 32 - 1 }
    requires narrow { All (IsWithin 62) draws.now }
    ensures { IfOk result (λ v. v.items ≡ drawn_terms columns draws.now) }
{
    let mut terms = variable_rows(alloc, columns)?;
    let mut numbers = numbers_as_rows(alloc, columns, draws)?;
    terms.append(&mut numbers)?;
    Ok(terms)
}
