// Rows made of others. What does not fit is no row.

ghost use Rattle.std.specs.Prelude.{◌≡◌, All, IfOk, IfSome, length};

use crate::rows::drawing::coefficient_at;
use std::alloc::{AllocError, Global};
use tv_cases::is_number;
use tv_linear::Row;
use tv_linear::held::{add_product, difference};

/// So many columns are more than a row may have.
const TOO_MANY: usize = 1 << 31;

/// The number of the row with the terms put in at a column of theirs.
fn coefficient_of(row: &Row, terms: &[Row], column: usize) -> Option<i128> {
    let mut total = 0;
    for (place, term) in terms.iter().enumerate() {
        let left = coefficient_at(row, place);
        if left != 0 {
            let right = coefficient_at(term, column);
            total = add_product(total, i128::from(left), i128::from(right))?;
        }
    }
    Some(total)
}

/// The constant of the row with the terms put in.
fn constant_of(row: &Row, terms: &[Row]) -> Option<i128> {
    let mut total = row.constant();
    for (place, term) in terms.iter().enumerate() {
        let left = coefficient_at(row, place);
        if left != 0 {
            total = add_product(total, i128::from(left), term.constant())?;
        }
    }
    Some(total)
}

/// The row of these numbers; `None` where one of them is not narrow.
fn row_of(
    alloc: Global,
    coefficients: &[i128],
    constant: Option<i128>,
) -> Result<Option<Row>, AllocError>
    ensures { IfOk result (λ made. IfSome made (λ row. length row.coefficients ≡ length coefficients.now)) }
{
    let Some(constant) = constant else {
        return Ok(None);
    };
    if coefficients.len() >= TOO_MANY {
        return Ok(None);
    }
    Row::new(alloc, coefficients, constant)
}

/// The row with a term of `columns` columns put in for each of its columns.
pub fn put_in(
    alloc: Global,
    columns: usize,
    row: &Row,
    terms: &[Row],
) -> Result<Option<Row>, AllocError>
    ensures { IfOk result (λ made. IfSome made (λ row. length row.coefficients ≡ columns)) }
{
    let mut coefficients = Vec::new(alloc);
    for column in 0..columns {
        match coefficient_of(row, terms, column) {
            None => return Ok(None),
            Some(number) => coefficients.push(number)?,
        }
    }
    row_of(alloc, &coefficients, constant_of(row, terms))
}

/// Each of the rows with a term put in for each of its columns.
pub fn all_put_in(
    alloc: Global,
    columns: usize,
    rows: &[Row],
    terms: &[Row],
) -> Result<Option<Vec<Row>>, AllocError>
    ensures counted { IfOk result (λ made. IfSome made (λ all. length all.items ≡ length rows.now)) }
    ensures even { IfOk result (λ made. IfSome made (λ all. All (λ row. length row.coefficients ≡ columns) all.items)) }
{
    let mut all = Vec::new(alloc);
    for row in rows {
        match put_in(alloc, columns, row, terms)? {
            None => return Ok(None),
            Some(made) => all.push(made)?,
        }
    }
    Ok(Some(all))
}

/// The first row less the second, over `columns` columns.
pub fn less(
    alloc: Global,
    columns: usize,
    first: &Row,
    second: &Row,
) -> Result<Option<Row>, AllocError>
    ensures { IfOk result (λ made. IfSome made (λ row. length row.coefficients ≡ columns)) }
{
    let mut coefficients = Vec::new(alloc);
    for column in 0..columns {
        let left = i128::from(coefficient_at(first, column));
        let right = i128::from(coefficient_at(second, column));
        match difference(left, right) {
            None => return Ok(None),
            Some(number) => coefficients.push(number)?,
        }
    }
    row_of(
        alloc,
        &coefficients,
        difference(first.constant(), second.constant()),
    )
}

/// The sum of a multiple of each of two rows, over `columns` columns.
pub fn with_multiples(
    alloc: Global,
    columns: usize,
    first: (&Row, i128),
    second: (&Row, i128),
) -> Result<Option<Row>, AllocError>
    ensures { IfOk result (λ made. IfSome made (λ row. length row.coefficients ≡ columns)) }
{
    let mut coefficients = Vec::new(alloc);
    for column in 0..columns {
        let left = i128::from(coefficient_at(first.0, column));
        let right = i128::from(coefficient_at(second.0, column));
        match sum_of((left, first.1), (right, second.1)) {
            None => return Ok(None),
            Some(number) => coefficients.push(number)?,
        }
    }
    let constant = sum_of(
        (first.0.constant(), first.1),
        (second.0.constant(), second.1),
    );
    row_of(alloc, &coefficients, constant)
}

/// The sum of two products.
fn sum_of(first: (i128, i128), second: (i128, i128)) -> Option<i128> {
    add_product(add_product(0, first.0, first.1)?, second.0, second.1)
}

/// The row that is 1 in one column; that of zeros past the last.
pub fn unit_row(alloc: Global, columns: usize, column: usize) -> Result<Option<Row>, AllocError>
    ensures { IfOk result (λ made. IfSome made (λ row. length row.coefficients ≡ columns)) }
{
    let mut coefficients = vec![in alloc; 0; columns]?;
    if let Some(place) = coefficients.get_mut(column) {
        *place = 1;
    }
    row_of(alloc, &coefficients, Some(0))
}

/// The variables as terms of their own.
pub fn unit_rows(alloc: Global, columns: usize) -> Result<Option<Vec<Row>>, AllocError>
    ensures counted { IfOk result (λ made. IfSome made (λ all. length all.items ≡ columns)) }
    ensures even { IfOk result (λ made. IfSome made (λ all. All (λ row. length row.coefficients ≡ columns) all.items)) }
{
    let mut rows = Vec::new(alloc);
    for column in 0..columns {
        match unit_row(alloc, columns, column)? {
            None => return Ok(None),
            Some(row) => rows.push(row)?,
        }
    }
    Ok(Some(rows))
}

/// Whether the row is among the rows.
fn is_listed(rows: &[Row], row: &Row) -> bool {
    for other in rows {
        if other.coefficients() == row.coefficients() && other.constant() == row.constant() {
            return true;
        }
    }
    false
}

/// Puts the row, tightened, at the end of the list, unless it is among them or every point meets it; whether some point may meet it.
pub(crate) fn push_tight(
    alloc: Global,
    row: &Row,
    list: &mut Vec<Row>,
) -> Result<bool, AllocError> {
    let tight = row.tighten(alloc)?;
    if is_number(&tight) {
        return Ok(tight.constant() <= 0);
    }
    if !is_listed(list, &tight) {
        list.push(tight)?;
    }
    Ok(true)
}

/// Puts the rows, tightened, at the end of the list; whether some point may meet each.
pub(crate) fn push_all_tight(
    alloc: Global,
    rows: &[Row],
    list: &mut Vec<Row>,
) -> Result<bool, AllocError> {
    for row in rows {
        if !push_tight(alloc, row, list)? {
            return Ok(false);
        }
    }
    Ok(true)
}
