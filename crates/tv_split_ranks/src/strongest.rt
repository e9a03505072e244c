// Lists of rows where each row has other coefficients, and the strongest of them is kept.

use std::alloc::{AllocError, Global};
use tv_cases::is_number;
use tv_linear::Row;

/// The place of the row with the same coefficients.
fn place_of(rows: &[Row], row: &Row) -> Option<usize> {
    rows.iter()
        .position(|other| other.coefficients() == row.coefficients())
}

/// Puts a tightened row into the list. Each row of the list has other coefficients.
fn put_strongest(row: Row, list: &mut Vec<Row>) -> Result<(), AllocError> {
    match place_of(list, &row) {
        None => list.push(row)?,
        Some(place) => {
            if let Some(other) = list.get_mut(place)
                && other.constant() < row.constant()
            {
                *other = row;
            }
        }
    }
    Ok(())
}

/// Puts the row, tightened, into the list; whether some point may meet it.
pub(crate) fn push_strongest(
    alloc: Global,
    row: &Row,
    list: &mut Vec<Row>,
) -> Result<bool, AllocError> {
    let tight = row.tighten(alloc)?;
    if is_number(&tight) {
        return Ok(tight.constant() <= 0);
    }
    put_strongest(tight, list)?;
    Ok(true)
}

/// Puts the rows, tightened, into the list; whether some point may meet each.
pub(crate) fn push_all_strongest(
    alloc: Global,
    rows: &[Row],
    list: &mut Vec<Row>,
) -> Result<bool, AllocError> {
    for row in rows {
        if !push_strongest(alloc, row, list)? {
            return Ok(false);
        }
    }
    Ok(true)
}

/// Whether the rows are the same.
pub(crate) fn is_same(first: &Row, second: &Row) -> bool {
    first.coefficients() == second.coefficients() && first.constant() == second.constant()
}
