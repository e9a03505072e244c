// Rows without draws that are met wherever some draws meet the given rows, by the method of Fourier and Motzkin over the rationals.

use crate::areas::cutting::push_strongest;
use crate::limits::SHADOW_ROWS;
use std::alloc::{AllocError, Global};
use tv_linear::Row;
use tv_walks::{coefficient_at, put_in, unit_rows, with_multiples};

/// The sum of multiples of a row that bounds the column from below and one that bounds it from above, in which the column has no part.
fn between(
    alloc: Global,
    width: usize,
    low: &Row,
    high: &Row,
    column: usize,
) -> Result<Option<Row>, AllocError> {
    let less = i128::from(coefficient_at(low, column));
    let more = i128::from(coefficient_at(high, column));
    match tv_linear::held::opposite(less) {
        None => Ok(None),
        Some(less) => with_multiples(alloc, width, (low, more), (high, less)),
    }
}

/// Puts the sums of a row that bounds the column from below with those that bound it from above into the list.
fn push_between(
    alloc: Global,
    width: usize,
    low: &Row,
    rows: &[Row],
    column: usize,
    list: &mut Vec<Row>,
) -> Result<bool, AllocError> {
    let mut sums = Vec::new(alloc);
    for high in rows {
        if coefficient_at(high, column) > 0
            && list.len() < SHADOW_ROWS
            && let Some(row) = between(alloc, width, low, high, column)?
        {
            sums.push(row)?;
        }
    }
    push_strongest(alloc, &sums, list)
}

/// The rows in which the column has no part.
fn rows_free_of(alloc: Global, rows: &[Row], column: usize) -> Result<Vec<Row>, AllocError> {
    let mut list = Vec::new(alloc);
    for row in rows {
        if coefficient_at(row, column) == 0 {
            list.push(row.copy(alloc)?)?;
        }
    }
    Ok(list)
}

/// Rows in which the column has no part, met wherever some number there meets the rows; `None` where none does.
fn without_column(
    alloc: Global,
    width: usize,
    rows: &[Row],
    column: usize,
) -> Result<Option<Vec<Row>>, AllocError> {
    let mut list = Vec::new(alloc);
    let free = rows_free_of(alloc, rows, column)?;
    if !push_strongest(alloc, &free, &mut list)? {
        return Ok(None);
    }
    for low in rows {
        if coefficient_at(low, column) < 0
            && !push_between(alloc, width, low, rows, column, &mut list)?
        {
            return Ok(None);
        }
    }
    Ok(Some(list))
}

/// The rows with the columns from `columns` on left out, which are 0 there.
fn shortened(alloc: Global, columns: usize, rows: &[Row]) -> Result<Vec<Row>, AllocError> {
    let mut list = Vec::new(alloc);
    let Some(units) = unit_rows(alloc, columns)? else {
        return Ok(list);
    };
    for row in rows {
        if let Some(short) = put_in(alloc, columns, row, &units)? {
            list.push(short)?;
        }
    }
    Ok(list)
}

/// Rows over the first columns, met wherever some numbers in the other columns meet the rows; `None` where none do.
pub(crate) fn shadow(
    alloc: Global,
    columns: usize,
    width: usize,
    rows: &[Row],
) -> Result<Option<Vec<Row>>, AllocError> {
    let mut list = Vec::new(alloc);
    if !push_strongest(alloc, rows, &mut list)? {
        return Ok(None);
    }
    for column in (columns..width).rev() {
        match without_column(alloc, width, &list, column)? {
            None => return Ok(None),
            Some(fewer) => list = fewer,
        }
    }
    Ok(Some(shortened(alloc, columns, &list)?))
}
