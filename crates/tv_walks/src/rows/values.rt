// Values of rows at points.

ghost use Rattle.std.specs.Prelude.{◌≡◌, IfSome};

use crate::limits::LARGEST;
use std::alloc::{AllocError, Global};
use tv_cases::Case;
use tv_linear::Row;
use tv_linear::held::{add_product, sum};

/// The number at a place of two lists, one after the other, and 0 past their ends.
fn number_at(values: &[i64], draws: &[i64], place: usize) -> i64 {
    if place < values.len() {
        values[place]
    } else {
        draws.get(place - values.len()).copied().unwrap_or(0)
    }
}

/// The value of the row at a point, where the draws come after the values; `None` where a number on the way is 2^127 or more in magnitude.
pub(crate) fn value_at(row: &Row, values: &[i64], draws: &[i64]) -> Option<i128> {
    let mut total = 0;
    for (column, coefficient) in row.coefficients().iter().enumerate() {
        if *coefficient != 0 {
            let number = number_at(values, draws, column);
            total = add_product(total, i128::from(*coefficient), i128::from(number))?;
        }
    }
    sum(total, row.constant())
}

/// Whether the row is met at the point.
pub(crate) fn is_met_at(row: &Row, values: &[i64], draws: &[i64]) -> bool {
    match value_at(row, values, draws) {
        Some(value) => value <= 0,
        None => false,
    }
}

/// Whether all of the rows are met at the point.
pub(crate) fn are_met_at(rows: &[Row], values: &[i64], draws: &[i64]) -> bool {
    for row in rows {
        if !is_met_at(row, values, draws) {
            return false;
        }
    }
    true
}

/// The number in half the bits, where it is not too large for a graph.
pub(crate) fn bounded(number: i128) -> Option<i64>
    ensures { IfSome result (λ value. value ≡ number) }
{
    if number < -LARGEST {
        return None;
    }
    if number > LARGEST {
        return None;
    }
    Some(number as i64)
}

/// The value that a term gives, where it is not too large for a graph.
fn given_by(term: &Row, values: &[i64], draws: &[i64]) -> Option<i64> {
    bounded(value_at(term, values, draws)?)
}

/// The values after the case; `None` where one of them is too large.
pub(crate) fn values_after(
    alloc: Global,
    case: &Case,
    values: &[i64],
    draws: &[i64],
) -> Result<Option<Vec<i64>>, AllocError> {
    let mut after = Vec::from_slice(alloc, values)?;
    for update in &case.updates {
        let Some(value) = given_by(&update.term, values, draws) else {
            return Ok(None);
        };
        if let Some(place) = after.get_mut(update.variable as usize) {
            *place = value;
        }
    }
    Ok(Some(after))
}
