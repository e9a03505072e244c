//! Values of rows, as far as an `i128` holds them.

ghost use Rattle.std.specs.Prelude.{◌≡◌, ◌&&◌, ◌+ℤ◌, ◌*ℤ◌, cond, map, true, Some, None, MatchResult};
ghost use Rattle.tv_linear.specs.Linear.{value, dot};
ghost use Rattle.tv_exec.specs.Held.{is_held};
ghost use Rattle.tv_trace.specs.Widths.{sums_are_held, value_is_held, draws_are_held, values_drawn};
ghost use Rattle.tv_trace.specs.Steps.{IsStepFault};

use crate::fault::StepFault;
use std::alloc::Global;
use tv_linear::Row;

fn sum(left: i128, right: i128) -> Option<i128>
    ensures { let sum = left +ℤ right in result ≡ cond (is_held sum) (Some sum) None }
{
    left.checked_add(right)
}

/// A number and a product, where the product and the sum are held.
fn add_product(total: i128, coefficient: i64, number: i128) -> Option<i128>
    ensures { let product = coefficient *ℤ number in
        let sum = total +ℤ product in
        result ≡ cond (is_held product && is_held sum) (Some sum) None }
{
    match i128::from(coefficient).checked_mul(number) {
        None => None,
        Some(product) => sum(total, product),
    }
}

/// The products of coefficients and numbers, added to a first number from the left.
fn dot_from(total: i128, coefficients: &[i64], numbers: &[i128]) -> Option<i128>
    ensures { result ≡ cond (sums_are_held total coefficients.now numbers.now) (Some (total +ℤ dot coefficients.now numbers.now)) None }
{
    match coefficients {
        [] => Some(total),
        [coefficient, rest @ ..] => match numbers {
            [] => Some(total),
            [number, others @ ..] => match add_product(total, *coefficient, *number) {
                None => None,
                Some(sum) => dot_from(sum, rest, others),
            },
        },
    }
}

/// The value of a row: the products in the order of the columns, and the constant last.
pub(crate) fn value_at(row: &Row, numbers: &[i128]) -> Option<i128>
    ensures { result ≡ cond (value_is_held numbers.now row.now) (Some (value row.now numbers.now)) None }
{
    match dot_from(0, row.coefficients(), numbers) {
        None => None,
        Some(total) => sum(total, row.constant()),
    }
}

/// The values of terms, in order.
pub(crate) fn values_at(
    alloc: Global,
    terms: &[Row],
    numbers: &[i128],
) -> Result<Vec<i128>, StepFault>
    ensures { let held = draws_are_held numbers.now terms.now in
        MatchResult result (λ v. (held ≡ true) × (v.items ≡ values_drawn numbers.now terms.now)) (IsStepFault held) }
{
    let mut values = Vec::with_capacity(alloc, terms.len())?;
    for term in terms {
        match value_at(term, numbers) {
            None => return Err(StepFault::Wide),
            Some(value) => values.push(value)?,
        }
    }
    Ok(values)
}
