//! Values of expressions.

ghost use Rattle.std.specs.Prelude.{◌≡◌, pos, slice_index_or, cond, Some, None};
ghost use Rattle.tv_program.specs.Meaning.{value_of, sum_of, product_of};
ghost use Rattle.tv_program.specs.Views.{expression, expressions};
ghost use Rattle.tv_exec.specs.Held.{is_exact, adds_exactly, multiplies_exactly};

use crate::held::{opposite, product, sum};
use tv_program::Expr;

fn number_at(numbers: &[i128], place: u32) -> i128
    ensures { result ≡ slice_index_or numbers.now place (pos 0) }
{
    match numbers.get(place as usize) {
        Some(number) => *number,
        None => 0,
    }
}

/// The value of an expression, where it is exact.
#[cycle(values)]
pub(crate) fn value_of(expr: &Expr, values: &[i128], draws: &[i128]) -> Option<i128>
    ensures { let e = expression expr.now in
        result ≡ cond (is_exact e values.now draws.now) (Some (value_of e values.now draws.now)) None }
{
    match expr {
        Expr::Number(number) => Some(*number),
        Expr::Variable(variable) => Some(number_at(values, *variable)),
        Expr::Draw(draw) => Some(number_at(draws, *draw)),
        Expr::Minus(inner) => match value_of(inner, values, draws) {
            Some(value) => opposite(value),
            None => None,
        },
        Expr::Sum(parts) => sum_of(parts, values, draws),
        Expr::Product(parts) => product_of(parts, values, draws),
    }
}

#[cycle(values)]
fn sum_of(parts: &[Expr], values: &[i128], draws: &[i128]) -> Option<i128>
    ensures { let es = expressions parts.now in
        result ≡ cond (adds_exactly (pos 0) es values.now draws.now) (Some (sum_of es values.now draws.now)) None }
{
    let mut total = 0;
    for part in parts {
        let value = match value_of(part, values, draws) {
            Some(value) => value,
            None => return None,
        };
        total = match sum(total, value) {
            Some(total) => total,
            None => return None,
        };
    }
    Some(total)
}

#[cycle(values)]
fn product_of(parts: &[Expr], values: &[i128], draws: &[i128]) -> Option<i128>
    ensures { let es = expressions parts.now in
        result ≡ cond (multiplies_exactly (pos 1) es values.now draws.now) (Some (product_of es values.now draws.now)) None }
{
    let mut total = 1;
    for part in parts {
        let value = match value_of(part, values, draws) {
            Some(value) => value,
            None => return None,
        };
        total = match product(total, value) {
            Some(total) => total,
            None => return None,
        };
    }
    Some(total)
}
