ghost use Rattle.std.specs.Prelude.{◌≡◌, ◌+◌, ◌^◌, ◌<◌, ◌≤◌, ◌↔◌, ◌+ℤ◌, ◌*ℤ◌, ◌≤ℤ◌, ◌<ℤ◌, pos, length, All, unsigned_abs, IsTrue};
ghost use Rattle.tv_linear.specs.Linear.{columns, IsWithin, IsMet};
ghost use Rattle.tv_refute.specs.Wide.{whole, whole_of, IsSmall};
ghost use Rattle.tv_linear.specs.Views.{row_seen, rows_seen};

use tv_linear::{RowView, Rows};

const PART: i128 = 1 << 62;

/// The integer `high * 2^124 + middle * 2^62 + low`.
#[derive(Clone, Copy)]
struct Wide {
    high: i128,
    middle: i128,
    low: i128,
}

/// Whether numbers meet a row. What is added up may leave `i128`.
pub fn meets(values: &[i128], row: RowView) -> bool
    requires { length values.now ≡ columns (row_seen row) }
    ensures { IsTrue result ↔ IsMet values.now (row_seen row.entry) }
{
    let coefficients = row.coefficients();
    let mut total = Wide {
        high: 0,
        middle: 0,
        low: 0,
    };
    for i in 0..values.len() {
        total = plus(i, total, product(i128::from(coefficients[i]), values[i]));
    }
    is_at_most_zero(plus(values.len(), total, product(row.constant(), 1)))
}

/// Whether numbers meet all of the rows.
pub fn meets_all(values: &[i128], rows: Rows) -> bool
    requires { All (λ r. columns r ≡ length values.now) (rows_seen rows) }
    ensures { IsTrue result ↔ All (IsMet values.now) (rows_seen rows.entry) }
{
    for i in 0..rows.len() {
        if !meets(values, rows.row(i)) {
            return false;
        }
    }
    true
}

/// The quotient by 2^62, rounded down, and what is left.
fn split(number: i128) -> (i128, i128)
    ensures whole { number ≡ (result.0 *ℤ pos (2 ^ 62)) +ℤ result.1 }
    ensures above { pos 0 ≤ℤ result.1 }
    ensures below { result.1 <ℤ pos (2 ^ 62) }
    ensures small { unsigned_abs result.0 ≤ 2 ^ 65 }
{
    (number.div_euclid(PART), number.rem_euclid(PART))
}

fn product(coefficient: i128, value: i128) -> Wide
    requires { IsWithin 62 coefficient }
    ensures whole { whole_of result ≡ coefficient *ℤ value }
    ensures small { IsSmall 1 result }
{
    let (value_high, value_low) = split(value);
    let upper = times(coefficient, value_high);
    let lower = times(coefficient, value_low);
    let (high, middle) = split(upper);
    let (carry, low) = split(lower);
    Wide {
        high,
        middle: middle + carry,
        low,
    }
}

fn times(coefficient: i128, part: i128) -> i128
    requires narrow { IsWithin 62 coefficient }
    requires small { unsigned_abs part ≤ 2 ^ 65 }
    ensures { result ≡ coefficient *ℤ part }
{
    coefficient * part
}

/// The sum of a number that is a sum of `parts` products, and one more.
fn plus(parts: usize, total: Wide, part: Wide) -> Wide
    requires bounded { parts < 2 ^ 32 }
    requires total { IsSmall parts total }
    requires part { IsSmall 1 part }
    ensures whole { whole_of result ≡ whole_of total +ℤ whole_of part }
    ensures small { IsSmall (parts + 1) result }
{
    Wide {
        high: total.high + part.high,
        middle: total.middle + part.middle,
        low: total.low + part.low,
    }
}

fn is_at_most_zero(number: Wide) -> bool
    requires { IsSmall (2 ^ 32) number }
    ensures { IsTrue result ↔ (whole_of number ≤ℤ pos 0) }
{
    let (low_carry, low) = split(number.low);
    let (middle_carry, middle) = split(number.middle + low_carry);
    are_at_most_zero(number.high + middle_carry, middle, low)
}

/// The same, where the lower parts are not negative and carry nothing.
fn are_at_most_zero(high: i128, middle: i128, low: i128) -> bool
    requires middle { pos 0 ≤ℤ middle }
    requires middle_below { middle <ℤ pos (2 ^ 62) }
    requires low { pos 0 ≤ℤ low }
    requires low_below { low <ℤ pos (2 ^ 62) }
    ensures { IsTrue result ↔ (whole high middle low ≤ℤ pos 0) }
{
    if high == 0 {
        middle == 0 && low == 0
    } else {
        high < 0
    }
}
