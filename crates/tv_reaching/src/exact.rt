// Sums of products of narrow numbers, which may be too great for one number.

ghost use Rattle.std.specs.Prelude.{◌≡◌, ◌+◌, ◌^◌, ◌<◌, ◌≤◌, ◌+ℤ◌, ◌*ℤ◌, pos, unsigned_abs, length, All, SomeIff, IfSome};
ghost use Rattle.tv_linear.specs.Linear.{IsWithin, dot};
ghost use Rattle.tv_reaching.specs.Sums.{whole};

use crate::parts::Parts;
use tv_linear::is_narrow;

const UNIT: i128 = 1 << 126;

/// The product of two narrow numbers.
fn product(left: i64, right: i64) -> i128
    requires left { IsWithin 62 left }
    requires right { IsWithin 62 right }
    ensures exact { result ≡ left *ℤ right }
    ensures small { IsWithin 124 result }
{
    i128::from(left) * i128::from(right)
}

/// The parts of a number of units and a number that may be a little more than a unit.
fn carried(high: i64, low: i128) -> Parts
    requires high { IsWithin 33 high }
    requires low { unsigned_abs low < 2 ^ 126 + 2 ^ 124 }
    ensures exact { whole result ≡ low +ℤ (high *ℤ pos (2 ^ 126)) }
    ensures high { unsigned_abs result.high ≤ unsigned_abs high + 1 }
{
    if low >= UNIT {
        Parts {
            high: high + 1,
            low: low - UNIT,
        }
    } else if low <= -UNIT {
        Parts {
            high: high - 1,
            low: low + UNIT,
        }
    } else {
        Parts { high, low }
    }
}

/// The sum and one product more.
fn plus_product(total: Parts, left: i64, right: i64) -> Parts
    requires high { IsWithin 33 total.high }
    requires left { IsWithin 62 left }
    requires right { IsWithin 62 right }
    ensures exact { whole result ≡ whole total +ℤ (left *ℤ right) }
    ensures high { unsigned_abs result.high ≤ unsigned_abs total.high + 1 }
{
    carried(total.high, total.low + product(left, right))
}

/// The products of factors and numbers, added to a first number.
pub(crate) fn dot_from(total: Parts, factors: &[i64], numbers: &[i64]) -> Parts
    requires room { unsigned_abs total.high + length factors.now < 2 ^ 33 }
    requires factors { All (IsWithin 62) factors.now }
    requires numbers { All (IsWithin 62) numbers.now }
    ensures exact { whole result ≡ whole total +ℤ dot factors.now numbers.now }
    ensures high { unsigned_abs result.high ≤ unsigned_abs total.high + length factors.now }
{
    match factors {
        [] => total,
        [factor, other_factors @ ..] => match numbers {
            [] => total,
            [number, other_numbers @ ..] => {
                let sum = plus_product(total, *factor, *number);
                dot_from(sum, other_factors, other_numbers)
            }
        },
    }
}

/// A number in one part, where it is narrow.
fn narrow(number: i128) -> Option<i64>
    ensures exact { SomeIff result (IsWithin 62 number) number }
    ensures narrow { IfSome result (IsWithin 62) }
{
    if is_narrow(number) {
        Some(number as i64)
    } else {
        None
    }
}

/// The number of the parts, where it is narrow.
pub(crate) fn narrowed(total: Parts) -> Option<i64>
    ensures exact { SomeIff result (IsWithin 62 (whole total)) (whole total) }
    ensures narrow { IfSome result (IsWithin 62) }
{
    if total.high == 0 {
        narrow(total.low)
    } else if total.high == 1 {
        narrow(total.low + UNIT)
    } else if total.high == -1 {
        narrow(total.low - UNIT)
    } else {
        None
    }
}
