ghost use Rattle.std.specs.Prelude.{◌≡◌, ◌^◌, ◌<◌, ◌≤◌, All, IfOk, map};
ghost use Rattle.tv_linear.specs.Linear.{IsWithin};
ghost use Rattle.tv_linear.specs.Tight.{gcd, divisor, rounded_up};

use std::alloc::{AllocError, Global};

/// The greatest number that divides each number, 0 where these are all 0.
pub fn common_divisor(numbers: &[i64]) -> u64
    requires { All (IsWithin 62) numbers.now }
    ensures exact { result ≡ divisor numbers.now }
    ensures narrow { result < 2 ^ 62 }
{
    let mut divisor = 0;
    for number in numbers {
        divisor = greatest_common_divisor(divisor, number.unsigned_abs());
    }
    divisor
}

fn greatest_common_divisor(left: u64, right: u64) -> u64
    requires left { left < 2 ^ 62 }
    requires right { right < 2 ^ 62 }
    ensures exact { result ≡ gcd left right }
    ensures narrow { result < 2 ^ 62 }
{
    let mut x = left;
    let mut y = right;
    while y != 0 {
        let rest = x % y;
        x = y;
        y = rest;
    }
    x
}

/// The least integer at or above `number / divisor`.
pub fn rounded_up(divisor: u64, number: i64) -> i64
    requires narrow { IsWithin 62 number }
    requires positive { 1 ≤ divisor }
    requires small { divisor < 2 ^ 62 }
    ensures exact { result ≡ rounded_up divisor number }
    ensures narrow { IsWithin 62 result }
{
    -(-number).div_euclid(divisor as i64)
}

/// Each number divided and rounded up.
pub fn all_rounded_up(alloc: Global, divisor: u64, numbers: &[i64]) -> Result<Vec<i64>, AllocError>
    requires narrow { All (IsWithin 62) numbers.now }
    requires positive { 1 ≤ divisor }
    requires small { divisor < 2 ^ 62 }
    ensures exact { IfOk result (λ v. v.items ≡ map (rounded_up divisor) numbers.now) }
    ensures narrow { IfOk result (λ v. All (IsWithin 62) v.items) }
{
    let mut rounded = Vec::with_capacity(alloc, numbers.len())?;
    for number in numbers {
        rounded.push(rounded_up(divisor, *number))?;
    }
    Ok(rounded)
}
