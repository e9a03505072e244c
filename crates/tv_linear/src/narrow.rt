//! Numbers below 2^62 in magnitude, and their small sums.

ghost use Rattle.std.specs.Prelude.{◌≡◌, ◌↔◌, ◌+◌, ◌-◌, ◌*◌, ◌^◌, ◌<◌, ◌≤◌, ◌+ℤ◌, ◌-ℤ◌, pos, neg_ℤ, unsigned_abs, IsTrue, All, SomeIff, IfSome};
ghost use Rattle.tv_linear.specs.Linear.{IsWithin};

const NARROW: u128 = 1 << 62;

/// Whether the number is below 2^62 in magnitude.
pub fn is_narrow(number: i128) -> bool
    ensures { IsTrue result ↔ IsWithin 62 number }
{
    number.unsigned_abs() < NARROW
}

/// Whether each number is.
pub fn are_narrow(numbers: &[i128]) -> bool
    ensures { IsTrue result ↔ All (IsWithin 62) numbers.now }
{
    numbers.iter().all(|number| is_narrow(*number))
}

/// The number, where it is narrow.
pub fn narrow(number: i128) -> Option<i128>
    ensures exact { SomeIff result (IsWithin 62 number) number }
    ensures narrow { IfSome result (IsWithin 62) }
{
    if is_narrow(number) {
        Some(number)
    } else {
        None
    }
}

/// The narrow number in half the bits.
pub fn short(number: i128) -> i64
    requires { IsWithin 62 number }
    ensures exact { result ≡ number }
    ensures narrow { IsWithin 62 result }
{
    number as i64
}

pub fn opposite(number: i128) -> i128
    requires { IsWithin 62 number }
    ensures exact { result ≡ neg_ℤ number }
    ensures narrow { IsWithin 62 result }
{
    -number
}

/// The number taken from 1.
pub fn denial(number: i128) -> i128
    requires { IsWithin 62 number }
    ensures { result ≡ pos 1 -ℤ number }
{
    1 - number
}

pub fn sum(left: i128, right: i128) -> i128
    requires left { IsWithin 62 left }
    requires right { IsWithin 62 right }
    ensures { result ≡ left +ℤ right }
{
    left + right
}

/// `left - right + more`, in one number.
pub fn difference(left: i128, right: i128, more: i128) -> i128
    requires left { IsWithin 62 left }
    requires right { IsWithin 62 right }
    requires more { IsWithin 62 more }
    ensures { result ≡ (left +ℤ neg_ℤ right) +ℤ more }
{
    left - right + more
}

/// A number that is as small as a sum of `parts` narrow ones, and one more.
pub fn one_more(parts: u64, total: i128, number: i128) -> i128
    requires total { unsigned_abs total ≤ parts * 2 ^ 62 }
    requires bounded { parts < 2 ^ 64 - 1 }
    requires narrow { IsWithin 62 number }
    ensures exact { result ≡ total +ℤ number }
    ensures small { unsigned_abs result ≤ (parts + 1) * 2 ^ 62 }
{
    total + number
}
