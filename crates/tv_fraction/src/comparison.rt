// The order of fractions of any width.

ghost use Rattle.std.specs.Prelude.{◌≡◌, ℕ, ◌<◌, ◌*◌, ◌*ℤ◌};
ghost use Rattle.std.specs.Ordering.{nat_cmp, int_cmp};
ghost use Rattle.tv_fraction.specs.Fraction.{numerator_of, denominator_of};

use crate::Fraction;
use std::cmp::Ordering;

/// Compares `a / b` with `c / d`: by their whole parts, and where these are equal by what remains,
/// turned upside down. No product is made that might be too wide.
fn cmp_parts(a: u128, b: u128, c: u128, d: u128) -> Ordering
    requires first { 0 < b }
    requires second { 0 < d }
    ensures { result ≡ nat_cmp (a * d) (c * b) }
{
    let p = a / b;
    let q = c / d;
    if p < q {
        return Ordering::Less;
    }
    if q < p {
        return Ordering::Greater;
    }
    match (a % b, c % d) {
        (0, 0) => Ordering::Equal,
        (0, _) => Ordering::Less,
        (_, 0) => Ordering::Greater,
        (r, s) => cmp_parts(d, s, b, r),
    }
}

/// Compares two fractions of any width by their values.
pub fn cmp(a: &Fraction, b: &Fraction) -> Ordering
    ensures { result ≡ int_cmp
        (numerator_of a.now *ℤ denominator_of b.now)
        (numerator_of b.now *ℤ denominator_of a.now) }
{
    let first = a.numerator.unsigned_abs();
    let second = b.numerator.unsigned_abs();
    let first_under = a.denominator.unsigned_abs();
    let second_under = b.denominator.unsigned_abs();
    match (a.numerator < 0, b.numerator < 0) {
        (false, false) => cmp_parts(first, first_under, second, second_under),
        (false, true) => Ordering::Greater,
        (true, false) => Ordering::Less,
        (true, true) => cmp_parts(second, second_under, first, first_under),
    }
}
