// Exact arithmetic on narrow fractions.

ghost use Rattle.std.specs.Prelude.{◌≡◌, ◌≢◌, ◌↔◌, ℕ, ◌<◌, ◌^◌, pos, ◌-ℤ◌, ◌*ℤ◌, unsigned_abs, IsTrue};
ghost use Rattle.tv_fraction.specs.Fraction.{numerator_of, denominator_of, IsBelow, IsNarrow, IsRatio, IsQuotient, IsDifference};

use crate::Fraction;

/// The product of two narrow numbers.
fn short_product(a: i128, b: i128) -> i128
    requires first { unsigned_abs a < 2 ^ 40 }
    requires second { unsigned_abs b < 2 ^ 40 }
    ensures product { result ≡ a *ℤ b }
    ensures bound { unsigned_abs result < 2 ^ 80 }
{
    a * b
}

/// The product of a narrow number and a product of two.
fn long_product(a: i128, b: i128) -> i128
    requires first { unsigned_abs a < 2 ^ 40 }
    requires second { unsigned_abs b < 2 ^ 80 }
    ensures product { result ≡ a *ℤ b }
    ensures bound { unsigned_abs result < 2 ^ 120 }
{
    a * b
}

fn are_whole(a: &Fraction, c: &Fraction, q: &Fraction) -> bool
    ensures { IsTrue result ↔ (denominator_of a.now ≡ pos 1) × (denominator_of c.now ≡ pos 1) × (denominator_of q.now ≡ pos 1) }
{
    a.denominator == 1 && c.denominator == 1 && q.denominator == 1
}

fn is_one(fraction: &Fraction) -> bool
    ensures { IsTrue result ↔ (numerator_of fraction.now ≡ pos 1) × (denominator_of fraction.now ≡ pos 1) }
{
    fraction.numerator == 1 && fraction.denominator == 1
}

/// The integer `a - c * q`.
fn whole_mul_sub(a: i128, c: i128, q: i128) -> Fraction
    requires a_narrow { unsigned_abs a < 2 ^ 40 }
    requires c_narrow { unsigned_abs c < 2 ^ 40 }
    requires q_narrow { unsigned_abs q < 2 ^ 40 }
    ensures value { IsRatio result (a -ℤ c *ℤ q) (pos 1) }
    ensures bound { IsBelow (2 ^ 121) result }
{
    let taken = short_product(c, q);
    Fraction::new(a - taken, 1)
}

/// The exact value of `a - c * q`.
pub fn mul_sub(a: &Fraction, c: &Fraction, q: &Fraction) -> Fraction
    requires a_narrow { IsNarrow a.now }
    requires c_narrow { IsNarrow c.now }
    requires q_narrow { IsNarrow q.now }
    ensures value { IsDifference result a.now c.now q.now }
    ensures bound { IsBelow (2 ^ 121) result }
{
    if are_whole(a, c, q) {
        return whole_mul_sub(a.numerator, c.numerator, q.numerator);
    }
    let under = short_product(c.denominator, q.denominator);
    let over = short_product(c.numerator, q.numerator);
    let kept = long_product(a.numerator, under);
    let taken = long_product(a.denominator, over);
    let denominator = long_product(a.denominator, under);
    Fraction::new(kept - taken, denominator)
}

/// The exact value of `a / b`.
pub fn div(a: &Fraction, b: &Fraction) -> Fraction
    requires a_narrow { IsNarrow a.now }
    requires b_narrow { IsNarrow b.now }
    requires nonzero { numerator_of b.now ≢ pos 0 }
    ensures value { IsQuotient result a.now b.now }
    ensures bound { IsBelow (2 ^ 80) result }
{
    if a.numerator == 0 {
        return *a;
    }
    if is_one(b) {
        return *a;
    }
    let over = short_product(a.numerator, b.denominator);
    let under = short_product(a.denominator, b.numerator);
    if under < 0 {
        return Fraction::new(-over, -under);
    }
    Fraction::new(over, under)
}
