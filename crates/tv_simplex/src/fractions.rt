// Fractions.

ghost use Rattle.std.specs.Prelude.{◌≡◌, ◌<◌, length, pos, ◌<ℤ◌, IsTrue, ◌↔◌};
ghost use Rattle.tv_fraction.specs.Fraction.{numerator_of, IsNarrow};
ghost use Rattle.tv_simplex.specs.Ratios.{IsQuotient, IsLessProduct};
ghost use Rattle.tv_simplex.specs.Rows.{ratio};
ghost use Rattle.tv_simplex.specs.Scales.{ratio_at};

use tv_fraction::{Fraction, div, mul_sub};

/// The fraction at a place.
pub fn fraction_at(fractions: &[Fraction], place: usize) -> Fraction
    requires { place < length fractions.now }
    ensures is { ratio result ≡ ratio_at fractions.now place }
{
    fractions[place]
}

pub fn is_zero(fraction: &Fraction) -> bool
    ensures { IsTrue result ↔ numerator_of fraction.now ≡ pos 0 }
{
    fraction.numerator() == 0
}

pub fn is_negative(fraction: &Fraction) -> bool
    ensures { IsTrue result ↔ (numerator_of fraction.now <ℤ pos 0) }
{
    fraction.numerator() < 0
}

pub fn is_positive(fraction: &Fraction) -> bool
    ensures { IsTrue result ↔ (pos 0 <ℤ numerator_of fraction.now) }
{
    fraction.numerator() > 0
}

/// A fraction divided by one above 0.
pub fn quotient(fraction: &Fraction, divisor: &Fraction) -> Fraction
    requires fraction { IsNarrow fraction.now }
    requires divisor { IsNarrow divisor.now }
    requires above { pos 0 <ℤ numerator_of divisor.now }
    ensures { IsQuotient (ratio result) (ratio fraction.now) (ratio divisor.now) }
{
    div(fraction, divisor)
}

/// A fraction less a product of two.
pub fn less_product(fraction: &Fraction, factor: &Fraction, pivot: &Fraction) -> Fraction
    requires fraction { IsNarrow fraction.now }
    requires factor { IsNarrow factor.now }
    requires pivot { IsNarrow pivot.now }
    ensures { IsLessProduct (ratio result) (ratio fraction.now) (ratio factor.now) (ratio pivot.now) }
{
    mul_sub(fraction, factor, pivot)
}
