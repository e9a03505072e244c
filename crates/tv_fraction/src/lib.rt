// Exact fractions with parts of 128 bits.
#![tactic(auto)]

ghost use Rattle.std.specs.Prelude.{◌≡◌, ◌↔◌, ℕ, ◌<◌, ◌≤◌, ◌^◌, pos, ◌<ℤ◌, IsTrue, unsigned_abs};
ghost use Rattle.tv_fraction.specs.Coprime.{AreCoprime};

mod arithmetic;
mod comparison;
mod narrow;
mod reduction;

pub use arithmetic::{div, mul_sub};
pub use comparison::cmp;
pub use narrow::Narrow;
pub use reduction::gcd;
use reduction::{lowest_terms, with_sign};

/// A fraction in lowest terms, whose denominator is above 0.
///
/// So each value has one form, and no other has parts of lesser magnitude.
#[derive(Clone, Copy, Debug, PartialEq, Eq)]
pub struct Fraction {
    numerator: i128,
    denominator: i128,
    pub ghost positive: { pos 0 <ℤ denominator },
    pub ghost reduced: { AreCoprime (unsigned_abs numerator) (unsigned_abs denominator) },
}

impl Fraction {
    ghost use Rattle.tv_fraction.specs.Fraction.{numerator_of, denominator_of, IsRatio, IsNarrow};

    /// The fraction of two integers, brought to lowest terms.
    pub fn new(numerator: i128, denominator: i128) -> Fraction
        requires positive { pos 0 <ℤ denominator }
        requires numerator_fits { unsigned_abs numerator < 2 ^ 126 }
        requires denominator_fits { unsigned_abs denominator < 2 ^ 126 }
        ensures value { IsRatio result numerator denominator }
        ensures numerator_bound { unsigned_abs (numerator_of result) ≤ unsigned_abs numerator }
        ensures denominator_bound { unsigned_abs (denominator_of result) ≤ unsigned_abs denominator }
    {
        if denominator == 1 {
            return Fraction {
                numerator,
                denominator,
            };
        }
        let (over, under) = lowest_terms(numerator.unsigned_abs(), denominator.unsigned_abs());
        Fraction {
            numerator: with_sign(numerator, over),
            denominator: under as i128,
        }
    }

    /// The numerator in lowest terms, which has the sign of the fraction.
    pub fn numerator(&self) -> i128
        ensures { result ≡ numerator_of self.now }
    {
        self.numerator
    }

    /// The denominator in lowest terms.
    pub fn denominator(&self) -> i128
        ensures { result ≡ denominator_of self.now }
    {
        self.denominator
    }

    /// Whether the numerator and the denominator are below 2^40 in magnitude.
    pub fn is_narrow(&self) -> bool
        ensures { IsTrue result ↔ IsNarrow self.now }
    {
        self.numerator.unsigned_abs() < 1 << 40 && self.denominator.unsigned_abs() < 1 << 40
    }
}
