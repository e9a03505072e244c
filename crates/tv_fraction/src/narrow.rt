// Narrow fractions in less memory.

ghost use Rattle.std.specs.Prelude.{ℕ, ◌<◌, ◌^◌, pos, ◌<ℤ◌, unsigned_abs};
ghost use Rattle.tv_fraction.specs.Coprime.{AreCoprime};

use crate::Fraction;

/// A narrow fraction, with parts of 64 bits.
#[derive(Clone, Copy, Debug, PartialEq, Eq)]
pub struct Narrow {
    numerator: i64,
    denominator: i64,
    pub ghost positive: { pos 0 <ℤ denominator },
    pub ghost reduced: { AreCoprime (unsigned_abs numerator) (unsigned_abs denominator) },
    pub ghost numerator_bound: { unsigned_abs numerator < 2 ^ 40 },
    pub ghost denominator_bound: { unsigned_abs denominator < 2 ^ 40 },
}

impl Narrow {
    ghost use Rattle.tv_fraction.specs.Fraction.{IsNarrow};
    ghost use Rattle.tv_fraction.specs.Narrow.{IsOf};

    pub fn new(fraction: &Fraction) -> Narrow
        requires { IsNarrow fraction.now }
        ensures { IsOf fraction.now result }
    {
        Narrow {
            numerator: fraction.numerator as i64,
            denominator: fraction.denominator as i64,
        }
    }

    pub fn fraction(&self) -> Fraction
        ensures same { IsOf result self.now }
        ensures narrow { IsNarrow result }
    {
        Fraction {
            numerator: self.numerator as i128,
            denominator: self.denominator as i128,
        }
    }
}
