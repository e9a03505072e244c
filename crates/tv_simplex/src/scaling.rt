// Fractions brought to integers by one scale.

ghost use Rattle.std.specs.Prelude.{◌≡◌, ◌*◌, ◌^◌, ◌<◌, length, pos, ◌*ℤ◌, unsigned_abs, MatchOption, MatchResult};
ghost use Prim.Native.Nat.{◌∣◌};
ghost use Rattle.tv_fraction.specs.Fraction.{numerator_of, denominator_of};
ghost use Rattle.tv_simplex.specs.Scales.{AreBounded, IsCommon, HasNoCommon, IsLarger, HasNoLarger, IsTimes, AreScaled, IsScalingStop};
ghost use Rattle.tv_simplex.specs.Scales.{denominator_at as spec_denominator};

use crate::fractions::fraction_at;
use crate::stop::Stop;
use std::alloc::Global;
use tv_fraction::{Fraction, gcd};
use tv_linear::push_item;

/// Whole numbers over a scale.
#[derive(Drop)]
pub struct Scaled {
    pub numbers: Vec<i128>,
    pub scale: i128,
}

/// The least common multiple, where it is below 2^62.
fn larger_scale(scale: u128, denominator: u128) -> Option<u128>
    requires scale { 0 < scale }
    requires denominator { 0 < denominator }
    ensures { MatchOption result (HasNoLarger scale denominator) (λ s. IsLarger scale denominator s) }
{
    let common = gcd(scale, denominator);
    match (scale / common).checked_mul(denominator) {
        None => None,
        Some(larger) => { if larger < 1 << 62 { Some(larger) } else { None } }
    }
}

/// The magnitude of the denominator at a place.
fn denominator_at(fractions: &[Fraction], place: usize) -> u128
    requires { place < length fractions.now }
    ensures is { result ≡ unsigned_abs (spec_denominator fractions.now place) }
    ensures positive { 0 < result }
{
    fraction_at(fractions, place).denominator().unsigned_abs()
}

/// The least common multiple of the denominators, where it is below 2^62.
fn common_scale(fractions: &[Fraction]) -> Option<u128>
    ensures { MatchOption result
        (HasNoCommon fractions.now (length fractions.now))
        (λ s. IsCommon fractions.now (length fractions.now) s) }
{
    let mut scale: u128 = 1;
    'places: for j in 0..fractions.len() {
        match larger_scale(scale, denominator_at(fractions, j)) {
            Some(larger) => scale = larger,
            None => return None,
        }
    }
    Some(scale)
}

/// A product that is far from the bounds of its type.
fn product(a: i128, b: u128) -> i128
    requires first { unsigned_abs a < 2 ^ 41 }
    requires second { b < 2 ^ 62 }
    ensures { result ≡ a *ℤ pos b }
{
    a * b as i128
}

/// The fraction times the scale. Its denominator divides the scale.
fn times(fraction: &Fraction, scale: u128) -> i128
    requires bounded { unsigned_abs (numerator_of fraction.now) < 2 ^ 41 }
    requires scale { scale < 2 ^ 62 }
    requires divisor { unsigned_abs (denominator_of fraction.now) ∣ scale }
    ensures { IsTimes fraction.now (pos scale) result }
{
    product(
        fraction.numerator(),
        scale / fraction.denominator().unsigned_abs(),
    )
}

/// The fractions as integers below 2^62 over a scale below 2^62.
pub fn bring_to_scale(alloc: Global, fractions: &[Fraction]) -> Result<Scaled, Stop>
    requires { AreBounded fractions.now }
    ensures { MatchResult result
        (λ s. AreScaled fractions.now s.numbers.items s.scale)
        (λ stop. IsScalingStop fractions.now stop) }
{
    let scale = match common_scale(fractions) {
        Some(scale) => scale,
        None => return Err(Stop::Scale),
    };
    let mut numbers = Vec::with_capacity(alloc, fractions.len())?;
    'places: for j in 0..fractions.len() {
        let whole = times(&fraction_at(fractions, j), scale);
        if whole.unsigned_abs() >= 1 << 62 {
            return Err(Stop::Scale);
        }
        push_item(&mut numbers, whole)?;
    }
    Ok(Scaled {
        numbers,
        scale: scale as i128,
    })
}
