//! What is added to sums, for many columns at once.

ghost use Rattle.std.specs.Prelude.{◌≡◌, ◌≤◌, ℕ, ℤ, pos, ◌+ℤ◌, ◌*ℤ◌, Option, SomeIff, length, get_or};
ghost use Rattle.tv_refute.specs.Blocks.{AreTold, AreHeld, IsAddedHeld, DenialHeld, denial};

use crate::steps::{at, denied, read_at};
use tv_linear::held::add_product;

/// A number at each place, where it can be told.
pub(crate) trait Addend {
    ghost told: { Self → ℕ → Type 0 };

    ghost number: { Self → ℕ → ℤ };

    fn number(&self, k: usize) -> Option<i128>
        ensures { SomeIff result (told self.now k) (number self.now k) };
}

/// Adds `count` products with a factor; whether each number can be told, and is held with its product and sum. Where
/// a number is 0 its sum is not touched.
pub(crate) fn add_each<A: Addend>(
    totals: &mut [i128],
    count: usize,
    factor: i128,
    addend: &A,
) -> bool
    requires size { count ≤ length totals.old }
    requires held { AreHeld count totals.old }
    ensures size { length totals.new ≡ length totals.old }
    ensures told { AreTold result count
        (λ k. A.told addend.now k × IsAddedHeld (get_or totals.old k (pos 0)) factor (A.number addend.now k))
        (λ k. get_or totals.old k (pos 0) +ℤ factor *ℤ A.number addend.now k) totals.new }
{
    for k in 0..count {
        let Some(number) = addend.number(k) else {
            return false;
        };
        if number == 0 {
            continue;
        }
        match add_product(totals[k], factor, number) {
            None => return false,
            Some(sum) => totals[k] = sum,
        }
    }
    true
}

/// The numbers of a row.
#[derive(Drop)]
pub(crate) struct RowNumbers<'a>(pub(crate) &'a [i64]);

impl Addend for RowNumbers<'_> {
    ghost told = { λ l k. Unit {0} };

    ghost number = { λ l k. get_or l.0.now k (pos 0) };

    fn number(&self, k: usize) -> Option<i128> {
        Some(at(self.0, k))
    }
}

/// Numbers that were read.
#[derive(Drop)]
pub(crate) struct Read<'a>(pub(crate) &'a [i128]);

impl Addend for Read<'_> {
    ghost told = { λ r k. Unit {0} };

    ghost number = { λ r k. get_or r.0.now k (pos 0) };

    fn number(&self, k: usize) -> Option<i128> {
        Some(read_at(self.0, k))
    }
}

/// One number everywhere.
#[derive(Drop)]
pub(crate) struct Same(pub(crate) i128);

impl Addend for Same {
    ghost told = { λ s k. Unit {0} };

    ghost number = { λ s k. s.0 };

    fn number(&self, _: usize) -> Option<i128> {
        Some(self.0)
    }
}

/// The numbers of the denial of a row whose numbers were read.
#[derive(Drop)]
pub(crate) struct Denial<'a> {
    pub(crate) column: Option<usize>,
    pub(crate) numbers: &'a [i128],
}

impl Addend for Denial<'_> {
    ghost told = { λ d k. DenialHeld d.column (get_or d.numbers.now k (pos 0)) };

    ghost number = { λ d k. denial d.column (get_or d.numbers.now k (pos 0)) };

    fn number(&self, k: usize) -> Option<i128> {
        denied(self.column, read_at(self.numbers, k))
    }
}
