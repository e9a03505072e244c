//! What becomes of numbers, for many columns at once.

ghost use Rattle.std.specs.Prelude.{◌≡◌, ◌≤◌, ℕ, ℤ, pos, ◌+ℤ◌, Option, SomeIff, length, get_or};
ghost use Rattle.tv_linear.specs.Fits.{IsHeld};
ghost use Rattle.tv_refute.specs.Blocks.{AreTold, DenialHeld, denial, LessHeld, lessened};

use tv_linear::held::{difference, opposite, sum};

/// What becomes of the number at a place, where it can be told.
pub(crate) trait Step {
    ghost told: { Self → ℕ → ℤ → Type 0 };

    ghost value: { Self → ℕ → ℤ → ℤ };

    fn next(&self, k: usize, old: i128) -> Option<i128>
        ensures { SomeIff result (told self.now k old) (value self.now k old) };
}

/// Changes the first `count` numbers; whether each can be told.
pub(crate) fn change_each<S: Step>(numbers: &mut [i128], count: usize, step: &S) -> bool
    requires { count ≤ length numbers.old }
    ensures size { length numbers.new ≡ length numbers.old }
    ensures told { AreTold result count (λ k. S.told step.now k (get_or numbers.old k (pos 0)))
        (λ k. S.value step.now k (get_or numbers.old k (pos 0))) numbers.new }
{
    for k in 0..count {
        match step.next(k, numbers[k]) {
            None => return false,
            Some(number) => numbers[k] = number,
        }
    }
    true
}

/// The number of a list at a place, 0 past it.
pub(crate) fn at(numbers: &[i64], k: usize) -> i128
    ensures { result ≡ get_or numbers.now k (pos 0) }
{
    match numbers.get(k) {
        None => 0,
        Some(number) => i128::from(*number),
    }
}

/// The same of a list of numbers that were read.
pub(crate) fn read_at(numbers: &[i128], k: usize) -> i128
    ensures { result ≡ get_or numbers.now k (pos 0) }
{
    match numbers.get(k) {
        None => 0,
        Some(number) => *number,
    }
}

/// The numbers of a list are put.
#[derive(Drop)]
pub(crate) struct Put<'a>(pub(crate) &'a [i64]);

impl Step for Put<'_> {
    ghost told = { λ p k old. Unit {0} };

    ghost value = { λ p k old. get_or p.0.now k (pos 0) };

    fn next(&self, k: usize, _: i128) -> Option<i128> {
        Some(at(self.0, k))
    }
}

/// One number is put everywhere.
#[derive(Drop)]
pub(crate) struct PutSame(pub(crate) i128);

impl Step for PutSame {
    ghost told = { λ p k old. Unit {0} };

    ghost value = { λ p k old. p.0 };

    fn next(&self, _: usize, _: i128) -> Option<i128> {
        Some(self.0)
    }
}

/// One number is added everywhere.
#[derive(Drop)]
pub(crate) struct SameMore(pub(crate) i128);

impl Step for SameMore {
    ghost told = { λ m k old. IsHeld (old +ℤ m.0) };

    ghost value = { λ m k old. old +ℤ m.0 };

    fn next(&self, _: usize, old: i128) -> Option<i128> {
        sum(old, self.0)
    }
}

/// The number of a denied row in a column, or its constant.
pub(crate) fn denied(column: Option<usize>, number: i128) -> Option<i128>
    ensures { SomeIff result (DenialHeld column number) (denial column number) }
{
    match column {
        None => difference(1, number),
        Some(_) => {
            if number == 0 {
                return Some(0);
            }
            opposite(number)
        }
    }
}

/// The numbers of a row become those of its denial.
#[derive(Drop)]
pub(crate) struct Deny {
    pub(crate) column: Option<usize>,
}

impl Step for Deny {
    ghost told = { λ d k old. DenialHeld d.column old };

    ghost value = { λ d k old. denial d.column old };

    fn next(&self, _: usize, old: i128) -> Option<i128> {
        denied(self.column, old)
    }
}

/// The numbers of a second row are taken away, and a number is added to the constant.
#[derive(Drop)]
pub(crate) struct Lessen<'a> {
    pub(crate) column: Option<usize>,
    pub(crate) second: &'a [i128],
    pub(crate) more: i128,
}

impl Step for Lessen<'_> {
    ghost told = { λ l k old. LessHeld l.column l.more old (get_or l.second.now k (pos 0)) };

    ghost value = { λ l k old. lessened l.column l.more old (get_or l.second.now k (pos 0)) };

    fn next(&self, k: usize, old: i128) -> Option<i128> {
        match difference(old, read_at(self.second, k)) {
            None => None,
            Some(less) => match self.column {
                None => sum(less, self.more),
                Some(_) => Some(less),
            },
        }
    }
}
