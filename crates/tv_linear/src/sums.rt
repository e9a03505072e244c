//! Sums of products, each of them and each sum on the way below 2^127 in magnitude.

ghost use Rattle.std.specs.Prelude.{◌≡◌, ◌<◌, ℤ, pos, ◌+ℤ◌, List, length, slice_index_or, SomeIff};
ghost use Rattle.tv_linear.specs.Linear.{dot};
ghost use Rattle.tv_linear.specs.Fits.{SumsHeld};

use crate::held::add_product;

/// Numbers by place.
pub trait Numbers {
    ghost numbers: { Self → List ℤ };

    fn number(&self, i: usize) -> i128
        requires { i < length (numbers self.now) }
        ensures { result ≡ slice_index_or (numbers self.now) i (pos 0) };
}

/// The numbers of a slice.
#[derive(Drop)]
pub struct Slice<'a>(pub &'a [i128]);

impl Numbers for Slice<'_> {
    ghost numbers = { λ l. l.0.now };

    fn number(&self, i: usize) -> i128 {
        self.0[i]
    }
}

/// The products of factors and numbers, added to a first number from the left.
pub fn dot_from<N: Numbers>(start: i128, factors: &[i64], numbers: &N) -> Option<i128>
    requires { length (N.numbers numbers.now) ≡ length factors.now }
    ensures { let xs = N.numbers numbers.now in
        SomeIff result (SumsHeld start factors.now xs) (start +ℤ dot factors.now xs) }
{
    let mut total = start;
    for i in 0..factors.len() {
        match add_product(total, i128::from(factors[i]), numbers.number(i)) {
            None => return None,
            Some(sum) => total = sum,
        }
    }
    Some(total)
}
