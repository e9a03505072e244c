// Points with whole coordinates, or without.

ghost use Rattle.std.specs.Prelude.{◌≡◌, ℕ, ◌<◌, length, get_or, pos, ◌<ℤ◌, ◌*ℤ◌, IsTrue, ◌↔◌, IfOk, MatchOption};
ghost use Rattle.tv_simplex.specs.Outcomes.{IsShort};
ghost use Rattle.tv_farkas.specs.Stretching.{AreWhole, IsFirstOpen, AreDivided, IsFloor};

use std::alloc::{AllocError, Global};
use tv_linear::push_item;

/// The integer at or just below a number over a scale.
pub(crate) fn floor_of(number: i128, scale: i128) -> i128
    requires number { IsShort number }
    requires scale { IsShort scale }
    requires positive { pos 0 <ℤ scale }
    ensures floor { IsFloor number scale result }
    ensures short { IsShort result }
{
    number.div_euclid(scale)
}

/// Whether the product of two numbers is a third.
fn is_product(whole: i128, scale: i128, number: i128) -> bool
    requires whole { IsShort whole }
    requires scale { IsShort scale }
    ensures { IsTrue result ↔ whole *ℤ scale ≡ number }
{
    whole * scale == number
}

/// The first coordinate that is not whole.
pub fn first_fraction(values: &[i128], scale: i128) -> Option<usize>
    requires values { (j : ℕ) → j < length values.now → IsShort (get_or values.now j (pos 0)) }
    requires scale { IsShort scale }
    requires positive { pos 0 <ℤ scale }
    ensures { MatchOption result (AreWhole values.now scale) (IsFirstOpen values.now scale) }
{
    'columns: for column in 0..values.len() {
        let floor = floor_of(values[column], scale);
        if !is_product(floor, scale, values[column]) {
            return Some(column);
        }
    }
    None
}

/// The whole coordinates of a point.
pub fn divided(alloc: Global, values: &[i128], scale: i128) -> Result<Vec<i128>, AllocError>
    requires values { (j : ℕ) → j < length values.now → IsShort (get_or values.now j (pos 0)) }
    requires scale { IsShort scale }
    requires positive { pos 0 <ℤ scale }
    requires whole { AreWhole values.now scale }
    ensures { IfOk result (λ xs. AreDivided (length values.now) values.now scale xs.items) }
{
    let mut xs = Vec::new(alloc);
    'columns: for column in 0..values.len() {
        push_item(&mut xs, floor_of(values[column], scale))?;
    }
    Ok(xs)
}
