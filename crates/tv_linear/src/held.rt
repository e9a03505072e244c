//! Arithmetic on integers below 2^127 in magnitude: one number less than `i128` has.

ghost use Rattle.std.specs.Prelude.{◌+ℤ◌, ◌-ℤ◌, ◌*ℤ◌, neg_ℤ, SomeIff};
ghost use Rattle.tv_linear.specs.Fits.{IsHeld};

fn held(number: i128) -> Option<i128>
    ensures { SomeIff result (IsHeld number) number }
{
    if number == i128::MIN {
        None
    } else {
        Some(number)
    }
}

pub fn product(left: i128, right: i128) -> Option<i128>
    ensures { SomeIff result (IsHeld (left *ℤ right)) (left *ℤ right) }
{
    held(left.checked_mul(right)?)
}

pub fn sum(left: i128, right: i128) -> Option<i128>
    ensures { SomeIff result (IsHeld (left +ℤ right)) (left +ℤ right) }
{
    held(left.checked_add(right)?)
}

pub fn difference(left: i128, right: i128) -> Option<i128>
    ensures { SomeIff result (IsHeld (left -ℤ right)) (left -ℤ right) }
{
    held(left.checked_sub(right)?)
}

pub fn opposite(number: i128) -> Option<i128>
    ensures { SomeIff result (IsHeld (neg_ℤ number)) (neg_ℤ number) }
{
    number.checked_neg()
}

/// `total + left * right`, where both the product and the sum are below 2^127 in magnitude.
pub fn add_product(total: i128, left: i128, right: i128) -> Option<i128>
    ensures { let sum = total +ℤ left *ℤ right in
        SomeIff result (IsHeld (left *ℤ right) × IsHeld sum) sum }
{
    sum(total, product(left, right)?)
}
