// Rows with a point that meets them.

ghost use Rattle.std.specs.Prelude.{◌≡◌, length, pos, ◌≤ℤ◌, IfSome, IsTrue};
ghost use Rattle.tv_linear.specs.Linear.{columns as width, scaled_value};

use tv_linear::sums::{Slice, dot_from};
use tv_linear::{Row, held};

/// Rows, and a point over a scale that meets them.
#[derive(Drop)]
pub struct Place<'a> {
    pub rows: &'a [Row],
    pub values: &'a [i128],
    pub scale: i128,
}

/// The value of a row at the point, times the scale; `None` where a number on the way is 2^127 or more in magnitude.
fn value_at(row: &Row, place: &Place) -> Option<i128>
    requires { length place.now.values.now ≡ width row.now }
    ensures { IfSome result (λ v. v ≡ scaled_value row.now place.now.values.now place.now.scale) }
{
    match dot_from(0, row.coefficients(), &Slice(place.values)) {
        None => None,
        Some(total) => match held::product(row.constant(), place.scale) {
            None => None,
            Some(last) => held::sum(total, last),
        },
    }
}

/// Whether the point is found to meet a row.
pub fn is_met(row: &Row, place: &Place) -> bool
    requires { length place.now.values.now ≡ width row.now }
    ensures { IsTrue result → scaled_value row.now place.now.values.now place.now.scale ≤ℤ pos 0 }
{
    match value_at(row, place) {
        None => false,
        Some(value) => value <= 0,
    }
}
