// Points over a scale that are known to meet the rows of a place.

ghost use Rattle.std.specs.Prelude.{◌≡◌, ◌++◌, ◌∷◌, [], length, pos, ◌≤ℤ◌, IfSome, IsTrue, MatchBool};
ghost use Rattle.std.specs.List.{Contains};
ghost use Rattle.tv_linear.specs.Linear.{columns as width, scaled_value};
ghost use Rattle.tv_cover.specs.Targets.{HasPoint};
ghost use Rattle.tv_cover.specs.Looking.{AreWitnesses};

use tv_farkas::is_among;
use tv_linear::sums::{Slice, dot_from};
use tv_linear::{Row, held};

/// The numbers of a point over its scale.
#[derive(Drop)]
pub struct Witness {
    pub values: Vec<i128>,
    pub scale: i128,
}

/// The value of a row at a point, times the scale; `None` where a number on the way is 2^127 or more in magnitude.
fn value_at(row: &Row, point: &Witness) -> Option<i128>
    requires { length point.now.values.items ≡ width row.now }
    ensures { IfSome result (λ v. v ≡ scaled_value row.now point.now.values.items point.now.scale) }
{
    match dot_from(0, row.coefficients(), &Slice(&point.values)) {
        None => None,
        Some(total) => match held::product(row.constant(), point.scale) {
            None => None,
            Some(last) => held::sum(total, last),
        },
    }
}

/// Whether a point is found to meet a row.
fn is_met(row: &Row, point: &Witness) -> bool
    requires { length point.now.values.items ≡ width row.now }
    ensures { IsTrue result → scaled_value row.now point.now.values.items point.now.scale ≤ℤ pos 0 }
{
    match value_at(row, point) {
        None => false,
        Some(value) => value <= 0,
    }
}

/// Whether a row is found to be met by some point of the rows of a place: by one of these points, or by each of them,
/// since it is among the rows.
pub fn has_point(rows: &[Row], points: &[Witness], row: &Row) -> bool
    requires points { AreWitnesses (width row.now) rows.now points.now }
    requires some { HasPoint (width row.now) rows.now }
    ensures { MatchBool result (HasPoint (width row.now) (rows.now ++ row.now ∷ [])) (Contains rows.now row.now → ⊥) }
{
    'points: for point in points {
        if is_met(row, point) {
            return true;
        }
    }
    is_among(rows, row)
}
