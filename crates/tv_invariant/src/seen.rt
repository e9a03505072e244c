ghost use Rattle.std.specs.Prelude.{◌≡◌, [], length, map, All, IsTrue};
ghost use Rattle.tv_linear.specs.Linear.{columns as width};
ghost use Rattle.tv_invariant.specs.Failing.{FailsAt};

use std::alloc::Global;
use tv_linear::Row;

/// What was found of the integer points of some rows.
#[derive(Drop)]
pub struct Seen {
    /// Some of the points.
    pub points: Vec<Vec<i128>>,
    /// Rows that each of the points meets.
    pub shown: Vec<Row>,
}

impl Seen {
    /// Nothing was found yet.
    pub fn new(alloc: Global) -> Seen
        ensures points { result.points.items ≡ [] }
        ensures shown { result.shown.items ≡ [] }
    {
        Seen {
            points: Vec::new(alloc),
            shown: Vec::new(alloc),
        }
    }
}

/// Whether the row is not met at one of the points. A point at which its value leaves 128 bits is ignored.
pub fn fails_at(points: &[Vec<i128>], row: &Row) -> bool
    requires { All (λ xs. length xs ≡ width row.now) (map (λ p. p.items) points.now) }
    ensures { IsTrue result → FailsAt (map (λ p. p.items) points.now) row.now }
{
    'points: for point in points {
        if let Some(false) = row.holds(point) {
            return true;
        }
    }
    false
}
