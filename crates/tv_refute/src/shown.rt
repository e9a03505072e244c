ghost use Rattle.std.specs.Prelude.{◌↔◌, ◌++◌, ◌∷◌, [], IsTrue};
ghost use Rattle.tv_linear.specs.Known.{denied};
ghost use Rattle.tv_linear.specs.Refutation.{Refutes};
ghost use Rattle.tv_refute.specs.Built.{change_of};
ghost use Rattle.tv_refute.specs.Frames.{known_at};
ghost use Rattle.tv_refute.specs.Points.{Imply};
ghost use Rattle.tv_linear.specs.Views.{row_seen};

use crate::built::Built;
use crate::frames::Frames;
use crate::refute::refutes_denial;
use crate::terms::Terms;
use tv_linear::RowView;

/// How the rows of a target are changed before they are shown: terms are put in for their columns, once or
/// twice.
#[derive(Drop)]
pub enum Change<'a> {
    Kept,
    Once(&'a Terms<'a>),
    Twice(&'a Terms<'a>, &'a Terms<'a>),
}

/// Whether the multipliers refute the known rows together with the denial of the changed row.
pub fn shows(
    columns: usize,
    frames: &Frames,
    change: &Change,
    row: RowView,
    multipliers: &[i64],
) -> bool
    ensures exact { let rows = known_at frames.now ++ denied (change_of change.now (row_seen row.entry)) ∷ [] in
        IsTrue result ↔ Refutes columns rows multipliers.now }
    ensures sound { IsTrue result → Imply columns (known_at frames.now) (change_of change.now (row_seen row.entry)) }
{
    let first = Built::Given(row);
    match change {
        Change::Kept => refutes_denial(columns, frames, &first, multipliers),
        Change::Once(terms) => {
            let second = Built::Composed(&first, terms);
            refutes_denial(columns, frames, &second, multipliers)
        }
        Change::Twice(inner, outer) => {
            let second = Built::Composed(&first, inner);
            let third = Built::Composed(&second, outer);
            refutes_denial(columns, frames, &third, multipliers)
        }
    }
}
