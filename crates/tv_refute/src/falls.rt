ghost use Rattle.std.specs.Prelude.{◌↔◌, IsTrue, pos, ◌++◌, ◌∷◌, []};
ghost use Rattle.tv_linear.specs.Falls.{zero_row};
ghost use Rattle.tv_linear.specs.Known.{denied, given, less};
ghost use Rattle.tv_linear.specs.Refutation.{Refutes};
ghost use Rattle.tv_linear.specs.Views.{row_seen};
ghost use Rattle.tv_refute.specs.Built.{change_of};
ghost use Rattle.tv_refute.specs.Frames.{known_at};

use crate::built::Built;
use crate::frames::Frames;
use crate::refute::refutes_denial;
use crate::shown::Change;
use tv_linear::RowView;

/// A rank before, and the row that is changed to the rank after.
#[derive(Clone, Copy)]
pub struct Rank<'a> {
    pub change: &'a Change<'a>,
    pub old: RowView<'a>,
    pub new: RowView<'a>,
}

/// Whether the multipliers show that the rank after, less the rank before and plus a number, is met.
pub fn shows_less(
    columns: usize,
    frames: &Frames,
    rank: &Rank,
    more: i128,
    multipliers: &[i64],
) -> bool
    ensures { let after = change_of rank.now.change.now (row_seen rank.now.new) in
        let fall = less after (given (row_seen rank.now.old)) more in
        IsTrue result ↔ Refutes columns (known_at frames.now ++ denied fall ∷ []) multipliers.now }
{
    let first = Built::Given(rank.new);
    let from = Built::Given(rank.old);
    match rank.change {
        Change::Kept => {
            let fall = Built::Less(&first, &from, more);
            refutes_denial(columns, frames, &fall, multipliers)
        }
        Change::Once(terms) => {
            let second = Built::Composed(&first, terms);
            let fall = Built::Less(&second, &from, more);
            refutes_denial(columns, frames, &fall, multipliers)
        }
        Change::Twice(inner, outer) => {
            let second = Built::Composed(&first, inner);
            let third = Built::Composed(&second, outer);
            let fall = Built::Less(&third, &from, more);
            refutes_denial(columns, frames, &fall, multipliers)
        }
    }
}

/// Whether the multipliers show that the row is not below 0.
pub fn shows_not_below(columns: usize, frames: &Frames, old: RowView, multipliers: &[i64]) -> bool
    ensures { let fall = less (given zero_row) (given (row_seen old.entry)) (pos 0) in
        IsTrue result ↔ Refutes columns (known_at frames.now ++ denied fall ∷ []) multipliers.now }
{
    let zero = Built::Zero;
    let from = Built::Given(old);
    let fall = Built::Less(&zero, &from, 0);
    refutes_denial(columns, frames, &fall, multipliers)
}
