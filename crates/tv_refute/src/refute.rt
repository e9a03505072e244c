ghost use Rattle.std.specs.Prelude.{◌≡◌, ◌↔◌, ◌≤◌, ◌<◌, ℕ, ◌++◌, ◌∷◌, [], length, get_or, IsTrue, All, pos, ◌≤ℤ◌};
ghost use Rattle.tv_linear.specs.Known.{denied};
ghost use Rattle.tv_linear.specs.Refutation.{Refutes};
ghost use Rattle.tv_refute.specs.Blocks.{AreCancelled};
ghost use Rattle.tv_refute.specs.Built.{built};
ghost use Rattle.tv_refute.specs.Frames.{known_at};
ghost use Rattle.tv_refute.specs.Points.{ShareNoPoint, Imply};

use crate::built::{BLOCK, Built, FEW};
use crate::frames::{Frames, is_count, sums_at};

/// Whether no multiplier is below 0.
fn none_negative(multipliers: &[i64]) -> bool
    ensures { IsTrue result ↔ All (λ m. pos 0 ≤ℤ m) multipliers.now }
{
    multipliers.iter().all(|m| *m >= 0)
}

/// Whether the sum is 0 in each of `columns` columns, with room for the sums in a block of them.
fn are_cancelled_in(
    columns: usize,
    frames: &Frames,
    multipliers: &[i64],
    totals: &mut [i128],
) -> bool
    requires many { length multipliers.now ≡ length (known_at frames.now) }
    requires room { 0 < length totals.old }
    requires block { length totals.old ≤ 576 }
    ensures { IsTrue result ↔ AreCancelled multipliers.now (known_at frames.now) columns }
{
    let block = totals.len();
    let mut first = 0;
    while first < columns {
        let width = block.min(columns - first);
        if !sums_at(frames, multipliers, Some(first), width, totals) {
            return false;
        }
        if !are_zero(totals, width) {
            return false;
        }
        first += width;
    }
    true
}

/// Whether the sum of the products with the rows known at the place is 0 in each of `columns` columns.
fn are_cancelled(columns: usize, frames: &Frames, multipliers: &[i64]) -> bool
    requires { length multipliers.now ≡ length (known_at frames.now) }
    ensures { IsTrue result ↔ AreCancelled multipliers.now (known_at frames.now) columns }
{
    if columns <= FEW {
        let mut totals = [0; FEW];
        are_cancelled_in(columns, frames, multipliers, &mut totals)
    } else {
        let mut totals = [0; BLOCK];
        are_cancelled_in(columns, frames, multipliers, &mut totals)
    }
}

/// Whether the multipliers refute the rows known at the place.
pub fn refutes(columns: usize, frames: &Frames, multipliers: &[i64]) -> bool
    ensures exact { IsTrue result ↔ Refutes columns (known_at frames.now) multipliers.now }
    ensures sound { IsTrue result → ShareNoPoint columns (known_at frames.now) }
{
    if !is_count(frames, multipliers.len()) {
        return false;
    }
    if !none_negative(multipliers) {
        return false;
    }
    if !are_cancelled(columns, frames, multipliers) {
        return false;
    }
    let mut constant = [0; 1];
    sums_at(frames, multipliers, None, 1, &mut constant) && constant[0] > 0
}

/// Whether the first `count` numbers are 0.
fn are_zero(numbers: &[i128], count: usize) -> bool
    requires { count ≤ length numbers.now }
    ensures { IsTrue result ↔ ((k : ℕ) → k < count → get_or numbers.now k (pos 0) ≡ pos 0) }
{
    for k in 0..count {
        if numbers[k] != 0 {
            return false;
        }
    }
    true
}

/// Whether the multipliers refute the known rows together with the denial of a row.
pub(crate) fn refutes_denial(
    columns: usize,
    frames: &Frames,
    row: &Built,
    multipliers: &[i64],
) -> bool
    ensures exact { let rows = known_at frames.now ++ denied (built row.now) ∷ [] in
        IsTrue result ↔ Refutes columns rows multipliers.now }
    ensures sound { IsTrue result → Imply columns (known_at frames.now) (built row.now) }
{
    let denied = Built::Denied(&*row);
    let inner = Frames::More {
        row: &denied,
        above: &*frames,
    };
    refutes(columns, &inner, multipliers)
}
