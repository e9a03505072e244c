// Refuting rows over the rationals.

ghost use Rattle.std.specs.Prelude.{◌≡◌, ℕ, ◌+◌, ◌-◌, ◌^◌, ◌<◌, ◌≤◌, All, length, get_or, neg_ℤ, pos, IfOk, MatchResult};
ghost use Rattle.std.specs.Result.{IfErr};
ghost use Rattle.tv_linear.specs.Linear.{columns as width};
ghost use Rattle.tv_simplex.specs.Choices.{choices};
ghost use Rattle.tv_simplex.specs.Outcomes.{IsShort, IsFirstWide};
ghost use Rattle.tv_simplex.specs.Views.{IsFirstRefusal, IsNotSpent};
ghost use Rattle.tv_farkas.specs.RefutationSystem.{refutation_system, IsLarge};
ghost use Rattle.tv_farkas.specs.Refuting.{IsRefuted, IsShortRefuted, GivesRefuted, IsRefusal, IsSize, IsOppositePoint};

use crate::Refuted;
use crate::refutation::{is_large, refutation_of};
use std::alloc::{AllocError, Global};
use tv_linear::{Row, push_item};
use tv_simplex::{Answer, SolveFault, solve};

/// The opposite of a number at a place.
fn opposite_at(numbers: &[i128], place: usize) -> i128
    requires place { place < length numbers.now }
    requires short { IsShort (get_or numbers.now place (pos 0)) }
    ensures { result ≡ neg_ℤ (get_or numbers.now place (pos 0)) }
{
    -numbers[place]
}

/// The point of a barrier: the opposites of its numbers. The last opposite is the scale.
fn point_of(alloc: Global, y: &[i128], columns: u32) -> Result<Refuted, AllocError>
    requires many { length y.now ≡ columns + 1 }
    requires short { (k : ℕ) → k < length y.now → IsShort (get_or y.now k (pos 0)) }
    ensures { IfOk result (λ point. IsOppositePoint y.now point) }
{
    let mut values = Vec::new(alloc);
    'columns: for column in 0..columns as usize {
        push_item(&mut values, opposite_at(y, column))?;
    }
    Ok(Refuted::Point {
        values,
        scale: opposite_at(y, columns as usize),
    })
}

/// Multipliers that refute the rows, or a point over a scale that meets them: that of the last basis of the
/// chain of their refutation system.
///
/// The refusals are those of that system. A system of more than 4,000,000 entries is refused by its size.
pub fn refute(alloc: Global, rows: &[Row], columns: u32, pivots: u64) -> Result<Refuted, SolveFault>
    requires bounded { columns < 2 ^ 32 - 1 }
    requires even { All (λ r. width r ≡ columns) rows.now }
    ensures answers { IfOk result (λ r. IsRefuted columns rows.now r) }
    ensures short { IfOk result IsShortRefuted }
    ensures last { IfOk result (λ r. GivesRefuted columns rows.now r) }
    ensures refusals { IfErr result (λ e. IsRefusal columns rows.now pivots e) }
    ensures size { IsLarge columns rows.now → MatchResult result (λ _. ⊥) (λ e. IsSize columns rows.now e) }
    ensures first_wide { (row column : ℕ) → IsFirstWide (refutation_system columns rows.now) row column →
        (IsLarge columns rows.now → ⊥) →
        MatchResult result (λ _. ⊥) (λ e. IsFirstRefusal (refutation_system columns rows.now) row column e) }
    ensures enough { choices (length rows.now + (columns + 1)) (columns + 1) ≤ pivots → IfErr result IsNotSpent }
{
    if is_large(rows, columns) {
        return Err(SolveFault::Size {
            rows: columns as u64 + 1,
            columns: rows.len() as u64,
        });
    }
    let system = match refutation_of(alloc, rows, columns) {
        Ok(system) => system,
        Err(_) => return Err(SolveFault::Memory),
    };
    match solve(alloc, &system, pivots) {
        Err(fault) => Err(fault),
        Ok(Answer::Solution { values, scale: _ }) => Ok(Refuted::Empty {
            multipliers: values,
        }),
        Ok(Answer::Barrier { y }) => match point_of(alloc, &y, columns) {
            Ok(point) => Ok(point),
            Err(_) => Err(SolveFault::Memory),
        },
    }
}
