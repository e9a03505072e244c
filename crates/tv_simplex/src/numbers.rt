// The numbers of a system, and those of the tableau of its artificial basis.

ghost use Rattle.std.specs.Prelude.{◌≡◌, ◌+◌, ◌*◌, ◌^◌, ◌<◌, ◌≤◌, ℕ, ℤ, pos, ◌*ℤ◌, IsTrue, ◌↔◌, MatchOption, unsigned_abs};
ghost use Rattle.tv_simplex.specs.Sums.{total};
ghost use Rattle.tv_simplex.specs.Systems.{IsWhole, entry_at as spec_entry, right_at as spec_right, sign, sign_of, matrix};
ghost use Rattle.tv_simplex.specs.Entries.{AreKept};
ghost use Rattle.tv_simplex.specs.Chains.{cost};
ghost use Rattle.tv_simplex.specs.Outcomes.{IsShort, IsNarrow, IsNarrowSystem, IsFirstWide};
ghost use Rattle.tv_simplex.specs.Views.{equations};
ghost use Rattle.tv_simplex.specs.Starting.{IsNarrowRowOf, IsFirstWideColumn, first_objective};

use crate::System;
use crate::entries::Kept;

pub fn right_at(system: &System, row: usize) -> i128
    requires whole { IsWhole (equations system.now) }
    requires row { row < system.now.rows }
    ensures { result ≡ spec_right (equations system.now) row }
{
    system.right[row]
}

/// The numbers of the row that are kept: all that are not 0.
pub fn kept_in(system: &System, row: usize) -> &[Kept]
    requires whole { IsWhole (equations system.now) }
    requires row { row < system.now.rows }
    ensures { AreKept (spec_entry (equations system.now) row) (row * system.now.columns) 0 system.now.columns result.now }
{
    let columns = system.columns as usize;
    system.entries.stretch(row * columns, columns)
}

fn is_narrow(number: i128) -> bool
    ensures { IsTrue result ↔ IsNarrow number }
{
    number.unsigned_abs() < 1 << 40
}

/// The first column of the row whose number is not narrow; the right side has the number of the last column of
/// the tableau.
fn first_wide_column(system: &System, row: usize) -> Option<u32>
    requires whole { IsWhole (equations system.now) }
    requires row { row < system.now.rows }
    ensures { MatchOption result
        (IsNarrowRowOf (equations system.now) row)
        (λ column. IsFirstWideColumn (equations system.now) row column) }
{
    let start = row * system.columns as usize;
    let mut left = kept_in(system, row);
    'kept: while let [first, rest @ ..] = left {
        if !is_narrow(first.number) {
            return Some((first.place - start) as u32);
        }
        left = rest;
    }
    if is_narrow(right_at(system, row)) {
        return None;
    }
    Some(system.columns + system.rows)
}

/// The first place, row by row, with a number of the system that is not narrow.
pub fn first_wide(system: &System) -> Option<(u32, u32)>
    requires { IsWhole (equations system.now) }
    ensures { MatchOption result
        (IsNarrowSystem (equations system.now))
        (λ place. IsFirstWide (equations system.now) place.0 place.1) }
{
    'rows: for row in 0..system.rows {
        if let Some(column) = first_wide_column(system, row as usize) {
            return Some((row, column));
        }
    }
    None
}

/// The number with its sign turned where the right side is negative.
pub fn signed(right: i128, number: i128) -> i128
    requires { IsShort number }
    ensures value { result ≡ sign_of right *ℤ number }
    ensures magnitude { unsigned_abs result ≡ unsigned_abs number }
    ensures narrow { IsNarrow number → IsNarrow result }
{
    if right < 0 { -number } else { number }
}

/// A number of the row, with its sign turned where the right side of the row is negative.
pub fn signed_in(system: &System, row: usize, number: i128) -> i128
    requires whole { IsWhole (equations system.now) }
    requires row { row < system.now.rows }
    requires narrow { IsNarrow number }
    ensures value { result ≡ sign (equations system.now) row *ℤ number }
    ensures narrow { IsNarrow result }
{
    signed(right_at(system, row), number)
}

fn cost_at(system: &System, column: usize) -> i128
    requires whole { IsWhole (equations system.now) }
    requires column { column ≤ system.now.columns + system.now.rows }
    ensures value { result ≡ cost system.now.rows system.now.columns column }
    ensures bound { unsigned_abs result < 2 }
{
    let columns = system.columns as usize;
    let rows = system.rows as usize;
    if column < columns {
        return 0;
    }
    if column < columns + rows { 1 } else { 0 }
}

/// The number in a column of the objective row of the artificial basis, where the column has this sum.
pub fn objective_at(system: &System, column: usize, sum: i128) -> i128
    requires whole { IsWhole (equations system.now) }
    requires column { column ≤ system.now.columns + system.now.rows }
    requires sum { sum ≡ total system.now.rows (λ k. matrix (equations system.now) k column) }
    requires bound { unsigned_abs sum ≤ 2 ^ 40 * system.now.rows }
    ensures value { result ≡ first_objective (equations system.now) column }
    ensures bound { unsigned_abs result < 2 ^ 80 }
{
    cost_at(system, column) - sum
}
