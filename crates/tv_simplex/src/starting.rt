// The tableau of the artificial basis.

ghost use Rattle.std.specs.Prelude.{◌≡◌, ℕ, ℤ, ◌+◌, ◌*◌, ◌^◌, ◌<◌, ◌≤◌, pos, IfOk, MatchResult, unsigned_abs};
ghost use Rattle.tv_simplex.specs.Sums.{total};
ghost use Rattle.tv_simplex.specs.Systems.{IsWhole, matrix};
ghost use Rattle.tv_simplex.specs.Chains.{IsArtificial};
ghost use Rattle.tv_simplex.specs.Ratios.{IsRatio};
ghost use Rattle.tv_simplex.specs.Outcomes.{IsNarrow, IsNarrowSystem};
ghost use Rattle.tv_simplex.specs.Views.{equations};
ghost use Rattle.tv_simplex.specs.Rows.{ratio, IsNarrowRatio};
ghost use Rattle.tv_simplex.specs.Starting.{IsNumberPut, IsFirstRow, IsFirstObjective, IsFirstTable, IsStartStop, first_objective};

use crate::System;
use crate::adding::{column_sums, sum_at};
use crate::numbers::{kept_in, objective_at, right_at, signed_in};
use crate::rows::{Entry, put_last};
use crate::stop::Stop;
use std::alloc::{AllocError, Global};
use tv_fraction::Fraction;
use tv_linear::push_item;

/// The basis of one artificial column for each row.
pub fn artificial_basis(alloc: Global, system: &System) -> Result<Vec<u32>, AllocError>
    requires { IsWhole (equations system.now) }
    ensures { IfOk result (λ basis. IsArtificial system.now.rows system.now.columns basis.items) }
{
    let mut basis = Vec::with_capacity(alloc, system.rows as usize)?;
    'rows: for row in 0..system.rows {
        push_item(&mut basis, system.columns + row)?;
    }
    Ok(basis)
}

/// An integer as a fraction.
fn whole(number: i128) -> Fraction
    requires { unsigned_abs number < 2 ^ 80 }
    ensures same { IsRatio (ratio result) number (pos 1) }
    ensures narrow { IsNarrow number → IsNarrowRatio (ratio result) }
{
    Fraction::new(number, 1)
}

/// Puts a narrow number into the column at the end of the row.
fn put_number(entries: &mut Vec<Entry>, column: usize, number: i128) -> Result<(), AllocError>
    requires narrow { IsNarrow number }
    requires column { column < 2 ^ 32 }
    ensures { IfOk result (λ _. IsNumberPut column number entries.old.items entries.new.items) }
{
    put_last(entries, column, whole(number))
}

/// A row of the system, its artificial column and its right side.
fn first_row(alloc: Global, system: &System, row: usize) -> Result<Vec<Entry>, AllocError>
    requires whole { IsWhole (equations system.now) }
    requires narrow { IsNarrowSystem (equations system.now) }
    requires row { row < system.now.rows }
    ensures { IfOk result (λ v. IsFirstRow (equations system.now) row v.items) }
{
    let columns = system.columns as usize;
    let start = row * columns;
    let mut left = kept_in(system, row);
    let mut entries = Vec::with_capacity(alloc, left.len() + 2)?;
    'kept: while let [first, rest @ ..] = left {
        let number = signed_in(system, row, first.number);
        put_number(&mut entries, first.place - start, number)?;
        left = rest;
    }
    put_number(&mut entries, columns + row, 1)?;
    let right = signed_in(system, row, right_at(system, row));
    put_number(&mut entries, columns + system.rows as usize, right)?;
    Ok(entries)
}

/// Puts the number of the objective row in the column, which has this sum, at the end of the row, where it is narrow.
fn put_objective(
    system: &System,
    entries: &mut Vec<Entry>,
    column: usize,
    sum: i128,
) -> Result<(), Stop>
    requires whole { IsWhole (equations system.now) }
    requires column { column ≤ system.now.columns + system.now.rows }
    requires sum { sum ≡ total system.now.rows (λ k. matrix (equations system.now) k column) }
    requires bound { unsigned_abs sum ≤ 2 ^ 40 * system.now.rows }
    ensures { MatchResult result
        (λ _. IsNumberPut column (first_objective (equations system.now) column) entries.old.items entries.new.items)
        (λ stop. IsStartStop (equations system.now) stop) }
{
    let entry = whole(objective_at(system, column, sum));
    if !entry.is_narrow() {
        return Err(Stop::Wide {
            row: system.rows as usize,
            column,
        });
    }
    put_last(entries, column, entry)?;
    Ok(())
}

/// The objective row of the artificial basis, up to the first place that is not narrow.
fn objective_row(alloc: Global, system: &System) -> Result<Vec<Entry>, Stop>
    requires whole { IsWhole (equations system.now) }
    requires narrow { IsNarrowSystem (equations system.now) }
    ensures { MatchResult result
        (λ v. IsFirstObjective (equations system.now) v.items)
        (λ stop. IsStartStop (equations system.now) stop) }
{
    let columns = system.columns as usize;
    let last = columns + system.rows as usize;
    let sums = column_sums(alloc, system)?;
    let mut entries = Vec::new(alloc);
    'columns: for column in 0..columns {
        match put_objective(system, &mut entries, column, sum_at(&sums, column)) {
            Err(stop) => return Err(stop),
            Ok(()) => {}
        }
    }
    match put_objective(system, &mut entries, last, sum_at(&sums, columns)) {
        Err(stop) => Err(stop),
        Ok(()) => Ok(entries),
    }
}

/// The rows of the tableau of the artificial basis, the objective last.
pub fn first_rows(alloc: Global, system: &System) -> Result<Vec<Vec<Entry>>, Stop>
    requires whole { IsWhole (equations system.now) }
    requires narrow { IsNarrowSystem (equations system.now) }
    ensures { MatchResult result
        (λ rows. IsFirstTable (equations system.now) rows.items)
        (λ stop. IsStartStop (equations system.now) stop) }
{
    let mut rows = Vec::with_capacity(alloc, system.rows as usize + 1)?;
    'rows: for row in 0..system.rows as usize {
        push_item(&mut rows, first_row(alloc, system, row)?)?;
    }
    push_item(&mut rows, objective_row(alloc, system)?)?;
    Ok(rows)
}
