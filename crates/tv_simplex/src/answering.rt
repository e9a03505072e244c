// The answers of a basis that settles the system.

ghost use Rattle.std.specs.Prelude.{◌≡◌, ◌+◌, ◌^◌, ◌<◌, ◌≤◌, ℕ, length, get_or, pos, IsTrue, IfOk, MatchResult, unsigned_abs};
ghost use Rattle.tv_simplex.specs.Systems.{IsWhole};
ghost use Rattle.tv_simplex.specs.Outcomes.{IsShort};
ghost use Rattle.tv_simplex.specs.Views.{equations};
ghost use Rattle.tv_simplex.specs.Rows.{ratio};
ghost use Rattle.tv_simplex.specs.Tables.{shown, IsTable};
ghost use Rattle.tv_simplex.specs.Choosing.{NoneNegative};
ghost use Rattle.tv_simplex.specs.Walking.{IsLessOne, AreOfObjective, AreDistinct, AreValues, AreSigned, Stands, IsSolved, IsUnsolvedAt, IsRight, IsSettledBy, IsAnswerStop};
ghost use Rattle.tv_fraction.specs.Fraction.{IsNarrow, numerator_of};

use crate::entering::entering_column;
use crate::fractions::is_zero;
use crate::numbers::{right_at, signed};
use crate::scaling::bring_to_scale;
use crate::stop::Stop;
use crate::table::{Settled, Table, column_of, entry_at};
use crate::{Answer, System};
use std::alloc::{AllocError, Global};
use tv_fraction::Fraction;
use tv_linear::push_item;

/// A fraction less 1.
fn less_one(fraction: &Fraction) -> Fraction
    requires { IsNarrow fraction.now }
    ensures same { IsLessOne (ratio result) (ratio fraction.now) }
    ensures bound { unsigned_abs (numerator_of result) < 2 ^ 41 }
{
    Fraction::new(
        fraction.numerator() - fraction.denominator(),
        fraction.denominator(),
    )
}

/// The objective row in the artificial columns, less 1.
fn objective_of(
    alloc: Global,
    table: &Table,
    rows: usize,
    columns: usize,
) -> Result<Vec<Fraction>, AllocError>
    requires bounded { (rows < 2 ^ 32) × (columns < 2 ^ 32) }
    requires table { IsTable table.now }
    requires height { rows < length table.now.rows.items }
    ensures { IfOk result (λ v. AreOfObjective rows columns (shown table.now rows) v.items) }
{
    let mut fractions = Vec::with_capacity(alloc, rows)?;
    'rows: for row in 0..rows {
        push_item(
            &mut fractions,
            less_one(&entry_at(table, rows, columns + row)),
        )?;
    }
    Ok(fractions)
}

/// The numbers of the basis at the columns of the system; a column that is not in the basis has 0.
fn basis_values(
    alloc: Global,
    basis: &[u32],
    numbers: &[i128],
    columns: u32,
) -> Result<Vec<i128>, AllocError>
    requires same { length basis.now ≡ length numbers.now }
    requires distinct { AreDistinct (length basis.now) basis.now }
    requires short { (i : ℕ) → i < length numbers.now → IsShort (get_or numbers.now i (pos 0)) }
    ensures { IfOk result (λ v. AreValues (length basis.now) columns basis.now numbers.now v.items) }
{
    let mut values = vec![in alloc; 0i128; columns as usize]?;
    'rows: for i in 0..basis.len() {
        let column = basis[i] as usize;
        if column < values.len() {
            values[column] = numbers[i];
        }
    }
    Ok(values)
}

/// The numbers with the signs of the rows.
fn signed_numbers(alloc: Global, system: &System, numbers: &[i128]) -> Result<Vec<i128>, AllocError>
    requires whole { IsWhole (equations system.now) }
    requires same { length numbers.now ≡ system.now.rows }
    requires short { (i : ℕ) → i < length numbers.now → IsShort (get_or numbers.now i (pos 0)) }
    ensures { IfOk result (λ y. AreSigned (equations system.now) system.now.rows numbers.now y.items) }
{
    let mut y = Vec::with_capacity(alloc, numbers.len())?;
    'rows: for row in 0..numbers.len() {
        push_item(&mut y, signed(right_at(system, row), numbers[row]))?;
    }
    Ok(y)
}

/// The solution of a basis that solves the system.
fn solution(alloc: Global, system: &System, table: &Table) -> Result<Answer, Stop>
    requires whole { IsWhole (equations system.now) }
    requires stands { Stands (equations system.now) table.now }
    requires solved { IsSolved (equations system.now) table.now }
    ensures { MatchResult result
        (λ a. IsRight (equations system.now) a)
        (λ stop. IsAnswerStop (equations system.now) table.now.basis.items stop) }
{
    let columns = system.columns as usize;
    let rows = system.rows as usize;
    let right = column_of(alloc, table, rows, columns + rows)?;
    match bring_to_scale(alloc, &right) {
        Err(stop) => Err(stop),
        Ok(scaled) => {
            let values = basis_values(alloc, &table.basis, &scaled.numbers, system.columns)?;
            Ok(Answer::Solution {
                values,
                scale: scaled.scale,
            })
        }
    }
}

/// The barrier of a basis that does not solve the system, without a negative objective entry.
fn barrier(alloc: Global, system: &System, table: &Table) -> Result<Answer, Stop>
    requires whole { IsWhole (equations system.now) }
    requires stands { Stands (equations system.now) table.now }
    requires unsolved { (i : ℕ) × IsUnsolvedAt (equations system.now) table.now i }
    requires none { NoneNegative (shown table.now system.now.rows) system.now.columns }
    ensures { MatchResult result
        (λ a. IsRight (equations system.now) a)
        (λ stop. IsAnswerStop (equations system.now) table.now.basis.items stop) }
{
    let columns = system.columns as usize;
    let rows = system.rows as usize;
    let fractions = objective_of(alloc, table, rows, columns)?;
    match bring_to_scale(alloc, &fractions) {
        Err(stop) => Err(stop),
        Ok(scaled) => {
            let y = signed_numbers(alloc, system, &scaled.numbers)?;
            Ok(Answer::Barrier { y })
        }
    }
}

/// Whether each artificial column of the basis has the value 0. The right side of the objective is 0 less the sum of
/// these values. None of them is below 0.
fn is_solved(system: &System, table: &Table) -> bool
    requires whole { IsWhole (equations system.now) }
    requires stands { Stands (equations system.now) table.now }
    ensures solved { IsTrue result → IsSolved (equations system.now) table.now }
    ensures unsolved { (IsTrue result → ⊥) → (i : ℕ) × IsUnsolvedAt (equations system.now) table.now i }
{
    let columns = system.columns as usize;
    let rows = system.rows as usize;
    is_zero(&entry_at(table, rows, columns + rows))
}

/// The answer, where the basis settles the system, or else the column that enters.
pub fn settle(alloc: Global, system: &System, table: &Table) -> Result<Settled, Stop>
    requires whole { IsWhole (equations system.now) }
    requires stands { Stands (equations system.now) table.now }
    ensures { MatchResult result
        (λ settled. IsSettledBy (equations system.now) table.now settled)
        (λ stop. IsAnswerStop (equations system.now) table.now.basis.items stop) }
{
    if is_solved(system, table) {
        return match solution(alloc, system, table) {
            Err(stop) => Err(stop),
            Ok(answer) => Ok(Settled::Done(answer)),
        };
    }
    match entering_column(table, system.rows as usize) {
        Some(column) => Ok(Settled::Enters(column)),
        None => match barrier(alloc, system, table) {
            Err(stop) => Err(stop),
            Ok(answer) => Ok(Settled::Done(answer)),
        },
    }
}
