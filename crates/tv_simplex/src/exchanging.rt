// The exchange of a column of the basis.

ghost use Rattle.std.specs.Prelude.{◌≡◌, ℕ, ◌<◌, ◌≤◌, ◌^◌, length, pos, ◌<ℤ◌, MatchResult, slice_set};
ghost use Rattle.tv_simplex.specs.Rows.{entry_in, read, IsSparse, IsGrid, IsColumn, AreCleared};
ghost use Rattle.tv_simplex.specs.Marks.{AreMarked};
ghost use Rattle.tv_simplex.specs.Exchanges.{IsNext};
ghost use Rattle.tv_simplex.specs.Stops.{IsClearingStop, IsExchangeStop};
ghost use Rattle.tv_simplex.specs.Tables.{shown, width_of, IsTable};

use crate::marks::mark_again;
use crate::merging::clear_row;
use crate::rows::{Entry, divide, fraction_in, fraction_of, row_at};
use crate::stop::Stop;
use crate::table::{Spare, Table};
use std::mem;

/// Takes the pivot row out of each other row, as often as its factor says. The factors are the entries of a column,
/// and the other list is one to write to.
fn clear_column(
    rows: &mut [Vec<Entry>],
    row: usize,
    factors: &[Entry],
    pivots: &[Entry],
    width: usize,
    other: &mut Vec<Entry>,
) -> Result<(), Stop>
    requires grid { IsGrid width rows.old }
    requires factors { IsSparse 0 (length rows.old) factors.now }
    requires pivots { IsSparse 0 width pivots.now }
    ensures { MatchResult result
        (λ _. AreCleared width row (entry_in factors.now) pivots.now rows.old rows.new)
        (λ stop. IsClearingStop width row (entry_in factors.now) pivots.now rows.old stop) }
{
    let mut left = factors;
    'factors: while let [first, rest @ ..] = left {
        let i = first.column as usize;
        if i != row {
            if let Some(j) = clear_row(&mut rows[i], &fraction_of(first), pivots, width, other)? {
                return Err(Stop::Wide { row: i, column: j });
            }
        }
        left = rest;
    }
    Ok(())
}

/// Lets the column enter in the row, where it has an entry above 0, up to the first place that is not narrow. The
/// factors are the entries of the column.
fn exchange(
    rows: &mut [Vec<Entry>],
    row: usize,
    column: usize,
    factors: &[Entry],
    width: usize,
    spare: &mut Spare,
) -> Result<(), Stop>
    requires inside { row < length rows.old }
    requires factors { IsColumn (length rows.old) column (read rows.old) factors.now }
    requires grid { IsGrid width rows.old }
    requires above { pos 0 <ℤ (read rows.old row column).numerator }
    ensures { MatchResult result
        (λ _. IsNext width row column rows.old rows.new)
        (λ stop. IsExchangeStop width row column rows.old stop) }
{
    let pivot = fraction_in(row_at(rows, row), column);
    spare.pivots.clear();
    if let Some(j) = divide(row_at(rows, row), &pivot, &mut spare.pivots)? {
        return Err(Stop::Wide { row, column: j });
    }
    match clear_column(rows, row, factors, &spare.pivots, width, &mut spare.other) {
        Err(stop) => Err(stop),
        Ok(()) => {
            mem::swap(&mut rows[row], &mut spare.pivots);
            Ok(())
        }
    }
}

/// Lets the column enter the basis in the row, where it has an entry above 0, up to the first place that is not
/// narrow. The factors are the entries of the column. After a refusal the basis is the new one.
pub fn enter(table: &mut Table, row: usize, column: usize, factors: &[Entry]) -> Result<(), Stop>
    requires table { IsTable table.old }
    requires factors { IsColumn (length table.old.rows.items) column (shown table.old) factors.now }
    requires bounded { (width_of table.old ≤ 2 ^ 32) × (column < 2 ^ 32) }
    requires row { row < length table.old.basis.items }
    requires above { pos 0 <ℤ (shown table.old row column).numerator }
    ensures basis { table.new.basis.items ≡ slice_set table.old.basis.items row column }
    ensures columns { table.new.columns ≡ table.old.columns }
    ensures entered { MatchResult result
        (λ _. IsNext (width_of table.old) row column table.old.rows.items table.new.rows.items
        × AreMarked table.old.columns (length table.old.basis.items) table.new.rows.items table.new.marks.items)
        (λ stop. IsExchangeStop (width_of table.old) row column table.old.rows.items stop) }
{
    table.basis[row] = column as u32;
    let width = table.columns + table.basis.len() + 1;
    match exchange(
        &mut table.rows,
        row,
        column,
        factors,
        width,
        &mut table.spare,
    ) {
        Err(stop) => Err(stop),
        Ok(()) => {
            mark_again(&mut table.marks, &table.rows, factors, table.columns);
            Ok(())
        }
    }
}
