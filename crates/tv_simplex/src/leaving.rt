// The row that leaves a basis.

ghost use Rattle.std.specs.Prelude.{◌≡◌, ℕ, ◌+◌, ◌^◌, ◌<◌, ◌≤◌, [], length, pos, ◌<ℤ◌, MatchOption};
ghost use Rattle.tv_fraction.specs.Fraction.{numerator_of, IsNarrow};
ghost use Rattle.std.specs.declared.cmp.Ordering.TheVariants.{Equal};
ghost use Rattle.tv_simplex.specs.Rows.{ratio, IsNextColumn, IsColumn};
ghost use Rattle.tv_simplex.specs.Tables.{shown, width_of, IsTable};
ghost use Rattle.tv_simplex.specs.Choosing.{ComparesAt, OrdersQuotients, Compares, NoneAbove, IsLeast};

use crate::fractions::{is_positive, is_zero, quotient};
use crate::rows::{Entry, behind, entries_from, fraction_of, front_at, row_at};
use crate::table::{Table, entry_at};
use std::cmp::Ordering;
use tv_fraction::{Fraction, cmp};

/// Compares two fractions, each divided by one above 0.
fn compare_quotients(
    left: &Fraction,
    left_pivot: &Fraction,
    right: &Fraction,
    right_pivot: &Fraction,
) -> Ordering
    requires narrow { IsNarrow left.now × IsNarrow right.now }
    requires pivots { IsNarrow left_pivot.now × IsNarrow right_pivot.now }
    requires above { (pos 0 <ℤ numerator_of left_pivot.now) × (pos 0 <ℤ numerator_of right_pivot.now) }
    ensures { OrdersQuotients (ratio left.now) (ratio left_pivot.now) (ratio right.now) (ratio right_pivot.now) result }
{
    if is_zero(left) && is_zero(right) {
        return Ordering::Equal;
    }
    cmp(&quotient(left, left_pivot), &quotient(right, right_pivot))
}

/// The least column of the entries of two rows.
fn next_column(left: &[Entry], right: &[Entry]) -> Option<usize>
    ensures { MatchOption result ((left.now ≡ []) × (right.now ≡ [])) (λ column. IsNextColumn left.now right.now column) }
{
    match (left, right) {
        ([], []) => None,
        ([first, ..], []) => Some(first.column as usize),
        ([], [second, ..]) => Some(second.column as usize),
        ([first, ..], [second, ..]) => {
            if first.column < second.column {
                Some(first.column as usize)
            } else {
                Some(second.column as usize)
            }
        }
    }
}

/// Compares the quotients of two rows by their entries in the column, in the artificial columns. Their right sides
/// compare as equal.
fn compare_artificial(table: &Table, first: usize, second: usize, column: usize) -> Ordering
    requires table { IsTable table.now }
    requires rows { (first < length table.now.rows.items) × (second < length table.now.rows.items) }
    requires column { column < table.now.columns }
    requires above { (pos 0 <ℤ (shown table.now first column).numerator) × (pos 0 <ℤ (shown table.now second column).numerator) }
    requires tied { let last = table.now.columns + length table.now.basis.items in
        ComparesAt last column last (shown table.now first) (shown table.now second) Equal }
    ensures { Compares (length table.now.basis.items) table.now.columns column (shown table.now first) (shown table.now second) result }
{
    let left_pivot = entry_at(table, first, column);
    let right_pivot = entry_at(table, second, column);
    let mut left = entries_from(row_at(&table.rows, first), table.columns);
    let mut right = entries_from(row_at(&table.rows, second), table.columns);
    'columns: while let Some(at) = next_column(left, right) {
        let one = front_at(left, at);
        let other = front_at(right, at);
        match compare_quotients(&one, &left_pivot, &other, &right_pivot) {
            Ordering::Equal => {}
            Ordering::Less => return Ordering::Less,
            Ordering::Greater => return Ordering::Greater,
        }
        left = behind(left, at);
        right = behind(right, at);
    }
    Ordering::Equal
}

/// Compares the quotients of two rows by their entries in the column: the right side first, then the
/// artificial columns.
fn compare_rows(table: &Table, first: usize, second: usize, column: usize) -> Ordering
    requires table { IsTable table.now }
    requires rows { (first < length table.now.rows.items) × (second < length table.now.rows.items) }
    requires column { column < table.now.columns }
    requires above { (pos 0 <ℤ (shown table.now first column).numerator) × (pos 0 <ℤ (shown table.now second column).numerator) }
    requires bounded { width_of table.now ≤ 2 ^ 32 }
    ensures { Compares (length table.now.basis.items) table.now.columns column (shown table.now first) (shown table.now second) result }
{
    let last = table.columns + table.basis.len();
    let left = entry_at(table, first, last);
    let right = entry_at(table, second, last);
    let left_pivot = entry_at(table, first, column);
    let right_pivot = entry_at(table, second, column);
    match compare_quotients(&left, &left_pivot, &right, &right_pivot) {
        Ordering::Equal => compare_artificial(table, first, second, column),
        Ordering::Less => Ordering::Less,
        Ordering::Greater => Ordering::Greater,
    }
}

/// The row of the least quotients so far, after one more row, which has this entry in the column.
fn better_row(
    table: &Table,
    column: usize,
    best: Option<usize>,
    row: usize,
    factor: &Fraction,
) -> Option<usize>
    requires table { IsTable table.now }
    requires bounded { width_of table.now ≤ 2 ^ 32 }
    requires column { column < table.now.columns }
    requires row { row < length table.now.basis.items }
    requires best { MatchOption best
        (NoneAbove (shown table.now) column row)
        (λ r. IsLeast (length table.now.basis.items) table.now.columns (shown table.now) column row r) }
    requires factor { ratio factor.now ≡ shown table.now row column }
    ensures { MatchOption result
        (NoneAbove (shown table.now) column (row + 1))
        (λ r. IsLeast (length table.now.basis.items) table.now.columns (shown table.now) column (row + 1) r) }
{
    if !is_positive(factor) {
        return best;
    }
    match best {
        None => Some(row),
        Some(least) => {
            match compare_rows(table, least, row, column) {
                Ordering::Greater => Some(row),
                _ => Some(least),
            }
        }
    }
}

/// The row that leaves where the column enters: that of the least quotients among those with an entry above 0. The
/// factors are the entries of the column.
pub fn leaving_row(table: &Table, column: usize, factors: &[Entry]) -> Option<usize>
    requires table { IsTable table.now }
    requires bounded { width_of table.now ≤ 2 ^ 32 }
    requires column { column < table.now.columns }
    requires factors { IsColumn (length table.now.rows.items) column (shown table.now) factors.now }
    ensures { MatchOption result
        (NoneAbove (shown table.now) column (length table.now.basis.items))
        (λ r. IsLeast (length table.now.basis.items) table.now.columns (shown table.now) column (length table.now.basis.items) r) }
{
    let mut best = None;
    let mut left = factors;
    'factors: while let [first, rest @ ..] = left {
        let row = first.column as usize;
        if row >= table.basis.len() {
            return best;
        }
        best = better_row(table, column, best, row, &fraction_of(first));
        left = rest;
    }
    best
}
