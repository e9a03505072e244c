// Sparse rows of fractions, and what an exchange does to them.

ghost use Rattle.std.specs.Prelude.{◌≡◌, ℕ, ◌+◌, ◌^◌, ◌<◌, ◌≤◌, [], length, take, pos, ◌<ℤ◌, IsTrue, IfOk, MatchOption};
ghost use Rattle.tv_fraction.specs.Fraction.{numerator_of, IsNarrow};
ghost use Rattle.tv_simplex.specs.Rows.{ratio, ratio_of, entry_in, row_of, IsSparse, IsRow, IsRestOf, BeginsWith, BeginsFrom, IsPut, IsDivided, IsWideBy};

use crate::fractions::{is_zero, quotient};
use std::alloc::AllocError;
use tv_fraction::{Fraction, Narrow};
use tv_linear::push_item;

/// A number of a row that is not 0, and its column.
#[derive(Clone, Copy)]
pub struct Entry {
    pub column: u32,
    pub number: Narrow,
}

/// The number of the entry.
pub fn fraction_of(entry: &Entry) -> Fraction
    ensures is { ratio result ≡ ratio_of entry.now }
    ensures narrow { IsNarrow result }
{
    entry.number.fraction()
}

pub fn row_at(rows: &[Vec<Entry>], row: usize) -> &[Entry]
    requires { row < length rows.now }
    ensures { result.now ≡ row_of rows.now row }
{
    &rows[row]
}

/// Whether no entry is in an earlier column.
fn begins_from(entries: &[Entry], column: usize) -> bool
    ensures { IsTrue result → BeginsFrom entries.now column }
{
    match entries {
        [first, ..] => first.column as usize >= column,
        [] => true,
    }
}

/// Where the search for the column begins: at the last entry, if its column is no later, and else at the first.
fn search_from(row: &[Entry], column: usize) -> usize
    ensures inside { result ≤ length row.now }
    ensures below { (width : ℕ) → IsSparse 0 width row.now → IsSparse 0 column (take result row.now) }
{
    if row.is_empty() {
        return 0;
    }
    let last = row.len() - 1;
    if row[last].column as usize <= column {
        return last;
    }
    0
}

/// The entries of the row from the column on, by binary search.
pub fn entries_from(row: &[Entry], column: usize) -> &[Entry]
    ensures { (width : ℕ) → IsSparse 0 width row.now → IsRestOf (entry_in row.now) column width result.now }
{
    if begins_from(row, column) {
        return row;
    }
    let mut first = search_from(row, column);
    let mut end = row.len();
    'halves: while first < end {
        let middle = first + (end - first) / 2;
        if (row[middle].column as usize) < column {
            first = middle + 1;
        } else {
            end = middle;
        }
    }
    &row[first..]
}

/// The fraction in the column, which is no later than that of the first entry.
pub fn front_at(entries: &[Entry], column: usize) -> Fraction
    ensures is { (width : ℕ) → IsSparse column width entries.now → ratio result ≡ entry_in entries.now column }
    ensures narrow { IsNarrow result }
{
    match entries {
        [first, ..] => {
            if first.column as usize == column {
                fraction_of(first)
            } else {
                Fraction::new(0, 1)
            }
        }
        [] => Fraction::new(0, 1),
    }
}

/// The entries after the column, which is no later than that of the first.
pub fn behind(entries: &[Entry], column: usize) -> &[Entry]
    ensures rest { (width : ℕ) → IsSparse column width entries.now → IsRestOf (entry_in entries.now) (column + 1) width result.now }
    ensures bounded { length result.now ≤ length entries.now }
    ensures fewer { BeginsWith entries.now column → length result.now < length entries.now }
{
    match entries {
        [first, rest @ ..] => {
            if first.column as usize == column {
                rest
            } else {
                entries
            }
        }
        [] => entries,
    }
}

/// The fraction in the column of the row.
pub fn fraction_in(row: &[Entry], column: usize) -> Fraction
    requires { (width : ℕ) × IsSparse 0 width row.now }
    ensures is { ratio result ≡ entry_in row.now column }
    ensures narrow { IsNarrow result }
{
    front_at(entries_from(row, column), column)
}

/// Puts the fraction into the column at the end of the row, where it is not 0.
pub fn put_last(row: &mut Vec<Entry>, column: usize, fraction: Fraction) -> Result<(), AllocError>
    requires column { column < 2 ^ 32 }
    requires narrow { IsNarrow fraction }
    ensures { IfOk result (λ _. IsPut column (ratio fraction) row.old.items row.new.items) }
{
    if is_zero(&fraction) {
        return Ok(());
    }
    push_item(
        row,
        Entry {
            column: column as u32,
            number: Narrow::new(&fraction),
        },
    )
}

/// Divides the row, up to the first column where what comes of it is not narrow.
pub fn divide(
    row: &[Entry],
    divisor: &Fraction,
    made: &mut Vec<Entry>,
) -> Result<Option<usize>, AllocError>
    requires row { (width : ℕ) × IsSparse 0 width row.now }
    requires divisor { IsNarrow divisor.now }
    requires above { pos 0 <ℤ numerator_of divisor.now }
    requires empty { made.old.items ≡ [] }
    ensures { (width : ℕ) → IsSparse 0 width row.now → IfOk result (λ found. MatchOption found
        (IsRow (IsDivided row.now (ratio divisor.now)) width made.new.items)
        (λ j. IsWideBy (IsDivided row.now (ratio divisor.now)) width j)) }
{
    let mut left = row;
    'entries: while let [first, rest @ ..] = left {
        let new = quotient(&fraction_of(first), divisor);
        if !new.is_narrow() {
            return Ok(Some(first.column as usize));
        }
        put_last(made, first.column as usize, new)?;
        left = rest;
    }
    Ok(None)
}
