// A sparse row less a factor times another.

ghost use Rattle.std.specs.Prelude.{◌≡◌, ℕ, [], IfOk, MatchOption};
ghost use Rattle.tv_fraction.specs.Fraction.{IsNarrow};
ghost use Rattle.tv_simplex.specs.Rows.{ratio, IsSparse, IsRow, IsTaken, IsWideBy, IsCopied, IsTakenOnce, IsWideOnce};

use crate::fractions::{is_zero, less_product};
use crate::rows::{Entry, behind, fraction_of, front_at, put_last};
use std::alloc::AllocError;
use std::mem;
use tv_fraction::Fraction;
use tv_linear::push_item;

/// Puts the entries below the column at the end of the row that is made. The others are left.
fn copy_below<'a>(
    entries: &'a [Entry],
    column: usize,
    made: &mut Vec<Entry>,
) -> Result<&'a [Entry], AllocError>
    ensures sparse { (from width : ℕ) → IsSparse from width entries.now → IfOk result (λ left. IsSparse column width left.now) }
    ensures made { IfOk result (λ left. IsCopied column entries.now made.old.items left.now made.new.items) }
{
    let mut left = entries;
    'entries: while let [first, rest @ ..] = left {
        if first.column as usize >= column {
            return Ok(left);
        }
        push_item(made, *first)?;
        left = rest;
    }
    Ok(left)
}

/// Takes the factor times one entry of the pivot row from the entries. Returns the entries behind
/// its column, or nothing where the new number is not narrow.
fn take_entry<'a>(
    entries: &'a [Entry],
    factor: &Fraction,
    pivot: &Entry,
    made: &mut Vec<Entry>,
) -> Result<Option<&'a [Entry]>, AllocError>
    requires entries { (from width : ℕ) × IsSparse from width entries.now }
    requires factor { IsNarrow factor.now }
    ensures { IfOk result (λ found. MatchOption found
        (IsWideOnce (ratio factor.now) pivot.now entries.now made.old.items)
        (λ left. IsTakenOnce (ratio factor.now) pivot.now entries.now made.old.items left.now made.new.items)) }
{
    let column = pivot.column as usize;
    let left = copy_below(entries, column, made)?;
    let new = less_product(&front_at(left, column), factor, &fraction_of(pivot));
    if !new.is_narrow() {
        return Ok(None);
    }
    put_last(made, column, new)?;
    Ok(Some(behind(left, column)))
}

/// Takes the factor times the pivot row from the row, up to the first column where what is left is not narrow.
fn merge(
    row: &[Entry],
    factor: &Fraction,
    pivots: &[Entry],
    width: usize,
    made: &mut Vec<Entry>,
) -> Result<Option<usize>, AllocError>
    requires row { IsSparse 0 width row.now }
    requires factor { IsNarrow factor.now }
    requires pivots { IsSparse 0 width pivots.now }
    requires empty { made.old.items ≡ [] }
    ensures { IfOk result (λ found. MatchOption found
        (IsRow (IsTaken row.now (ratio factor.now) pivots.now) width made.new.items)
        (λ j. IsWideBy (IsTaken row.now (ratio factor.now) pivots.now) width j)) }
{
    let mut left = row;
    let mut next = pivots;
    'pivots: while let [pivot, later @ ..] = next {
        match take_entry(left, factor, pivot, made)? {
            None => return Ok(Some(pivot.column as usize)),
            Some(behind) => left = behind,
        }
        next = later;
    }
    copy_below(left, width, made)?;
    Ok(None)
}

/// Takes the factor times the pivot row from the row, up to the first column where what is left is not narrow. The
/// other row is one to write to.
pub fn clear_row(
    row: &mut Vec<Entry>,
    factor: &Fraction,
    pivots: &[Entry],
    width: usize,
    other: &mut Vec<Entry>,
) -> Result<Option<usize>, AllocError>
    requires row { IsSparse 0 width row.old.items }
    requires factor { IsNarrow factor.now }
    requires pivots { IsSparse 0 width pivots.now }
    ensures { IfOk result (λ found. MatchOption found
        (IsRow (IsTaken row.old.items (ratio factor.now) pivots.now) width row.new.items)
        (λ j. IsWideBy (IsTaken row.old.items (ratio factor.now) pivots.now) width j)) }
{
    if is_zero(factor) {
        return Ok(None);
    }
    other.clear();
    if let Some(wide) = merge(row, factor, pivots, width, other)? {
        return Ok(Some(wide));
    }
    mem::swap(row, other);
    Ok(None)
}
