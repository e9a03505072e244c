ghost use Rattle.std.specs.Prelude.{◌≡◌, ◌↔◌, ◌≤◌, ◌<◌, ◌+ℤ◌, ◌*ℤ◌, length, get_or, slice_index_or, pos, IsTrue, map};
ghost use Rattle.tv_linear.specs.Linear.{dot};
ghost use Rattle.tv_linear.specs.Fits.{SumsHeld};
ghost use Rattle.tv_linear.specs.Falls.{zero_row};
ghost use Rattle.tv_linear.specs.Known.{number, KnownHeld, known_number};
ghost use Rattle.tv_linear.specs.Refutation.{column_sum, ColumnHeld};
ghost use Rattle.tv_refute.specs.Blocks.{further, AreTold, AreHeld, IsAddedHeld};
ghost use Rattle.tv_refute.specs.Built.{built};
ghost use Rattle.tv_refute.specs.Frames.{known_at};
ghost use Rattle.tv_linear.specs.Views.{rows_seen};

use crate::addends::{Denial, Read, add_each};
use crate::blocks::add_row;
use crate::built::{BLOCK, Built, FEW, read_numbers};
use crate::steps::{PutSame, change_each};
use tv_linear::Rows;

/// The rows known at a place, the last first.
#[derive(Drop)]
pub enum Frames<'a> {
    End,
    Rows {
        rows: Rows<'a>,
        above: &'a Frames<'a>,
    },
    More {
        row: &'a Built<'a>,
        above: &'a Frames<'a>,
    },
}

/// Puts the sums of the products with the rows known at a place, in `count` columns from one on, or of the
/// constants.
pub(crate) fn sums_at(
    frames: &Frames,
    multipliers: &[i64],
    column: Option<usize>,
    count: usize,
    totals: &mut [i128],
) -> bool
    requires many { length multipliers.now ≡ length (known_at frames.now) }
    requires size { count ≤ length totals.old }
    requires some { 0 < count }
    requires bounded { count ≤ 576 }
    ensures size { length totals.new ≡ length totals.old }
    ensures told { let rows = known_at frames.now in AreTold result count
        (λ k. ColumnHeld multipliers.now rows (further column k))
        (λ k. column_sum multipliers.now rows (further column k)) totals.new }
    ensures held { IsTrue result → AreHeld count totals.new }
{
    match frames {
        Frames::End => change_each(totals, count, &PutSame(0)),
        Frames::Rows { rows, above } => {
            let first = multipliers.len() - rows.len();
            let (before, after) = multipliers.split_at(first);
            if !sums_at(above, before, column, count, totals) {
                return false;
            }
            add_rows(*rows, after, column, count, totals)
        }
        Frames::More { row, above } => match multipliers {
            [] => false,
            [before @ .., m] => {
                if !sums_at(above, before, column, count, totals) {
                    return false;
                }
                add_known(row, i128::from(*m), column, count, totals)
            }
        },
    }
}

/// Adds the products of multipliers and rows. A row whose multiplier is 0 is passed.
fn add_rows(
    rows: Rows,
    multipliers: &[i64],
    column: Option<usize>,
    count: usize,
    totals: &mut [i128],
) -> bool
    requires many { length multipliers.now ≡ length (rows_seen rows) }
    requires size { count ≤ length totals.old }
    requires held { AreHeld count totals.old }
    ensures size { length totals.new ≡ length totals.old }
    ensures told { AreTold result count
        (λ k. SumsHeld (get_or totals.old k (pos 0)) multipliers.now (map (number (further column k)) (rows_seen rows.entry)))
        (λ k. get_or totals.old k (pos 0) +ℤ dot multipliers.now (map (number (further column k)) (rows_seen rows.entry))) totals.new }
    ensures held { IsTrue result → AreHeld count totals.new }
{
    for i in 0..multipliers.len() {
        if !add_row_at(rows, i, i128::from(multipliers[i]), column, count, totals) {
            return false;
        }
    }
    true
}

/// Adds the products of a factor and the numbers of the row at a place. A factor 0 costs nothing.
fn add_row_at(
    rows: Rows,
    i: usize,
    factor: i128,
    column: Option<usize>,
    count: usize,
    totals: &mut [i128],
) -> bool
    requires inside { i < length (rows_seen rows) }
    requires size { count ≤ length totals.old }
    requires held { AreHeld count totals.old }
    ensures size { length totals.new ≡ length totals.old }
    ensures told { let row = slice_index_or (rows_seen rows.entry) i zero_row in AreTold result count
        (λ k. IsAddedHeld (get_or totals.old k (pos 0)) factor (number (further column k) row))
        (λ k. get_or totals.old k (pos 0) +ℤ factor *ℤ number (further column k) row) totals.new }
{
    if factor == 0 {
        return true;
    }
    add_row(totals, count, factor, rows.row(i), column)
}

/// Adds the products of a multiplier and a row that is read.
fn add_known(
    row: &Built,
    multiplier: i128,
    column: Option<usize>,
    count: usize,
    totals: &mut [i128],
) -> bool
    requires size { count ≤ length totals.old }
    requires some { 0 < count }
    requires bounded { count ≤ 576 }
    requires held { AreHeld count totals.old }
    ensures size { length totals.new ≡ length totals.old }
    ensures told { let k = built row.now in AreTold result count
        (λ i. KnownHeld k (further column i) × IsAddedHeld (get_or totals.old i (pos 0)) multiplier (known_number k (further column i)))
        (λ i. get_or totals.old i (pos 0) +ℤ multiplier *ℤ known_number k (further column i)) totals.new }
{
    if count <= FEW {
        let mut numbers = [0; FEW];
        add_read(row, multiplier, column, count, &mut numbers, totals)
    } else {
        let mut numbers = [0; BLOCK];
        add_read(row, multiplier, column, count, &mut numbers, totals)
    }
}

/// Adds the products of a multiplier and a row, with room for the numbers that are read.
fn add_read(
    row: &Built,
    multiplier: i128,
    column: Option<usize>,
    count: usize,
    numbers: &mut [i128],
    totals: &mut [i128],
) -> bool
    requires room { count ≤ length numbers.old }
    requires size { count ≤ length totals.old }
    requires some { 0 < count }
    requires bounded { count ≤ 576 }
    requires held { AreHeld count totals.old }
    ensures size { length totals.new ≡ length totals.old }
    ensures told { let k = built row.now in AreTold result count
        (λ i. KnownHeld k (further column i) × IsAddedHeld (get_or totals.old i (pos 0)) multiplier (known_number k (further column i)))
        (λ i. get_or totals.old i (pos 0) +ℤ multiplier *ℤ known_number k (further column i)) totals.new }
{
    if let Built::Denied(inner) = row {
        if !read_numbers(inner, column, count, numbers) {
            return false;
        }
        let denial = Denial { column, numbers };
        return add_each(totals, count, multiplier, &denial);
    }
    if !read_numbers(row, column, count, numbers) {
        return false;
    }
    add_each(totals, count, multiplier, &Read(numbers))
}

/// Whether `count` rows are known at the place.
pub(crate) fn is_count(frames: &Frames, count: usize) -> bool
    ensures { IsTrue result ↔ (count ≡ length (known_at frames.now)) }
{
    match frames {
        Frames::End => count == 0,
        Frames::Rows { rows, above } => {
            count >= rows.len() && is_count(above, count - rows.len())
        }
        Frames::More { above, .. } => count > 0 && is_count(above, count - 1),
    }
}
