// Marks of the columns in which a row may have a number.

ghost use Rattle.std.specs.Prelude.{◌≡◌, ℕ, ◌<◌, ◌≤◌, length, IsTrue, ◌↔◌, IfOk};
ghost use Rattle.std.specs.Int.{bit_at};
ghost use Rattle.tv_simplex.specs.Rows.{IsSparse, IsGrid};
ghost use Rattle.tv_simplex.specs.Marks.{class_of, AreMarksOf, AreMarked, AreMarkedBut};

use crate::rows::{Entry, row_at};
use std::alloc::{AllocError, Global};
use tv_linear::push_item;

/// How many classes the columns fall into.
const CLASSES: usize = 64;

/// Whether the class of the column has a mark.
pub fn is_marked(marks: u64, column: usize) -> bool
    ensures { IsTrue result ↔ bit_at marks (class_of column) ≡ 1 }
{
    (marks >> (column % CLASSES)) & 1 == 1
}

/// The marks with that of the class of the column.
fn with_mark(marks: u64, column: usize) -> u64
    ensures set { bit_at result (class_of column) ≡ 1 }
    ensures kept { (class : ℕ) → bit_at result class ≡ 0 → bit_at marks class ≡ 0 }
{
    marks | 1 << (column % CLASSES)
}

/// The marks of a row. Only the first `columns` columns count. Where each class has one, the later entries are not read.
fn marks_of(row: &[Entry], columns: usize) -> u64
    requires { (width : ℕ) × IsSparse 0 width row.now }
    ensures { AreMarksOf columns row.now result }
{
    let mut marks = 0;
    let mut left = row;
    'entries: while let [first, rest @ ..] = left {
        let column = first.column as usize;
        if column >= columns {
            return marks;
        }
        if marks == u64::MAX {
            return marks;
        }
        marks = with_mark(marks, column);
        left = rest;
    }
    marks
}

/// The marks of the first `height` rows.
pub fn first_marks(
    alloc: Global,
    rows: &[Vec<Entry>],
    height: usize,
    columns: usize,
) -> Result<Vec<u64>, AllocError>
    requires rows { (width : ℕ) × IsGrid width rows.now }
    requires height { height ≤ length rows.now }
    ensures { IfOk result (λ marks. AreMarked columns height rows.now marks.items) }
{
    let mut marks = Vec::with_capacity(alloc, height)?;
    'rows: for row in 0..height {
        push_item(&mut marks, marks_of(row_at(rows, row), columns))?;
    }
    Ok(marks)
}

/// Marks anew the rows of these entries of a column.
pub fn mark_again(marks: &mut [u64], rows: &[Vec<Entry>], entries: &[Entry], columns: usize)
    requires rows { (width : ℕ) × IsGrid width rows.now }
    requires height { length marks.old ≤ length rows.now }
    requires others { AreMarkedBut entries.now columns (length marks.old) rows.now marks.old }
    ensures { AreMarked columns (length marks.old) rows.now marks.new }
{
    let mut left = entries;
    'entries: while let [first, rest @ ..] = left {
        let row = first.column as usize;
        if row < marks.len() {
            marks[row] = marks_of(row_at(rows, row), columns);
        }
        left = rest;
    }
}
