// The tableau of a basis.

ghost use Rattle.std.specs.Prelude.{◌≡◌, ◌^◌, ◌<◌, ◌≤◌, length, IfOk};
ghost use Rattle.tv_fraction.specs.Fraction.{IsNarrow};
ghost use Rattle.tv_simplex.specs.Rows.{ratio, IsColumn};
ghost use Rattle.tv_simplex.specs.Tables.{shown, width_of, IsTable};
ghost use Rattle.tv_simplex.specs.Walking.{AreOfColumn};

use crate::Answer;
use crate::marks::is_marked;
use crate::rows::{Entry, fraction_in, put_last, row_at};
use std::alloc::{AllocError, Global};
use tv_fraction::Fraction;
use tv_linear::push_item;

/// Lists to write to, whose memory is kept over the walk.
#[derive(Drop)]
pub struct Spare {
    /// The row that leaves, divided.
    pub pivots: Vec<Entry>,
    /// What becomes of another row.
    pub other: Vec<Entry>,
}

/// The tableau of a basis.
#[derive(Drop)]
pub struct Table {
    /// The rows, the objective last: entries that are not 0, in the order of their columns.
    pub rows: Vec<Vec<Entry>>,
    /// For each row but the objective a bit for each class of columns of the system: 1 where the row may have a number
    /// in one of them.
    pub marks: Vec<u64>,
    /// The column of each row.
    pub basis: Vec<u32>,
    /// How many columns the system has. The artificial ones and the right side follow.
    pub columns: usize,
    pub spare: Spare,
}

/// What a basis of the chain is.
#[derive(Drop)]
pub enum Settled {
    /// It settles the system, with this answer.
    Done(Answer),
    /// It does not, and this column enters.
    Enters(usize),
}

/// The fraction in a row and a column of the tableau.
pub fn entry_at(table: &Table, row: usize, column: usize) -> Fraction
    requires table { IsTable table.now }
    requires row { row < length table.now.rows.items }
    ensures is { ratio result ≡ shown table.now row column }
    ensures narrow { IsNarrow result }
{
    fraction_in(row_at(&table.rows, row), column)
}

/// The fractions of the first `height` rows in a column.
pub fn column_of(
    alloc: Global,
    table: &Table,
    height: usize,
    column: usize,
) -> Result<Vec<Fraction>, AllocError>
    requires table { IsTable table.now }
    requires height { height ≤ length table.now.rows.items }
    ensures { IfOk result (λ v. AreOfColumn height column (shown table.now) v.items) }
{
    let mut fractions = Vec::with_capacity(alloc, height)?;
    'rows: for row in 0..height {
        push_item(&mut fractions, entry_at(table, row, column))?;
    }
    Ok(fractions)
}

/// Collects the numbers of the column that are not 0, those of the rows in order and then that of the objective. Each
/// stands with its row in place of a column. Only rows with a mark are looked at.
pub fn collect_column(
    table: &Table,
    column: usize,
    entries: &mut Vec<Entry>,
) -> Result<(), AllocError>
    requires table { IsTable table.now }
    requires bounded { width_of table.now ≤ 2 ^ 32 }
    requires column { column < table.now.columns }
    ensures { IfOk result (λ _. IsColumn (length table.now.rows.items) column (shown table.now) entries.new.items) }
{
    entries.clear();
    let objective = table.marks.len();
    'rows: for row in 0..objective {
        if is_marked(table.marks[row], column) {
            put_last(entries, row, entry_at(table, row, column))?;
        }
    }
    put_last(entries, objective, entry_at(table, objective, column))
}
