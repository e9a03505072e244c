ghost use Rattle.std.specs.Prelude.{◌≡◌, ◌-◌, ◌^◌, ◌<◌, All, IfOk, SomeIff, length};
ghost use Rattle.tv_linear.specs.Linear.{columns as columns_of, IsNarrow};
ghost use Rattle.tv_linear.specs.Packed.{ArePacked};
ghost use Rattle.tv_linear.specs.Views.{rows_seen};
ghost use Rattle.tv_cert.specs.MarkedRows.{marked, marked_in};

use crate::pieces::Pieces;
use std::alloc::{AllocError, Global};
use std::marker::Model;
use tv_linear::{Choice, Cover, PackedRows, Row, Rows, append_rows, have_columns};

/// What a piece of a node is for: its states are done, or they go on.
#[derive(Clone, Copy, Debug, PartialEq, Eq)]
pub enum Mark {
    Done,
    Go,
}

/// A piece of the region where the formula of a node holds, with its ranks where it goes on by ranks.
#[derive(Drop)]
pub struct Marked {
    location: u32,
    columns: u32,
    mark: Mark,
    /// How many rows there are before the ranks.
    rows: u32,
    /// The numbers of the rows and then of the ranks, each constant after the coefficients of its row.
    numbers: Vec<i64>,
}

impl Model for Marked {
    ghost use Rattle.tv_linear.specs.Packed.{ArePacked};
    ghost use Rattle.tv_cert.specs.MarkedRows.{MarkedRows, marked_in};

    ghost Value = { MarkedRows };

    ghost view = { λ m. marked_in m.location m.columns m.mark m.rows m.numbers.items };

    ghost invariant = { λ m. ArePacked m.columns m.rows m.numbers.items };
}

impl Marked {
    /// The piece whose `rows` rows the numbers begin with; its ranks stand after them. It takes no memory, and keeps the list's.
    pub fn from_numbers(
        location: u32,
        mark: Mark,
        columns: u32,
        rows: u32,
        numbers: Vec<i64>,
    ) -> Marked
        requires { ArePacked columns rows numbers.items }
        ensures { result ≡ marked_in location columns mark rows numbers.items }
    {
        Marked {
            location,
            columns,
            mark,
            rows,
            numbers,
        }
    }

    /// The piece of these rows and ranks; `None` where one has another number of columns, or there are 2^32 rows or more.
    pub fn from_rows(
        alloc: Global,
        location: u32,
        mark: Mark,
        columns: u32,
        rows: &[Row],
        ranks: &[Row],
    ) -> Result<Option<Marked>, AllocError>
        requires { columns < 2 ^ 32 - 1 }
        ensures { IfOk result (λ made. SomeIff made
            ((length rows.now < 2 ^ 32) × All (λ r. columns_of r ≡ columns) rows.now × All (λ r. columns_of r ≡ columns) ranks.now)
            (marked location columns mark rows.now ranks.now)) }
    {
        if rows.len() >= 1 << 32 || !have_columns(rows, columns) || !have_columns(ranks, columns) {
            return Ok(None);
        }
        let mut numbers = Vec::new(alloc);
        append_rows(&mut numbers, rows)?;
        append_rows(&mut numbers, ranks)?;
        numbers.shrink_to_fit();
        Ok(Some(Marked {
            location,
            columns,
            mark,
            rows: rows.len() as u32,
            numbers,
        }))
    }

    pub fn copy(&self, alloc: Global) -> Result<Marked, AllocError>
        ensures { IfOk result (λ copy. copy ≡ self.now) }
    {
        Ok(Marked {
            location: self.location,
            columns: self.columns,
            mark: self.mark,
            rows: self.rows,
            numbers: Vec::from_slice(alloc, &self.numbers)?,
        })
    }

    pub fn location(&self) -> u32
        ensures { result ≡ self.now.location }
    {
        self.location
    }

    pub fn mark(&self) -> Mark
        ensures { result ≡ self.now.mark }
    {
        self.mark
    }

    /// How many columns the rows and the ranks have.
    pub fn columns(&self) -> u32
        ensures is { result ≡ self.now.columns }
        ensures rows { All (λ r. columns_of r ≡ self.now.columns) self.now.rows }
        ensures ranks { All (λ r. columns_of r ≡ self.now.columns) self.now.ranks }
        ensures narrow { All IsNarrow self.now.rows × All IsNarrow self.now.ranks }
    {
        self.columns
    }

    /// How many rows it has.
    pub fn row_count(&self) -> u32
        ensures { result ≡ length self.now.rows }
    {
        self.rows
    }

    pub fn rows(&self) -> Rows<'_>
        ensures { rows_seen result ≡ self.now.rows }
    {
        Rows::Packed(PackedRows::new(self.columns, self.rows as usize, &self.numbers))
    }

    pub fn ranks(&self) -> Rows<'_>
        ensures { rows_seen result ≡ self.now.ranks }
    {
        let width = self.columns as usize + 1;
        let rows = self.rows as usize;
        let count = self.numbers.len() / width - rows;
        let (_, numbers) = self.numbers.split_at(rows * width);
        Rows::Packed(PackedRows::new(self.columns, count, numbers))
    }
}

/// What is offered for an obligation.
#[derive(Drop)]
pub enum Proof {
    Covered(Cover),
    Chosen(Choice),
}

/// One formula of the property: where it holds, the nodes of its arguments, and a proof for each of its own obligations.
#[derive(Drop)]
pub struct Node {
    pub pieces: Pieces,
    /// How many ranks each piece has that goes on by ranks.
    pub ranks: u32,
    pub children: Vec<Node>,
    pub proofs: Vec<Proof>,
}

/// What a certificate says of its property.
#[derive(Drop)]
pub enum Verdict {
    /// It holds at every initial state: the start location is covered by the pieces of the root.
    Proved(Cover),
    /// It fails at these values, which lie in this piece of the root at the start location.
    Disproved { piece: u32, values: Vec<i128> },
}

/// What an obligation is about.
#[derive(Clone, Copy, Debug, PartialEq, Eq)]
pub enum Kind {
    Atom,
    Child,
    Done,
    Hold,
    Successor,
    Step,
    Choice,
    Root,
}
