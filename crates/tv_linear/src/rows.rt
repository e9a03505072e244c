ghost use Rattle.std.specs.Prelude.{◌≡◌, ◌↔◌, ◌^◌, ◌<◌, length, get_or, IsTrue, MatchOption, ◌∷◌, []};

use crate::Row;
use crate::packed::PackedRows;
use crate::view::RowView;

/// Rows that are lent one by one.
#[derive(Clone, Copy)]
pub enum Rows<'a> {
    /// Each has memory of its own.
    Each(&'a [Row]),
    /// They stand in one list of numbers.
    Packed(PackedRows<'a>),
}

impl<'a> Rows<'a> {
    ghost use Rattle.tv_linear.specs.Views.{row_seen, rows_seen};

    pub fn len(self) -> usize
        ensures counted { result ≡ length (rows_seen self.entry) }
        ensures bounded { result < 2 ^ 63 }
    {
        match self {
            Rows::Each(rows) => rows.len(),
            Rows::Packed(rows) => rows.len(),
        }
    }

    pub fn is_empty(self) -> bool
        ensures { IsTrue result ↔ (rows_seen self.entry ≡ []) }
    {
        self.len() == 0
    }

    /// The row at a place.
    pub fn row(self, i: usize) -> RowView<'a>
        requires { i < length (rows_seen self) }
        ensures { row_seen result ≡ get_or (rows_seen self.entry) i (row_seen result) }
    {
        match self {
            Rows::Each(rows) => RowView::of(&rows[i]),
            Rows::Packed(rows) => rows.row(i),
        }
    }

    /// The first row and the rows after it.
    pub fn split_first(self) -> Option<(RowView<'a>, Rows<'a>)>
        ensures { MatchOption result (rows_seen self.entry ≡ [])
            (λ parts. rows_seen self.entry ≡ row_seen parts.0 ∷ rows_seen parts.1) }
    {
        match self {
            Rows::Each([]) => None,
            Rows::Each([first, rest @ ..]) => Some((RowView::of(first), Rows::Each(rest))),
            Rows::Packed(rows) => match rows.split_first() {
                None => None,
                Some((first, rest)) => Some((first, Rows::Packed(rest))),
            },
        }
    }
}
