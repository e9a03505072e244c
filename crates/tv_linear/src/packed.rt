ghost use Rattle.std.specs.Prelude.{◌≡◌, ◌-◌, ◌^◌, ◌<◌, ◌∷◌, [], length, get_or, All, MatchOption};
ghost use Rattle.tv_linear.specs.Linear.{linear, IsWithin};
ghost use Rattle.tv_linear.specs.Packed.{first_row, unpacked, ArePacked};

use crate::view::RowView;

/// The row that the numbers begin with.
fn first_row(columns: usize, numbers: &[i64]) -> RowView<'_>
    requires long { columns < length numbers.now }
    requires narrow { All (IsWithin 62) numbers.now }
    requires bounded { columns < 2 ^ 32 - 1 }
    ensures { linear result.coefficients.now result.constant ≡ first_row columns numbers.now }
{
    let (coefficients, _) = numbers.split_at(columns);
    RowView {
        coefficients,
        constant: numbers[columns],
    }
}

/// So many rows of equal columns with which a list of numbers begins, one after another, each with its constant last.
#[derive(Clone, Copy)]
pub struct PackedRows<'a> {
    columns: u32,
    count: usize,
    numbers: &'a [i64],
    ghost packed: { ArePacked columns count numbers.now },
}

impl<'a> PackedRows<'a> {
    ghost use Rattle.tv_linear.specs.Views.{row_seen, rows_packed};

    /// The rows with which these numbers begin. It takes no memory.
    pub fn new(columns: u32, count: usize, numbers: &'a [i64]) -> PackedRows<'a>
        requires { ArePacked columns count numbers.now }
        ensures { rows_packed result ≡ unpacked columns count numbers.now }
    {
        PackedRows {
            columns,
            count,
            numbers,
        }
    }

    pub fn len(self) -> usize
        ensures counted { result ≡ length (rows_packed self.entry) }
        ensures bounded { result < 2 ^ 63 }
    {
        self.count
    }

    /// The row at a place.
    pub fn row(self, i: usize) -> RowView<'a>
        requires { i < length (rows_packed self) }
        ensures { row_seen result ≡ get_or (rows_packed self.entry) i (row_seen result) }
    {
        let width = self.columns as usize;
        let (_, numbers) = self.numbers.split_at(i * (width + 1));
        first_row(width, numbers)
    }

    /// The first row and the rows after it.
    pub fn split_first(self) -> Option<(RowView<'a>, PackedRows<'a>)>
        ensures { MatchOption result (rows_packed self.entry ≡ [])
            (λ parts. rows_packed self.entry ≡ row_seen parts.0 ∷ rows_packed parts.1) }
    {
        if self.count == 0 {
            return None;
        }
        let width = self.columns as usize;
        let (_, numbers) = self.numbers.split_at(width + 1);
        let rest = PackedRows {
            columns: self.columns,
            count: self.count - 1,
            numbers,
        };
        Some((first_row(width, self.numbers), rest))
    }
}
