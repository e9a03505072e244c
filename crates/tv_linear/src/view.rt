ghost use Rattle.std.specs.Prelude.{◌≡◌};
ghost use Rattle.tv_linear.specs.Linear.{linear, columns, IsNarrow, IsWithin};

use crate::Row;

/// The numbers of a row, which are stored elsewhere.
#[derive(Clone, Copy)]
pub struct RowView<'a> {
    pub coefficients: &'a [i64],
    pub constant: i64,
    ghost narrow: { IsNarrow (linear coefficients.now constant) },
}

impl<'a> RowView<'a> {
    ghost use Rattle.tv_linear.specs.Views.{row_seen};

    /// A row that has memory of its own.
    pub fn of(row: &'a Row) -> RowView<'a>
        ensures { row_seen result ≡ row.now }
    {
        RowView {
            coefficients: row.coefficients(),
            constant: row.constant() as i64,
        }
    }

    /// How many coefficients there are.
    pub fn columns(self) -> usize
        ensures { result ≡ columns (row_seen self.entry) }
    {
        self.coefficients.len()
    }

    pub fn coefficients(self) -> &'a [i64]
        ensures is { result.now ≡ (row_seen self.entry).coefficients }
        ensures narrow { IsNarrow (row_seen self.entry) }
    {
        self.coefficients
    }

    pub fn constant(self) -> i128
        ensures is { result ≡ (row_seen self.entry).constant }
        ensures narrow { IsWithin 62 result }
    {
        i128::from(self.constant)
    }
}
