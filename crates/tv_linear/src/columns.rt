//! Rows that are to be made, column by column.

ghost use Rattle.std.specs.Prelude.{◌≡◌, ℕ, ◌-◌, ◌^◌, ◌<◌, ◌≤◌, ℤ, pos, neg_ℤ, SomeIff, IfSome, All, map, length};
ghost use Rattle.tv_linear.specs.Linear.{Linear, columns, entry, IsWithin};
ghost use Rattle.tv_linear.specs.Fits.{IsNarrowAt, FitsComposed};
ghost use Rattle.tv_linear.specs.Arithmetic.{width_of, denial, plus, opposite, raised, composed, constant_row};

use crate::held;
use crate::narrow::{denial, difference, narrow, opposite, sum};
use crate::row::Row;
use crate::sums::{Numbers, dot_from};

/// The columns of a row that is to be made. The constant's column is the last.
pub trait Columns {
    /// The row that is meant.
    ghost meant: { Self → Linear };

    /// Whether a column fits.
    ghost fits: { Self → ℕ → Type 0 };

    fn width(&self) -> usize
        ensures is { result ≡ columns (meant self.now) }
        ensures bounded { result < 2 ^ 32 - 1 };

    fn number(&self, column: usize) -> Option<i128>
        requires { column ≤ columns (meant self.now) }
        ensures is { SomeIff result (fits self.now column) (entry (meant self.now) column) }
        ensures narrow { IfSome result (IsWithin 62) };
}

/// The row `1 - r`.
#[derive(Drop)]
pub struct Denied<'a> {
    pub row: &'a Row,
}

impl Columns for Denied<'_> {
    ghost meant = { λ d. denial d.row.now };

    ghost fits = { λ d. IsNarrowAt (denial d.row.now) };

    fn width(&self) -> usize {
        self.row.columns() as usize
    }

    fn number(&self, column: usize) -> Option<i128> {
        let number = self.row.entry(column);
        if column < self.width() {
            Some(opposite(number))
        } else {
            narrow(denial(number))
        }
    }
}

/// The sum of two rows.
#[derive(Drop)]
pub struct Added<'a> {
    pub left: &'a Row,
    pub right: &'a Row,
    ghost even: { columns left.now ≡ columns right.now },
}

impl Columns for Added<'_> {
    ghost meant = { λ a. plus a.left.now a.right.now };

    ghost fits = { λ a. IsNarrowAt (plus a.left.now a.right.now) };

    fn width(&self) -> usize {
        self.left.columns() as usize
    }

    fn number(&self, column: usize) -> Option<i128> {
        narrow(sum(self.left.entry(column), self.right.entry(column)))
    }
}

/// The row `left - right`, with a number added to the constant.
#[derive(Drop)]
pub struct Difference<'a> {
    pub left: &'a Row,
    pub right: &'a Row,
    pub more: i128,
    ghost even: { columns left.now ≡ columns right.now },
    ghost small: { IsWithin 62 more },
}

impl Columns for Difference<'_> {
    ghost meant = { λ d. raised d.more (plus d.left.now (opposite d.right.now)) };

    ghost fits = { λ d. IsNarrowAt (raised d.more (plus d.left.now (opposite d.right.now))) };

    fn width(&self) -> usize {
        self.left.columns() as usize
    }

    fn number(&self, column: usize) -> Option<i128> {
        let left = self.left.entry(column);
        let right = self.right.entry(column);
        if column < self.width() {
            narrow(difference(left, right, 0))
        } else {
            narrow(difference(left, right, self.more))
        }
    }
}

/// The row of a number.
#[derive(Drop)]
pub struct Constant {
    pub columns: u32,
    pub number: i128,
    ghost bounded: { columns < 2 ^ 32 - 1 },
}

impl Columns for Constant {
    ghost meant = { λ c. constant_row c.columns c.number };

    ghost fits = { λ c. IsNarrowAt (constant_row c.columns c.number) };

    fn width(&self) -> usize {
        self.columns as usize
    }

    fn number(&self, column: usize) -> Option<i128> {
        if column < self.width() {
            Some(0)
        } else {
            narrow(self.number)
        }
    }
}

/// The row with a term put in for each column.
#[derive(Drop)]
pub struct Composed<'a> {
    pub row: &'a Row,
    pub terms: &'a [Row],
    ghost each: { length terms.now ≡ columns row.now },
    ghost even: { All (λ t. columns t ≡ width_of terms.now) terms.now },
}

impl Columns for Composed<'_> {
    ghost meant = { λ c. composed c.row.now c.terms.now };

    ghost fits = { λ c. FitsComposed c.row.now c.terms.now };

    fn width(&self) -> usize {
        match self.terms {
            [] => 0,
            [first, ..] => first.columns() as usize,
        }
    }

    fn number(&self, column: usize) -> Option<i128> {
        let at_column = AtColumn {
            terms: self.terms,
            column,
        };
        match dot_from(0, self.row.coefficients(), &at_column) {
            None => None,
            Some(total) if column < self.width() => narrow(total),
            Some(total) => match held::sum(total, self.row.constant()) {
                None => None,
                Some(number) => narrow(number),
            },
        }
    }
}

/// What the terms have at one column.
#[derive(Drop)]
struct AtColumn<'a> {
    terms: &'a [Row],
    column: usize,
}

impl Numbers for AtColumn<'_> {
    ghost numbers = { λ a. map (λ t. entry t a.column) a.terms.now };

    fn number(&self, i: usize) -> i128 {
        self.terms[i].entry(self.column)
    }
}
