ghost use Rattle.std.specs.Prelude.{◌≡◌, ◌+◌, ◌-◌, ◌^◌, ◌<◌, ◌≤◌, ◌↔◌, ◌+ℤ◌, ◌≤ℤ◌, ℤ, pos, List, map, length, All, IfOk, IfSome, IsSome, IsTrue, SomeIff};
ghost use Rattle.tv_linear.specs.Linear.{linear, columns, entry, IsWithin, IsNarrow, IsMet, value};
ghost use Rattle.tv_linear.specs.Arithmetic.{padded_row, constant_row, column_row, plus, opposite, denial, raised, width_of};
ghost use Rattle.tv_linear.specs.Tight.{tight, IsTightened};
ghost use Rattle.tv_linear.specs.Fits.{ValueHeld, GivesWhere, GivesRow, GivesTight, GivesComposed};

use crate::columns::{Added, Columns, Composed, Constant, Denied, Difference};
use crate::fault::RowFault;
use crate::held;
use crate::lists::{all_opposite, all_zero, one_at, shortened};
use crate::narrow::{are_narrow, is_narrow, opposite, short};
use crate::sums::{Slice, dot_from};
use crate::tight::{all_rounded_up, common_divisor, rounded_up};
use std::alloc::{AllocError, Global};
use std::marker::Model;

/// Whole coefficients and a constant, each below 2^62 in magnitude.
///
/// As a term it has a value at a list of numbers, one for each column. As a condition it is met where that
/// value is at most 0.
#[derive(Drop)]
pub struct Row {
    coefficients: Vec<i64>,
    constant: i64,
}

impl Model for Row {
    ghost use Rattle.tv_linear.specs.Linear.{Linear, linear, IsNarrow};

    ghost Value = { Linear };

    ghost view = { λ r. linear r.coefficients.items r.constant };

    ghost invariant = { λ r. IsNarrow (linear r.coefficients.items r.constant) };
}

/// The row with these columns, where each fits.
fn build<C: Columns>(alloc: Global, wanted: &C) -> Result<Row, RowFault>
    ensures { GivesWhere (C.fits wanted.now) (columns (C.meant wanted.now)) (C.meant wanted.now) result }
{
    let width = wanted.width();
    let mut coefficients = Vec::with_capacity(alloc, width)?;
    for column in 0..width {
        match wanted.number(column) {
            Some(number) => coefficients.push(short(number))?,
            None => return Err(RowFault::Wide {
                column: column as u32,
            }),
        }
    }
    match wanted.number(width) {
        Some(constant) => Ok(Row {
            coefficients,
            constant: short(constant),
        }),
        None => Err(RowFault::Wide {
            column: width as u32,
        }),
    }
}

impl Row {
    /// The row of these numbers; `None` where one is 2^62 or more in magnitude, for which no memory is taken.
    pub fn new(
        alloc: Global,
        coefficients: &[i128],
        constant: i128,
    ) -> Result<Option<Row>, AllocError>
        requires { length coefficients.now < 2 ^ 32 - 1 }
        ensures { let row = linear coefficients.now constant in
            IfOk result (λ made. SomeIff made (IsNarrow row) row) }
    {
        if are_narrow(coefficients) && is_narrow(constant) {
            Ok(Some(Row {
                coefficients: shortened(alloc, coefficients)?,
                constant: short(constant),
            }))
        } else {
            Ok(None)
        }
    }

    /// The row of numbers that are narrow. It takes no memory, and keeps the list's.
    pub fn from_narrow(coefficients: Vec<i64>, constant: i64) -> Row
        requires { IsNarrow (linear coefficients.items constant) }
        ensures { result ≡ linear coefficients.items constant }
    {
        Row {
            coefficients,
            constant,
        }
    }

    /// The row of a number.
    pub fn number(alloc: Global, columns: u32, number: i128) -> Result<Row, RowFault>
        requires { columns < 2 ^ 32 - 1 }
        ensures { GivesRow (constant_row columns number) result }
    {
        build(alloc, &Constant { columns, number })
    }

    /// The row of a number that is narrow.
    pub fn narrow_number(alloc: Global, columns: u32, number: i128) -> Result<Row, AllocError>
        requires bounded { columns < 2 ^ 32 - 1 }
        requires narrow { IsWithin 62 number }
        ensures { IfOk result (λ row. row ≡ constant_row columns number) }
    {
        Ok(Row {
            coefficients: all_zero(alloc, columns)?,
            constant: short(number),
        })
    }

    /// The row of zeros.
    pub fn zero(alloc: Global, columns: u32) -> Result<Row, AllocError>
        requires { columns < 2 ^ 32 - 1 }
        ensures { IfOk result (λ row. row ≡ constant_row columns (pos 0)) }
    {
        Ok(Row {
            coefficients: all_zero(alloc, columns)?,
            constant: 0,
        })
    }

    /// The row with `more` further columns. It has 0 in each of them.
    pub fn padded(&self, alloc: Global, more: u32) -> Result<Row, AllocError>
        requires { columns self.now + more < 2 ^ 32 - 1 }
        ensures { IfOk result (λ row. row ≡ padded_row more self.now) }
    {
        let mut coefficients = Vec::from_slice(alloc, &self.coefficients)?;
        coefficients.extend_from_slice(&all_zero(alloc, more)?)?;
        Ok(Row {
            coefficients,
            constant: self.constant,
        })
    }

    /// The row whose value is the number in one column.
    pub fn column(alloc: Global, columns: u32, column: u32) -> Result<Row, AllocError>
        requires bounded { columns < 2 ^ 32 - 1 }
        requires inside { column < columns }
        ensures { IfOk result (λ row. row ≡ column_row columns column) }
    {
        Ok(Row {
            coefficients: one_at(alloc, columns, column)?,
            constant: 0,
        })
    }

    /// How many coefficients there are. The constant has this number as its column.
    pub fn columns(&self) -> u32
        ensures counted { result ≡ columns self.now }
        ensures narrow { IsNarrow self.now }
    {
        self.coefficients.len() as u32
    }

    pub fn coefficient(&self, column: u32) -> i128
        requires { column < columns self.now }
        ensures is { result ≡ entry self.now column }
        ensures narrow { IsWithin 62 result }
    {
        i128::from(self.coefficients[column as usize])
    }

    pub fn coefficients(&self) -> &[i64]
        ensures is { result.now ≡ self.now.coefficients }
        ensures narrow { IsNarrow self.now }
    {
        &self.coefficients
    }

    pub fn constant(&self) -> i128
        ensures is { result ≡ self.now.constant }
        ensures narrow { IsWithin 62 result }
    {
        i128::from(self.constant)
    }

    /// The number at a column. The constant's column is the last.
    pub(crate) fn entry(&self, column: usize) -> i128
        ensures is { result ≡ entry self.now column }
        ensures narrow { IsWithin 62 result }
    {
        if column < self.coefficients.len() {
            i128::from(self.coefficients[column])
        } else {
            i128::from(self.constant)
        }
    }

    pub fn copy(&self, alloc: Global) -> Result<Row, AllocError>
        ensures { IfOk result (λ row. row ≡ self.now) }
    {
        Ok(Row {
            coefficients: Vec::from_slice(alloc, &self.coefficients)?,
            constant: self.constant,
        })
    }

    /// The row with another constant.
    pub fn with_constant(&self, alloc: Global, constant: i128) -> Result<Row, AllocError>
        requires { IsWithin 62 constant }
        ensures { IfOk result (λ row. row ≡ linear self.now.coefficients constant) }
    {
        Ok(Row {
            coefficients: Vec::from_slice(alloc, &self.coefficients)?,
            constant: short(constant),
        })
    }

    /// Whether the row is met at the numbers; `None` where a product or a partial sum, in the order of the
    /// columns and the constant last, is 2^127 or more in magnitude.
    pub fn holds(&self, values: &[i128]) -> Option<bool>
        requires { length values.now ≡ columns self.now }
        ensures held { IsSome result ↔ ValueHeld self.now values.now }
        ensures met { IfSome result (λ met. IsTrue met ↔ IsMet values.now self.now) }
    {
        match dot_from(0, &self.coefficients, &Slice(values)) {
            None => None,
            Some(total) => match held::sum(total, i128::from(self.constant)) {
                None => None,
                Some(value) => Some(value <= 0),
            },
        }
    }

    /// The row that integer points meet exactly where they do not meet this one: `1 - r`.
    pub fn deny(&self, alloc: Global) -> Result<Row, RowFault>
        ensures exact { GivesRow (denial self.now) result }
        ensures denied { IfOk result (λ row. (xs : List ℤ) → IsMet xs row ↔ (¬ IsMet xs self.now)) }
    {
        build(alloc, &Denied { row: self })
    }

    /// The row with each sign turned.
    pub fn opposite(&self, alloc: Global) -> Result<Row, AllocError>
        ensures { IfOk result (λ row. row ≡ opposite self.now) }
    {
        Ok(Row {
            coefficients: all_opposite(alloc, &self.coefficients)?,
            constant: short(opposite(i128::from(self.constant))),
        })
    }

    /// The sum of two rows.
    pub fn add(&self, alloc: Global, other: &Row) -> Result<Row, RowFault>
        requires { columns self.now ≡ columns other.now }
        ensures exact { GivesRow (plus self.now other.now) result }
        ensures added { IfOk result (λ row. (xs : List ℤ) →
            value row xs ≡ value self.now xs +ℤ value other.now xs) }
    {
        build(
            alloc,
            &Added {
                left: self,
                right: other,
            },
        )
    }

    /// The row with a term put in for each column: at a point it has the value that this row has at the
    /// terms' values.
    pub fn compose(&self, alloc: Global, terms: &[Row]) -> Result<Row, RowFault>
        requires each { length terms.now ≡ columns self.now }
        requires even { All (λ t. columns t ≡ width_of terms.now) terms.now }
        ensures exact { GivesComposed self.now terms.now result }
        ensures put_in { IfOk result (λ row. (xs : List ℤ) →
            value row xs ≡ value self.now (map (λ t. value t xs) terms.now)) }
    {
        build(alloc, &Composed { row: self, terms })
    }

    /// Divides by the greatest common divisor of the coefficients and rounds the constant up. The same
    /// integer points meet both rows. A row without a coefficient other than 0 stays.
    pub fn tighten(&self, alloc: Global) -> Result<Row, AllocError>
        ensures exact { IfOk result (λ row. row ≡ tight self.now) }
        ensures divided { IfOk result (λ row. IsTightened self.now row) }
        ensures same_points { IfOk result (λ row. (xs : List ℤ) → IsMet xs row ↔ IsMet xs self.now) }
    {
        let divisor = common_divisor(&self.coefficients);
        if divisor == 0 {
            return self.copy(alloc);
        }
        Ok(Row {
            coefficients: all_rounded_up(alloc, divisor, &self.coefficients)?,
            constant: rounded_up(divisor, self.constant),
        })
    }

    /// The tightened row of `left - right + less`, which is met where `left` is at most `right - less`. A
    /// column that is too wide before the row is tightened is a fault.
    pub fn at_most(alloc: Global, less: i128, left: &Row, right: &Row) -> Result<Row, RowFault>
        requires even { columns left.now ≡ columns right.now }
        requires small { IsWithin 62 less }
        ensures exact { GivesTight (raised less (plus left.now (opposite right.now))) result }
        ensures at_most { IfOk result (λ row. (xs : List ℤ) →
            IsMet xs row ↔ ((value left.now xs +ℤ less) ≤ℤ value right.now xs)) }
    {
        let difference = Difference {
            left,
            right,
            more: less,
        };
        let row = build(alloc, &difference)?;
        Ok(row.tighten(alloc)?)
    }
}
