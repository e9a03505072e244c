//! Sums and products of rows, column by column.

ghost use Rattle.std.specs.Prelude.{◌≡◌, ◌∷◌, [], ◌<◌, ◌≤◌, ◌-◌, ◌^◌, ◌*◌, ◌↔◌, All, length, min, IsTrue, pos, unsigned_abs};
ghost use Rattle.tv_linear.specs.Arithmetic.{constant_row};
ghost use Rattle.tv_linear.specs.Fits.{IsNarrowAt};
ghost use Rattle.tv_linear.specs.Linear.{Linear, columns, entry as entry_of, IsWithin};
ghost use Rattle.tv_cases.specs.Forms.{times};
ghost use Rattle.tv_causes.specs.Walks.{sum_of, product_of, joined, IsCapped};
ghost use Rattle.tv_causes.specs.Widths.{TellsWide};

use tv_cases::is_number;
use tv_linear::{Row, is_narrow};

/// How rows are joined to one.
#[derive(Clone, Copy)]
pub(crate) enum Join {
    Sum,
    /// All rows but one at most are numbers.
    Product,
}

/// Where magnitudes are capped: numbers from here on are too wide.
const CAP: u128 = 1 << 62;

/// The number at a column. The constant's column is the last.
fn entry(row: &Row, column: u32) -> i128
    ensures is { result ≡ entry_of row.now column }
    ensures narrow { IsWithin 62 result }
{
    if column < row.columns() {
        row.coefficient(column)
    } else {
        row.constant()
    }
}

/// The number at a column of the sum of rows.
fn sum_at(rows: &[Row], column: u32, variables: u32) -> i128
    requires even { All (λ r. columns r ≡ variables) rows.now }
    ensures { result ≡ entry_of (sum_of (constant_row variables (pos 0)) rows.now) column }
{
    let mut sum = 0;
    'rows: for row in rows {
        sum += entry(row, column);
    }
    sum
}

/// The magnitudes of a row at a column and at its constant, each at most the cap.
#[derive(Clone, Copy)]
struct Capped {
    at_column: u128,
    constant: u128,
}

/// The product of two magnitudes, at most the cap.
fn capped_product(left: u128, right: u128) -> u128
    requires left { left ≤ 2 ^ 62 }
    requires right { right ≤ 2 ^ 62 }
    ensures { result ≡ min (left * right) (2 ^ 62) }
{
    (left * right).min(CAP)
}

/// What is kept of a product after one more factor.
fn multiplied(product: Capped, row: &Row, column: u32) -> Capped
    requires at_column { product.at_column ≤ 2 ^ 62 }
    requires constant { product.constant ≤ 2 ^ 62 }
    ensures { (t : Linear) → columns t ≡ columns row.now → IsCapped t column product → IsCapped (times t row.now) column result }
{
    let constant = row.constant().unsigned_abs();
    if is_number(row) {
        Capped {
            at_column: capped_product(product.at_column, constant),
            constant: capped_product(product.constant, constant),
        }
    } else {
        Capped {
            at_column: capped_product(product.constant, entry(row, column).unsigned_abs()),
            constant: capped_product(product.constant, constant),
        }
    }
}

/// What is kept of the product of no rows.
fn one(column: u32, variables: u32) -> Capped
    requires { column ≤ variables }
    ensures { IsCapped (constant_row variables (pos 1)) column result }
{
    let at_column = if column < variables { 0 } else { 1 };
    Capped {
        at_column,
        constant: 1,
    }
}

/// What is kept of the product of rows at a column.
fn product_at(rows: &[Row], column: u32, variables: u32) -> Capped
    requires inside { column ≤ variables }
    requires even { All (λ r. columns r ≡ variables) rows.now }
    ensures { IsCapped (product_of (constant_row variables (pos 1)) rows.now) column result }
{
    let mut product = one(column, variables);
    'rows: for row in rows {
        product = multiplied(product, row, column);
    }
    product
}

/// Whether the sum or product of rows is narrow at a column.
fn is_narrow_at(join: Join, rows: &[Row], column: u32, variables: u32) -> bool
    requires inside { column ≤ variables }
    requires even { All (λ r. columns r ≡ variables) rows.now }
    ensures { IsTrue result ↔ IsNarrowAt (joined join variables rows.now) column }
{
    match join {
        Join::Sum => is_narrow(sum_at(rows, column, variables)),
        Join::Product => product_at(rows, column, variables).at_column < CAP,
    }
}

/// The first column at which the sum or product of rows is too wide.
pub(crate) fn wide_join(join: Join, rows: &[Row], variables: u32) -> Option<u32>
    requires bounded { variables < 2 ^ 32 - 1 }
    requires even { All (λ r. columns r ≡ variables) rows.now }
    ensures { TellsWide (joined join variables rows.now ∷ []) result }
{
    'columns: for column in 0..variables + 1 {
        if !is_narrow_at(join, rows, column, variables) {
            return Some(column);
        }
    }
    None
}
