ghost use Rattle.std.specs.Prelude.{◌≡◌, ◌+◌, ◌-◌, ◌^◌, ◌<◌, pos, IfOk, SomeIff};
ghost use Rattle.tv_linear.specs.Linear.{columns, IsNarrow};
ghost use Rattle.tv_linear.specs.Arithmetic.{constant_row, plus, plus_each, zeros};
ghost use Rattle.tv_linear.specs.Totals.{Sum};
ghost use Rattle.std.specs.Prelude.{◌*◌, ◌≤◌, All, length, unsigned_abs};
ghost use Rattle.tv_linear.specs.Linear.{IsWithin};

use crate::narrow::one_more;
use crate::row::Row;
use std::alloc::{AllocError, Global};
use std::marker::Model;

/// A sum of rows, which may be wide on the way.
#[derive(Drop)]
pub struct Total {
    coefficients: Vec<i128>,
    constant: i128,
    parts: u64,
}

impl Model for Total {
    ghost use Rattle.tv_linear.specs.Linear.{linear};
    ghost use Rattle.tv_linear.specs.Totals.{Sum, IsSmall};

    ghost Value = { Sum };

    ghost view = { λ t. record { row = linear t.coefficients.items t.constant; parts = t.parts } };

    ghost invariant = { λ t. IsSmall t.parts (linear t.coefficients.items t.constant) };
}

impl Total {
    /// The sum of no rows.
    pub fn new(alloc: Global, columns: u32) -> Result<Total, AllocError>
        requires { columns < 2 ^ 32 - 1 }
        ensures row { IfOk result (λ total. total.row ≡ constant_row columns (pos 0)) }
        ensures none { IfOk result (λ total. total.parts ≡ 0) }
    {
        Ok(Total {
            coefficients: wide_zeros(alloc, columns)?,
            constant: 0,
            parts: 0,
        })
    }

    /// Adds a row.
    pub fn add(&mut self, row: &Row)
        requires even { columns self.old.row ≡ columns row.now }
        requires bounded { self.old.parts < 2 ^ 64 - 1 }
        ensures row { self.new.row ≡ plus self.old.row row.now }
        ensures one_more { self.new.parts ≡ self.old.parts + 1 }
    {
        add_each(self.parts, &mut self.coefficients, row.coefficients());
        self.constant = one_more(self.parts, self.constant, row.constant());
        self.parts += 1;
    }

    /// The sum as a row; `None` where a number is 2^62 or more in magnitude.
    pub fn into_row(self, alloc: Global) -> Result<Option<Row>, AllocError>
        ensures { IfOk result (λ made. SomeIff made (IsNarrow self.row) self.row) }
    {
        Row::new(alloc, &self.coefficients, self.constant)
    }
}

/// So many zeros, each with room for a sum.
fn wide_zeros(alloc: Global, columns: u32) -> Result<Vec<i128>, AllocError>
    ensures exact { IfOk result (λ v. v.items ≡ zeros columns) }
    ensures counted { IfOk result (λ v. length v.items ≡ columns) }
    ensures small { IfOk result (λ v. All (λ z. unsigned_abs z ≤ 0) v.items) }
{
    let numbers = vec![in alloc; 0; columns as usize]?;
    Ok(numbers)
}

/// Adds a number at each place.
fn add_each(parts: u64, totals: &mut [i128], numbers: &[i64])
    requires even { length totals.old ≡ length numbers.now }
    requires small { All (λ z. unsigned_abs z ≤ parts * 2 ^ 62) totals.old }
    requires bounded { parts < 2 ^ 64 - 1 }
    requires narrow { All (IsWithin 62) numbers.now }
    ensures exact { totals.new ≡ plus_each totals.old numbers.now }
    ensures small { All (λ z. unsigned_abs z ≤ (parts + 1) * 2 ^ 62) totals.new }
{
    for i in 0..totals.len() {
        totals[i] = one_more(parts, totals[i], i128::from(numbers[i]));
    }
}
