// The sums of the columns, row by row.

ghost use Rattle.std.specs.Prelude.{◌≡◌, ◌+◌, ◌*◌, ◌^◌, ◌<◌, ◌≤◌, length, get_or, set, pos, ◌+ℤ◌, unsigned_abs, IfOk};
ghost use Rattle.tv_simplex.specs.Systems.{IsWhole};
ghost use Rattle.tv_simplex.specs.Outcomes.{IsNarrow, IsNarrowSystem};
ghost use Rattle.tv_simplex.specs.Views.{equations};
ghost use Rattle.tv_simplex.specs.Starting.{AreSums};

use crate::System;
use crate::numbers::{kept_in, right_at, signed_in};
use std::alloc::{AllocError, Global};

/// The sum of the numbers before a row, and the one there.
fn with_number(sum: i128, number: i128, row: usize) -> i128
    requires sum { unsigned_abs sum ≤ 2 ^ 40 * row }
    requires number { IsNarrow number }
    requires bounded { row < 2 ^ 32 }
    ensures value { result ≡ sum +ℤ number }
    ensures bound { unsigned_abs result ≤ 2 ^ 40 * (row + 1) }
{
    sum + number
}

/// The sum at a place.
pub fn sum_at(sums: &[i128], slot: usize) -> i128
    requires { slot < length sums.now }
    ensures { result ≡ get_or sums.now slot (pos 0) }
{
    sums[slot]
}

/// Adds a number of the row to the sum at a place.
fn add_at(sums: &mut [i128], slot: usize, number: i128, row: usize)
    requires slot { slot < length sums.old }
    requires sum { unsigned_abs (get_or sums.old slot (pos 0)) ≤ 2 ^ 40 * row }
    requires number { IsNarrow number }
    requires bounded { row < 2 ^ 32 }
    ensures value { sums.new ≡ set sums.old slot (get_or sums.old slot (pos 0) +ℤ number) }
    ensures bound { unsigned_abs (get_or sums.old slot (pos 0) +ℤ number) ≤ 2 ^ 40 * (row + 1) }
{
    let sum = with_number(sum_at(sums, slot), number, row);
    sums[slot] = sum;
}

/// Adds the numbers of the row to the sums of their columns, and its right side to the last.
fn add_row(system: &System, row: usize, sums: &mut [i128])
    requires whole { IsWhole (equations system.now) }
    requires narrow { IsNarrowSystem (equations system.now) }
    requires row { row < system.now.rows }
    requires sums { AreSums (equations system.now) row sums.old }
    ensures { AreSums (equations system.now) (row + 1) sums.new }
{
    let columns = system.columns as usize;
    let start = row * columns;
    let mut left = kept_in(system, row);
    'kept: while let [first, rest @ ..] = left {
        let number = signed_in(system, row, first.number);
        add_at(sums, first.place - start, number, row);
        left = rest;
    }
    let right = signed_in(system, row, right_at(system, row));
    add_at(sums, columns, right, row);
}

/// The sums of the columns of the system and of the right sides. The system is read row by row, as it is held.
pub fn column_sums(alloc: Global, system: &System) -> Result<Vec<i128>, AllocError>
    requires whole { IsWhole (equations system.now) }
    requires narrow { IsNarrowSystem (equations system.now) }
    ensures { IfOk result (λ sums. AreSums (equations system.now) system.now.rows sums.items) }
{
    let mut sums = vec![in alloc; 0i128; system.columns as usize + 1]?;
    'rows: for row in 0..system.rows as usize {
        add_row(system, row, &mut sums);
    }
    Ok(sums)
}
