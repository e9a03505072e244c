// Rows from tables of numbers.

ghost use Rattle.std.specs.Prelude.{◌≡◌, ◌↔◌, ◌^◌, ◌-◌, ◌<◌, IsTrue, length};
ghost use Rattle.std.specs.List.{All};
ghost use Rattle.tv_linear.specs.Linear.{columns as width};

use std::alloc::Global;
use std::process::Abort;
use std::test::Fail;
use tv_linear::{CoverTree, Row};

/// A row by its coefficients and its constant.
pub(crate) type Numbers = (&'static [i128], i128);

fn row(alloc: Global, coefficients: &[i128], constant: i128) -> Result<Row, Fail>
    requires { length coefficients.now < 2 ^ 32 - 1 }
{
    let row = Row::new(alloc, coefficients, constant)?.ok_or("wide")?;
    Ok(row)
}

pub(crate) fn rows_of(rt: &impl Abort, alloc: Global, table: &[Numbers]) -> Result<Vec<Row>, Fail> {
    let mut rows = Vec::new(alloc);
    for (coefficients, constant) in table {
        assert!(rt; coefficients.len() < 2000);
        rows.push(row(alloc, coefficients, *constant)?)?;
    }
    Ok(rows)
}

pub(crate) fn are_even(rows: &[Row], columns: u32) -> bool
    ensures { IsTrue result ↔ All (λ r. width r ≡ columns) rows.now }
{
    rows.iter().all(|row| row.columns() == columns)
}

pub(crate) fn is_row(row: &Row, wanted: &Numbers) -> bool {
    let numbers = row.coefficients();
    numbers.len() == wanted.0.len()
        && numbers
            .iter()
            .zip(wanted.0)
            .all(|(number, wanted)| i128::from(*number) == *wanted)
        && row.constant() == wanted.1
}

/// Whether the tree is a leaf with these multipliers.
pub(crate) fn is_leaf(tree: &CoverTree, numbers: &[i64]) -> bool {
    match tree {
        CoverTree::Empty(multipliers) => multipliers.as_slice() == numbers,
        _ => false,
    }
}

/// `2*x == 1`.
pub(crate) const HALF: &[Numbers] = &[(&[2], -1), (&[-2], 1)];

/// `2*x == y` and `2*z + 1 == y`.
pub(crate) const PARITY: &[Numbers] = &[
    (&[2, -1, 0], 0),
    (&[-2, 1, 0], 0),
    (&[0, -1, 2], 1),
    (&[0, 1, -2], -1),
];

/// A number that the solver refuses.
pub(crate) const LARGE: &[Numbers] = &[(&[1 << 40], -1)];

/// `2*x == -1`.
pub(crate) const MINUS_HALF: &[Numbers] = &[(&[2], 1), (&[-2], -1)];

/// `x >= 2`, `y >= 3` and `x + y <= 7`.
pub(crate) const CORNER: &[Numbers] = &[(&[1, 1], -7), (&[-1, 0], 2), (&[0, -1], 3)];
