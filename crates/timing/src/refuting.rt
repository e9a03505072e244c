//! Rows that are refuted, or met by a point.
//!
//! The text is how many rows and columns there are, and then the rows, each with its constant after its columns.

ghost use Rattle.std.specs.Prelude.{◌≡◌, ◌-◌, ◌^◌, ◌<◌, All, IsTrue};
ghost use Rattle.tv_linear.specs.Linear.{columns as width};

use crate::solving::refusal;
use crate::words::{Fault, next_count, next_rows};
use std::alloc::Global;
use tv_farkas::{Refuted, refute};
use tv_linear::Row;

fn are_even(rows: &[Row], columns: u32) -> bool
    ensures { IsTrue result → All (λ r. width r ≡ columns) rows.now }
{
    rows.iter().all(|row| row.columns() == columns)
}

/// What comes of the rows in the text, where `bases` bases are tried.
pub(crate) fn refuted(alloc: Global, text: &str, bases: u64) -> Result<String, Fault> {
    let mut words = text.split_whitespace();
    let count = next_count(&mut words)?;
    let columns = next_count(&mut words)?;
    let rows = next_rows(alloc, &mut words, count, columns)?;
    if columns >= 4_000_000 || !are_even(&rows, columns) {
        return Err(Fault::Form);
    }
    let told = match refute(alloc, &rows, columns, bases) {
        Ok(
            Refuted::Empty {
                multipliers: _multipliers,
            },
        ) => format!(in alloc; "empty"),
        Ok(
            Refuted::Point {
                values: _values,
                scale,
            },
        ) => format!(in alloc; "point over {scale}"),
        Err(fault) => refusal(alloc, fault),
    };
    Ok(told?)
}
