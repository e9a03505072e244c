//! Rows that are covered by targets.
//!
//! The text is how many columns and targets there are, then how many rows there are and the rows, each with its constant after its
//! columns, and then in the same way the rows of each target.

ghost use Rattle.std.specs.Prelude.{◌≡◌, ◌-◌, ◌^◌, ◌<◌, ◌≤◌, All, IsTrue, length};
ghost use Rattle.tv_cover.specs.Targets.{lists_of, AreEven};

use crate::solving::refusal;
use crate::words::{Fault, next_count, next_rows};
use std::alloc::{AllocError, Global};
use std::str::SplitWhitespace;
use tv_cover::{Covered, are_even, cover, is_even};
use tv_farkas::{Budget, CoverFault};
use tv_linear::Poly;

/// How many splits lie on a path at most.
const SPLITS: u32 = 64;

fn next_poly(alloc: Global, words: &mut SplitWhitespace<'_>, columns: u32) -> Result<Poly, Fault> {
    let count = next_count(words)?;
    let rows = next_rows(alloc, words, count, columns)?;
    Ok(Poly { columns, rows })
}

fn next_polys(
    alloc: Global,
    words: &mut SplitWhitespace<'_>,
    count: u32,
    columns: u32,
) -> Result<Vec<Poly>, Fault> {
    let mut polys = Vec::new(alloc);
    for _ in 0..count {
        polys.push(next_poly(alloc, words, columns)?)?;
    }
    Ok(polys)
}

/// What the search gave.
fn told(alloc: Global, answer: Result<Covered, CoverFault>) -> Result<String, AllocError> {
    match answer {
        Ok(Covered::Tree(_)) => format!(in alloc; "tree"),
        Ok(Covered::Hole(_)) => format!(in alloc; "hole"),
        Err(CoverFault::Splits { path }) => format!(in alloc; "splits {}", path.len()),
        Err(CoverFault::Solve { fault, .. }) => refusal(alloc, fault),
        Err(CoverFault::Wide { column }) => format!(in alloc; "wide column {column}"),
        Err(CoverFault::Memory) => format!(in alloc; "memory"),
    }
}

/// What comes of the rows and targets in the text, where `bases` bases are tried for each system.
pub(crate) fn covered(alloc: Global, text: &str, bases: u64) -> Result<String, Fault> {
    let mut words = text.split_whitespace();
    let columns = next_count(&mut words)?;
    let count = next_count(&mut words)?;
    let ambient = next_poly(alloc, &mut words, columns)?;
    let targets = next_polys(alloc, &mut words, count, columns)?;
    if columns >= 4_000_000 || targets.len() >= 4_000_000 {
        return Err(Fault::Form);
    }
    if ambient.columns != columns || !is_even(&ambient.rows, columns) {
        return Err(Fault::Form);
    }
    if !are_even(&targets, columns) {
        return Err(Fault::Form);
    }
    let budget = Budget {
        pivots: bases,
        splits: SPLITS,
        disjuncts: 1,
    };
    Ok(told(alloc, cover(alloc, &ambient, &targets, &budget))?)
}
