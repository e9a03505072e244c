//! Linear equations that are settled.
//!
//! The text is how many rows and columns there are, and then the rows: how many numbers besides 0 each has, these, each after its column
//! and in the order of their columns, and the right side.

ghost use Rattle.std.specs.Prelude.{IsTrue};
ghost use Rattle.tv_simplex.specs.Views.{equations};
ghost use Rattle.tv_simplex.specs.Systems.{IsWhole};

use crate::words::{Fault, next_count, next_number};
use std::alloc::{AllocError, Global};
use std::str::SplitWhitespace;
use tv_simplex::{Answer, Entries, SolveFault, System, solve};

/// More entries than this no system has.
const MAX_ENTRIES: usize = 4_000_000;

/// Puts `count` zeros at the end.
fn skip(entries: &mut Entries, count: u32) -> Result<(), Fault> {
    if entries.len() > MAX_ENTRIES {
        return Err(Fault::Form);
    }
    entries.push_zeros(count);
    Ok(())
}

/// Puts `zeros` zeros at the end, and then a number.
fn push_behind(entries: &mut Entries, zeros: u32, number: i128) -> Result<(), Fault> {
    skip(entries, zeros)?;
    if entries.len() > MAX_ENTRIES {
        return Err(Fault::Form);
    }
    entries.push(number)?;
    Ok(())
}

/// Puts a row of `columns` entries at the end. The text says how many of them it has, and has each after its column; the others are 0.
fn push_row(
    entries: &mut Entries,
    words: &mut SplitWhitespace<'_>,
    columns: u32,
) -> Result<(), Fault> {
    let mut next = 0;
    for _ in 0..next_count(words)? {
        let column = next_count(words)?;
        let number = next_number(words)?;
        if column < next || column >= columns {
            return Err(Fault::Form);
        }
        push_behind(entries, column - next, number)?;
        next = column + 1;
    }
    match columns.checked_sub(next) {
        Some(zeros) => skip(entries, zeros),
        None => Err(Fault::Form),
    }
}

/// The equations in the text.
fn system_of(alloc: Global, words: &mut SplitWhitespace<'_>) -> Result<System, Fault> {
    let rows = next_count(words)?;
    let columns = next_count(words)?;
    let mut entries = Entries::new(alloc);
    let mut right = Vec::new(alloc);
    for _ in 0..rows {
        push_row(&mut entries, words, columns)?;
        right.push(next_number(words)?)?;
    }
    Ok(System {
        rows,
        columns,
        entries,
        right,
    })
}

fn is_whole(system: &System) -> bool
    ensures { IsTrue result → IsWhole (equations system.now) }
{
    let size = system.rows as u64 * system.columns as u64;
    system.entries.len() as u64 == size
        && system.right.len() as u64 == system.rows as u64
        && size <= MAX_ENTRIES as u64
}

/// Why the solver gave up.
pub(crate) fn refusal(alloc: Global, fault: SolveFault) -> Result<String, AllocError> {
    match fault {
        SolveFault::Width { row, column, .. } => format!(in alloc;
            "width row {row} column {column}"
        ),
        SolveFault::Scale { .. } => format!(in alloc; "scale"),
        SolveFault::Pivots { bases } => format!(in alloc; "pivots {bases}"),
        SolveFault::Size { rows, columns } => format!(in alloc; "size {rows} {columns}"),
        SolveFault::Memory => format!(in alloc; "memory"),
    }
}

/// What comes of the equations in the text, where `bases` bases are tried.
pub(crate) fn solved(alloc: Global, text: &str, bases: u64) -> Result<String, Fault> {
    let system = system_of(alloc, &mut text.split_whitespace())?;
    if !is_whole(&system) {
        return Err(Fault::Form);
    }
    let told = match solve(alloc, &system, bases) {
        Ok(
            Answer::Solution {
                values: _values,
                scale,
            },
        ) => format!(in alloc; "solution over {scale}"),
        Ok(Answer::Barrier { y: _y }) => format!(in alloc; "barrier"),
        Err(fault) => refusal(alloc, fault),
    };
    Ok(told?)
}
