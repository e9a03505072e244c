//! Numbers and rows in the words of a text.

use std::alloc::{AllocError, AllocFailed, Global};
use std::str::SplitWhitespace;
use tv_linear::Row;

/// A text that is not of the form that is wanted, or no memory.
#[derive(Drop)]
pub(crate) enum Fault {
    Form,
    Memory,
}

impl From<AllocError> for Fault {
    fn from(_: AllocError) -> Fault {
        Fault::Memory
    }
}

impl<T: Drop> From<AllocFailed<T>> for Fault {
    fn from(_: AllocFailed<T>) -> Fault {
        Fault::Memory
    }
}

pub(crate) fn next_count(words: &mut SplitWhitespace<'_>) -> Result<u32, Fault> {
    match words.next() {
        Some(word) => word.parse::<u32>().map_err(|_| Fault::Form),
        None => Err(Fault::Form),
    }
}

pub(crate) fn next_number(words: &mut SplitWhitespace<'_>) -> Result<i128, Fault> {
    match words.next() {
        Some(word) => word.parse::<i128>().map_err(|_| Fault::Form),
        None => Err(Fault::Form),
    }
}

/// Puts `count` numbers at the end of the list.
pub(crate) fn push_numbers(
    numbers: &mut Vec<i128>,
    words: &mut SplitWhitespace<'_>,
    count: u32,
) -> Result<(), Fault> {
    for _ in 0..count {
        numbers.push(next_number(words)?)?;
    }
    Ok(())
}

/// The row of `columns` columns that comes next in the text: its coefficients and its constant.
pub(crate) fn next_row(
    alloc: Global,
    words: &mut SplitWhitespace<'_>,
    columns: u32,
) -> Result<Row, Fault> {
    let mut coefficients = Vec::new(alloc);
    push_numbers(&mut coefficients, words, columns)?;
    if coefficients.len() >= 4_000_000 {
        return Err(Fault::Form);
    }
    match Row::new(alloc, &coefficients, next_number(words)?)? {
        Some(row) => Ok(row),
        None => Err(Fault::Form),
    }
}

pub(crate) fn next_rows(
    alloc: Global,
    words: &mut SplitWhitespace<'_>,
    count: u32,
    columns: u32,
) -> Result<Vec<Row>, Fault> {
    let mut rows = Vec::new(alloc);
    for _ in 0..count {
        rows.push(next_row(alloc, words, columns)?)?;
    }
    Ok(rows)
}

/// The answer, where the text has the form that is wanted.
pub(crate) fn or_no_form(
    alloc: Global,
    answer: Result<String, Fault>,
) -> Result<String, AllocError> {
    match answer {
        Ok(answer) => Ok(answer),
        Err(Fault::Form) => format!(in alloc; "not of this form"),
        Err(Fault::Memory) => Err(AllocError),
    }
}
