// Multipliers at the piece of a single state: for each variable `x` with the value `k` it has the rows `x - k` and `-x + k`.

use crate::cycles::way::term_of;
use crate::rows::drawing::coefficient_at;
use std::alloc::{AllocError, Global};
use tv_cases::Case;
use tv_linear::Row;

/// What is added to the number of a row at a variable: the row's coefficient, or the same with its sign turned.
#[derive(Clone, Copy)]
pub(crate) enum Sign {
    Same,
    Turned,
}

/// The known rows at a state: two for each of `variables` variables, and then `guards` guards.
#[derive(Clone, Copy)]
pub(crate) struct Known {
    pub variables: usize,
    pub guards: usize,
}

/// The two multipliers that add up to a coefficient.
fn pair_of(coefficient: i64, sign: Sign) -> (i64, i64) {
    let size = coefficient.saturating_abs();
    match (coefficient > 0, sign) {
        (true, Sign::Same) => (size, 0),
        (true, Sign::Turned) => (0, size),
        (false, Sign::Same) => (0, size),
        (false, Sign::Turned) => (size, 0),
    }
}

/// The multipliers of the state's rows that add up to the coefficients of the row.
fn multipliers_of(
    alloc: Global,
    variables: usize,
    row: &Row,
    sign: Sign,
) -> Result<Vec<i64>, AllocError> {
    let mut multipliers = Vec::new(alloc);
    for variable in 0..variables {
        let (first, second) = pair_of(coefficient_at(row, variable), sign);
        multipliers.push(first)?;
        multipliers.push(second)?;
    }
    Ok(multipliers)
}

/// Puts `count` zeros at the end of the list.
fn push_zeros(list: &mut Vec<i64>, count: usize) -> Result<(), AllocError> {
    for _ in 0..count {
        list.push(0)?;
    }
    Ok(())
}

/// The line that shows a row, or the same with its signs turned, which the state meets.
pub(crate) fn line_of(
    alloc: Global,
    known: Known,
    row: &Row,
    sign: Sign,
) -> Result<Vec<i64>, AllocError> {
    let mut line = multipliers_of(alloc, known.variables, row, sign)?;
    push_zeros(&mut line, known.guards)?;
    line.push(1)?;
    Ok(line)
}

/// The line that shows a row without variables where there are `known` known rows.
pub(crate) fn plain_line(alloc: Global, known: usize) -> Result<Vec<i64>, AllocError> {
    let mut line = Vec::new(alloc);
    push_zeros(&mut line, known)?;
    line.push(1)?;
    Ok(line)
}

/// The multipliers that refute the known rows by a guard at this place that the state does not meet.
pub(crate) fn refuting_line(
    alloc: Global,
    known: Known,
    guard: &Row,
    place: usize,
) -> Result<Vec<i64>, AllocError> {
    let mut line = multipliers_of(alloc, known.variables, guard, Sign::Turned)?;
    for other in 0..known.guards {
        line.push(if other == place { 1 } else { 0 })?;
    }
    Ok(line)
}

/// The multiplier of a variable's own rows.
fn own_line(
    alloc: Global,
    known: Known,
    variable: usize,
    sign: Sign,
) -> Result<Vec<i64>, AllocError> {
    let mut line = Vec::new(alloc);
    for other in 0..known.variables {
        let (first, second) = pair_of(if other == variable { 1 } else { 0 }, sign);
        line.push(first)?;
        line.push(second)?;
    }
    push_zeros(&mut line, known.guards)?;
    line.push(1)?;
    Ok(line)
}

/// The line of a row of the next state at a variable.
fn next_line(
    alloc: Global,
    known: Known,
    case: &Case,
    variable: usize,
    sign: Sign,
) -> Result<Vec<i64>, AllocError> {
    match term_of(case, variable) {
        Some(term) => line_of(alloc, known, term, sign),
        None => own_line(alloc, known, variable, sign),
    }
}

/// Puts the lines of the rows of the state itself at the end of the list.
pub(crate) fn push_own_lines(
    alloc: Global,
    known: Known,
    lines: &mut Vec<Vec<i64>>,
) -> Result<(), AllocError> {
    for variable in 0..known.variables {
        lines.push(own_line(alloc, known, variable, Sign::Same)?)?;
        lines.push(own_line(alloc, known, variable, Sign::Turned)?)?;
    }
    Ok(())
}

/// Puts the lines of the rows of the state after the case at the end of the list.
pub(crate) fn push_next_lines(
    alloc: Global,
    known: Known,
    case: &Case,
    lines: &mut Vec<Vec<i64>>,
) -> Result<(), AllocError> {
    for variable in 0..known.variables {
        lines.push(next_line(alloc, known, case, variable, Sign::Same)?)?;
        lines.push(next_line(alloc, known, case, variable, Sign::Turned)?)?;
    }
    Ok(())
}
