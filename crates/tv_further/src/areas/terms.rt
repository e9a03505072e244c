// The terms that are tried as ranks: those that rows keep from falling below 0.

use crate::areas::area::Area;
use crate::limits::RANK_TERMS;
use std::alloc::{AllocError, Global};
use tv_cases::is_number;
use tv_linear::Row;
use tv_walks::{Question, is_without_draws, less, number_row};

/// Puts the opposite of the row at the end of the terms, unless it is among them.
fn push_term(
    alloc: Global,
    columns: usize,
    row: &Row,
    terms: &mut Vec<Row>,
) -> Result<(), AllocError> {
    if let Some(term) = opposite_of(alloc, columns, row)?
        && !is_number(&term)
    {
        add_term(terms, term)?;
    }
    Ok(())
}

/// The opposite of the row over `columns` columns; `None` where it is too wide.
fn opposite_of(alloc: Global, columns: usize, row: &Row) -> Result<Option<Row>, AllocError> {
    match number_row(alloc, columns, 0)? {
        None => Ok(None),
        Some(zero) => less(alloc, columns, &zero, row),
    }
}

/// Adds the term, unless there are too many. Of two that differ in the constant alone the greater is kept, which is the later below 0.
fn add_term(terms: &mut Vec<Row>, term: Row) -> Result<(), AllocError> {
    let same = terms
        .iter()
        .position(|other| other.coefficients() == term.coefficients());
    if let Some(place) = same
        && let Some(other) = terms.get_mut(place)
    {
        if other.constant() < term.constant() {
            *other = term;
        }
        return Ok(());
    }
    if terms.len() < RANK_TERMS {
        terms.push(term)?;
    }
    Ok(())
}

/// Puts the opposites of the rows that speak of the variables alone at the end of the terms.
pub(crate) fn push_terms(
    alloc: Global,
    columns: usize,
    rows: &[Row],
    terms: &mut Vec<Row>,
) -> Result<(), AllocError> {
    for row in rows {
        if is_without_draws(row, columns) {
            push_term(alloc, columns, row, terms)?;
        }
    }
    Ok(())
}

/// The terms that are tried as ranks.
pub(crate) fn terms_of(question: &Question, areas: &[Area]) -> Result<Vec<Row>, AllocError> {
    let columns = question.about.variables() as usize;
    let mut terms = Vec::new(question.alloc);
    for case in question.about.list() {
        push_terms(question.alloc, columns, &case.guards.rows, &mut terms)?;
    }
    for area in areas {
        push_terms(question.alloc, columns, &area.rows, &mut terms)?;
    }
    Ok(terms)
}
