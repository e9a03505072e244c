// How terms change over steps.

use crate::areas::passage::{Effect, Passage, widened_row};
use std::alloc::{AllocError, Global};
use tv_cases::is_number;
use tv_linear::Row;
use tv_walks::{Effort, Question, is_known, less, number_row, put_in};

/// How a term changes over a passage.
#[derive(Clone, Copy, PartialEq, Eq)]
pub(crate) enum Change {
    /// It may grow.
    Grows,
    /// It does not grow.
    Stays,
    /// It falls, from a value that is not below 0.
    Falls,
}

/// The row plus 1.
pub(crate) fn raised(alloc: Global, width: usize, row: &Row) -> Result<Option<Row>, AllocError> {
    match number_row(alloc, width, -1)? {
        None => Ok(None),
        Some(less_one) => less(alloc, width, row, &less_one),
    }
}

/// What a term after the step is more than another one before it; at most 0 where it does not grow.
pub(crate) fn growth(
    question: &Question,
    effect: &Effect,
    before: &Row,
    after: &Row,
) -> Result<Option<Row>, AllocError> {
    let alloc = question.alloc;
    let columns = question.about.variables() as usize;
    let Some(new) = put_in(alloc, effect.width, after, &effect.terms)? else {
        return Ok(None);
    };
    match widened_row(alloc, columns, effect.width, before)? {
        None => Ok(None),
        Some(old) => less(alloc, effect.width, &new, &old),
    }
}

/// The row that is met where the term is not below 0 before a step over `width` columns.
pub(crate) fn not_below(
    question: &Question,
    width: usize,
    term: &Row,
) -> Result<Option<Row>, AllocError> {
    let columns = question.about.variables() as usize;
    match widened_row(question.alloc, columns, width, term)? {
        None => Ok(None),
        Some(row) => Ok(Some(row.opposite(question.alloc)?)),
    }
}

/// Whether the row is shown where the passage is taken.
fn is_shown(
    question: &Question,
    passage: &Passage,
    row: Option<Row>,
    effort: &mut Effort,
) -> Result<bool, AllocError> {
    match row {
        None => Ok(false),
        Some(row) => is_known(
            question.alloc,
            &passage.rows,
            &row,
            passage.effect.width,
            effort,
        ),
    }
}

/// Whether the term is not below 0 where the passage is taken.
fn is_bounded(
    question: &Question,
    passage: &Passage,
    term: &Row,
    effort: &mut Effort,
) -> Result<bool, AllocError> {
    let bound = not_below(question, passage.effect.width, term)?;
    is_shown(question, passage, bound, effort)
}

/// How the term changes over the passage, where it falls from any value.
pub(crate) fn drift_over(
    question: &Question,
    passage: &Passage,
    term: &Row,
    effort: &mut Effort,
) -> Result<Change, AllocError> {
    match growth(question, &passage.effect, term, term)? {
        None => Ok(Change::Grows),
        Some(more) => drift_by(question, passage, more, effort),
    }
}

/// The same of a term that is so much more after the step.
fn drift_by(
    question: &Question,
    passage: &Passage,
    more: Row,
    effort: &mut Effort,
) -> Result<Change, AllocError> {
    let fallen = raised(question.alloc, passage.effect.width, &more)?;
    if is_shown(question, passage, fallen, effort)? {
        Ok(Change::Falls)
    } else if is_shown(question, passage, Some(more), effort)? {
        Ok(Change::Stays)
    } else {
        Ok(Change::Grows)
    }
}

/// How the term changes over the passage.
pub(crate) fn change_over(
    question: &Question,
    passage: &Passage,
    term: &Row,
    effort: &mut Effort,
) -> Result<Change, AllocError> {
    let drift = drift_over(question, passage, term, effort)?;
    if drift == Change::Falls && !is_bounded(question, passage, term, effort)? {
        return Ok(Change::Stays);
    }
    Ok(drift)
}

/// How the value of the row changes over the step, as far as that is the same everywhere.
pub(crate) fn steady_change(
    question: &Question,
    effect: &Effect,
    row: &Row,
) -> Result<Change, AllocError> {
    match growth(question, effect, row, row)? {
        Some(more) if is_number(&more) && more.constant() > 0 => Ok(Change::Grows),
        Some(more) if is_number(&more) && more.constant() < 0 => Ok(Change::Falls),
        _ => Ok(Change::Stays),
    }
}

/// Whether the value of the row is the same before the step and after it.
pub(crate) fn is_steady(
    question: &Question,
    effect: &Effect,
    row: &Row,
) -> Result<bool, AllocError> {
    match growth(question, effect, row, row)? {
        None => Ok(false),
        Some(more) => Ok(is_number(&more) && more.constant() == 0),
    }
}

/// The row that is met where the value of the term falls over the step; `None` where that is so everywhere, or nowhere.
pub(crate) fn falling_row(
    question: &Question,
    effect: &Effect,
    term: &Row,
) -> Result<Option<Row>, AllocError> {
    match growth(question, effect, term, term)? {
        Some(more) if !is_number(&more) => raised(question.alloc, effect.width, &more),
        _ => Ok(None),
    }
}
