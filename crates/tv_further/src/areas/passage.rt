use crate::areas::area::Area;
use std::alloc::{AllocError, Global};
use tv_cases::Case;
use tv_linear::{Row, push_copies};
use tv_walks::{Effort, Question, all_put_in, may_have_point, put_in, term_of, unit_row};

/// What a step makes of the variables: the term of each after it, over `width` columns. The first columns are the variables before it.
#[derive(Drop)]
pub(crate) struct Effect {
    pub width: usize,
    pub terms: Vec<Row>,
}

/// The effect of a case, over the variables and its draws.
pub(crate) fn effect_of(alloc: Global, columns: usize, case: &Case) -> Result<Effect, AllocError> {
    let width = width_of(columns, case);
    let terms = case_terms(alloc, columns, case)?;
    Ok(Effect { width, terms })
}

/// A case that may be taken from one area into another.
#[derive(Drop)]
pub(crate) struct Passage {
    /// The place of the area that is left.
    pub from: usize,
    /// The number of the case.
    pub number: usize,
    /// What the case, or one way to take it, makes of the variables.
    pub effect: Effect,
    /// The place of the area that is entered.
    pub to: usize,
    /// What is met where it is taken: the rows of the area that is left, the guards, and the rows of the area that is entered.
    pub rows: Vec<Row>,
    /// The component of the ranks that falls, from 1; 0 while none does.
    pub fall: u32,
}

/// How many columns the rows of a case have.
pub(crate) fn width_of(columns: usize, case: &Case) -> usize {
    columns.saturating_add(case.draws as usize)
}

/// The terms of the variables before any step, over `width` columns.
fn kept_terms(alloc: Global, columns: usize, width: usize) -> Result<Vec<Row>, AllocError> {
    let mut terms = Vec::new(alloc);
    for column in 0..columns {
        if let Some(row) = unit_row(alloc, width, column)? {
            terms.push(row)?;
        }
    }
    Ok(terms)
}

/// The term of a variable after the case, over `width` columns; `None` where there are too many.
fn case_term(
    alloc: Global,
    width: usize,
    case: &Case,
    variable: usize,
) -> Result<Option<Row>, AllocError> {
    match term_of(case, variable) {
        Some(term) => Ok(Some(term.copy(alloc)?)),
        None => unit_row(alloc, width, variable),
    }
}

/// The terms of the variables after the case, over the variables and its draws.
pub(crate) fn case_terms(
    alloc: Global,
    columns: usize,
    case: &Case,
) -> Result<Vec<Row>, AllocError> {
    let width = width_of(columns, case);
    let mut terms = Vec::new(alloc);
    for variable in 0..columns {
        if let Some(term) = case_term(alloc, width, case, variable)? {
            terms.push(term)?;
        }
    }
    Ok(terms)
}

/// The row read before any step, over `width` columns. The first columns are the variables.
pub(crate) fn widened_row(
    alloc: Global,
    columns: usize,
    width: usize,
    row: &Row,
) -> Result<Option<Row>, AllocError> {
    let kept = kept_terms(alloc, columns, width)?;
    put_in(alloc, width, row, &kept)
}

/// The rows of an area that is left by a case, and then its guards.
pub(crate) fn rows_left(
    alloc: Global,
    columns: usize,
    case: &Case,
    rows: &[Row],
) -> Result<Option<Vec<Row>>, AllocError> {
    let width = width_of(columns, case);
    let kept = kept_terms(alloc, columns, width)?;
    let Some(mut all) = all_put_in(alloc, width, rows, &kept)? else {
        return Ok(None);
    };
    push_copies(alloc, &case.guards.rows, &mut all)?;
    Ok(Some(all))
}

/// The rows of an area that is entered by a case, read before it.
pub(crate) fn rows_entered(
    alloc: Global,
    columns: usize,
    case: &Case,
    rows: &[Row],
) -> Result<Option<Vec<Row>>, AllocError> {
    let terms = case_terms(alloc, columns, case)?;
    all_put_in(alloc, width_of(columns, case), rows, &terms)
}

/// The rows that are met where the case is taken from the one area into the other.
pub(crate) fn rows_between(
    alloc: Global,
    columns: usize,
    case: &Case,
    from: &Area,
    to: &Area,
) -> Result<Option<Vec<Row>>, AllocError> {
    let Some(mut rows) = rows_left(alloc, columns, case, &from.rows)? else {
        return Ok(None);
    };
    let Some(mut entered) = rows_entered(alloc, columns, case, &to.rows)? else {
        return Ok(None);
    };
    rows.append(&mut entered)?;
    Ok(Some(rows))
}

/// The rows of the passage by the case from the one area into the other; `None` where it is never taken, or a row is too wide.
fn passage_rows(
    question: &Question,
    case: &Case,
    from: &Area,
    to: &Area,
    effort: &mut Effort,
) -> Result<Option<Vec<Row>>, AllocError> {
    let columns = question.about.variables() as usize;
    let Some(rows) = rows_between(question.alloc, columns, case, from, to)? else {
        return Ok(None);
    };
    if may_have_point(question.alloc, &rows, width_of(columns, case), effort)? {
        Ok(Some(rows))
    } else {
        Ok(None)
    }
}

/// Puts the passages by the case from the area at this place at the end of the list.
fn push_passages(
    question: &Question,
    areas: &[Area],
    from: usize,
    number: usize,
    effort: &mut Effort,
    list: &mut Vec<Passage>,
) -> Result<(), AllocError> {
    let (Some(case), Some(left)) = (question.about.list().get(number), areas.get(from)) else {
        return Ok(());
    };
    let columns = question.about.variables() as usize;
    if left.location != case.from || effort.left == 0 {
        return Ok(());
    }
    for (to, area) in areas.iter().enumerate() {
        if area.location == case.to
            && let Some(rows) = passage_rows(question, case, left, area, effort)?
        {
            let fall = 0;
            let effect = effect_of(question.alloc, columns, case)?;
            list.push(Passage {
                from,
                number,
                effect,
                to,
                rows,
                fall,
            })?;
        }
    }
    Ok(())
}

/// The passages between the areas.
pub(crate) fn passages(
    question: &Question,
    areas: &[Area],
    effort: &mut Effort,
) -> Result<Vec<Passage>, AllocError> {
    let mut list = Vec::new(question.alloc);
    for from in 0..areas.len() {
        for number in 0..question.about.list().len() {
            push_passages(question, areas, from, number, effort, &mut list)?;
        }
    }
    Ok(list)
}
