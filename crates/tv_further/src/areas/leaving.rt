// Where a step may lead out of some areas.

use crate::areas::area::Area;
use crate::areas::cutting::{cut_by, cut_by_all};
use crate::areas::passage::{rows_entered, rows_left, width_of};
use crate::areas::shadow::shadow;
use std::alloc::AllocError;
use tv_cases::Case;
use tv_linear::Row;
use tv_walks::{Effort, Question, may_have_point};

/// The steps by the case from the area, as one list of rows; `None` where a row is too wide.
fn all_steps(
    question: &Question,
    area: &Area,
    case: &Case,
) -> Result<Option<Vec<Vec<Row>>>, AllocError> {
    let columns = question.about.variables() as usize;
    let Some(rows) = rows_left(question.alloc, columns, case, &area.rows)? else {
        return Ok(None);
    };
    let mut lists = Vec::new(question.alloc);
    lists.push(rows)?;
    Ok(Some(lists))
}

/// The parts of the steps by the case that do not lead into the area; `None` where there are too many.
fn steps_past(
    question: &Question,
    case: &Case,
    steps: &[Vec<Row>],
    entered: &Area,
    effort: &mut Effort,
) -> Result<Option<Vec<Vec<Row>>>, AllocError> {
    let alloc = question.alloc;
    let columns = question.about.variables() as usize;
    match rows_entered(alloc, columns, case, &entered.rows)? {
        None => Ok(None),
        Some(rows) => cut_by(alloc, width_of(columns, case), steps, &rows, effort),
    }
}

/// The parts of the steps by the case from the area that lead into none of the areas; `None` where there are too many.
fn steps_out(
    question: &Question,
    area: &Area,
    case: &Case,
    areas: &[Area],
    effort: &mut Effort,
) -> Result<Option<Vec<Vec<Row>>>, AllocError> {
    let Some(mut steps) = all_steps(question, area, case)? else {
        return Ok(None);
    };
    for entered in areas {
        if entered.location == case.to {
            match steps_past(question, case, &steps, entered, effort)? {
                None => return Ok(None),
                Some(fewer) => steps = fewer,
            }
        }
    }
    Ok(Some(steps))
}

/// Puts what the steps have before them, whatever is drawn, at the end of the lists.
fn push_shadows(
    question: &Question,
    case: &Case,
    steps: &[Vec<Row>],
    effort: &mut Effort,
    lists: &mut Vec<Vec<Row>>,
) -> Result<(), AllocError> {
    let alloc = question.alloc;
    let columns = question.about.variables() as usize;
    for rows in steps {
        if let Some(list) = shadow(alloc, columns, width_of(columns, case), rows)?
            && may_have_point(alloc, &list, columns, effort)?
        {
            lists.push(list)?;
        }
    }
    Ok(())
}

/// Lists of rows: one is met wherever a step from the area may lead into none of the areas; `None` where there are too many.
pub(crate) fn lists_leaving(
    question: &Question,
    area: &Area,
    areas: &[Area],
    effort: &mut Effort,
) -> Result<Option<Vec<Vec<Row>>>, AllocError> {
    let mut lists = Vec::new(question.alloc);
    for case in question.about.list() {
        if case.from == area.location {
            match steps_out(question, area, case, areas, effort)? {
                None => return Ok(None),
                Some(steps) => push_shadows(question, case, &steps, effort, &mut lists)?,
            }
        }
    }
    Ok(Some(lists))
}

/// The parts of an area from which no step leads out of the areas; `None` where there are too many.
pub(crate) fn parts_staying(
    question: &Question,
    area: &Area,
    areas: &[Area],
    effort: &mut Effort,
) -> Result<Option<Vec<Vec<Row>>>, AllocError> {
    let columns = question.about.variables() as usize;
    match lists_leaving(question, area, areas, effort)? {
        None => Ok(None),
        Some(lists) => cut_by_all(question.alloc, columns, &area.rows, &lists, effort),
    }
}
