// Lists of rows cut by others, and which lie inside which.

use crate::areas::area::{Area, both, denials, list_of, lists_at};
use crate::limits::AREAS;
use std::alloc::{AllocError, Global};
use tv_cases::is_number;
use tv_linear::{Row, copies};
use tv_walks::{Effort, Question, denied, shown};

/// The place of the row with the same coefficients.
fn place_of(rows: &[Row], row: &Row) -> Option<usize> {
    for (place, other) in rows.iter().enumerate() {
        if other.coefficients() == row.coefficients() {
            return Some(place);
        }
    }
    None
}

/// Whether a row of the list with the same coefficients asks for at least as much.
fn is_asked(rows: &[Row], row: &Row) -> bool {
    match place_of(rows, row).and_then(|place| rows.get(place)) {
        None => false,
        Some(other) => other.constant() >= row.constant(),
    }
}

/// Puts a tightened row into the list. Each row of the list has other coefficients.
fn put_strongest(row: Row, list: &mut Vec<Row>) -> Result<(), AllocError> {
    match place_of(list, &row) {
        None => list.push(row)?,
        Some(place) => {
            if let Some(other) = list.get_mut(place)
                && other.constant() < row.constant()
            {
                *other = row;
            }
        }
    }
    Ok(())
}

/// Puts the rows, tightened, into the list, the strongest alone of those with the same coefficients; whether some point may meet each.
pub(crate) fn push_strongest(
    alloc: Global,
    rows: &[Row],
    list: &mut Vec<Row>,
) -> Result<bool, AllocError> {
    for row in rows {
        let tight = row.tighten(alloc)?;
        if !is_number(&tight) {
            put_strongest(tight, list)?;
        } else if tight.constant() > 0 {
            return Ok(false);
        }
    }
    Ok(true)
}

/// Puts the parts of the list in which a row is not met at the end of the lists; whether no row is too wide.
fn push_outside(
    alloc: Global,
    columns: usize,
    list: &[Row],
    rows: &[Row],
    effort: &mut Effort,
    lists: &mut Vec<Vec<Row>>,
) -> Result<bool, AllocError> {
    let Some(parts) = denials(alloc, rows)? else {
        return Ok(false);
    };
    for (row, denial) in rows.iter().zip(&parts) {
        if !is_asked(list, row)
            && let Some(part) = both(alloc, columns, list, denial, effort)?
        {
            lists.push(part)?;
        }
    }
    Ok(true)
}

/// The parts of the lists where the rows are not all met; `None` where there are too many.
pub(crate) fn cut_by(
    alloc: Global,
    columns: usize,
    lists: &[Vec<Row>],
    rows: &[Row],
    effort: &mut Effort,
) -> Result<Option<Vec<Vec<Row>>>, AllocError> {
    let mut parts = Vec::new(alloc);
    for list in lists {
        if !push_cut(alloc, columns, list, rows, effort, &mut parts)? || parts.len() > AREAS {
            return Ok(None);
        }
    }
    Ok(Some(parts))
}

/// Puts the list at the end of the lists where it meets the rows nowhere, and else its parts where they are not all met; whether no row is
/// too wide.
fn push_cut(
    alloc: Global,
    columns: usize,
    list: &[Row],
    rows: &[Row],
    effort: &mut Effort,
    lists: &mut Vec<Vec<Row>>,
) -> Result<bool, AllocError> {
    match both(alloc, columns, list, rows, effort)? {
        Some(_) => push_outside(alloc, columns, list, rows, effort, lists),
        None => {
            lists.push(copies(alloc, list)?)?;
            Ok(true)
        }
    }
}

/// The parts of what the rows meet that lie outside of each of the lists; `None` where there are too many.
pub(crate) fn cut_by_all(
    alloc: Global,
    columns: usize,
    rows: &[Row],
    lists: &[Vec<Row>],
    effort: &mut Effort,
) -> Result<Option<Vec<Vec<Row>>>, AllocError> {
    let mut parts = Vec::new(alloc);
    parts.push(copies(alloc, rows)?)?;
    for list in lists {
        match cut_by(alloc, columns, &parts, list, effort)? {
            None => return Ok(None),
            Some(next) => parts = next,
        }
    }
    Ok(Some(parts))
}

/// The parts of an area outside of others; `None` where there are too many.
pub(crate) fn parts_outside(
    question: &Question,
    area: &Area,
    others: &[Area],
    effort: &mut Effort,
) -> Result<Option<Vec<Vec<Row>>>, AllocError> {
    let columns = question.about.variables() as usize;
    let inner = lists_at(question.alloc, others, area.location)?;
    cut_by_all(question.alloc, columns, &area.rows, &inner, effort)
}

/// Whether the first rows are shown to ask for at least as much as the second.
fn is_inside(
    alloc: Global,
    columns: usize,
    inner: &[Row],
    outer: &[Row],
    effort: &mut Effort,
) -> Result<bool, AllocError> {
    for row in outer {
        if !is_asked(inner, row) && shown(alloc, inner, row, columns, effort)?.is_none() {
            return Ok(false);
        }
    }
    Ok(true)
}

/// Whether the rows at the location lie inside one of the areas.
pub(crate) fn is_inside_any(
    alloc: Global,
    columns: usize,
    area: &Area,
    areas: &[Area],
    effort: &mut Effort,
) -> Result<bool, AllocError> {
    for other in areas {
        if other.location == area.location
            && is_inside(alloc, columns, &area.rows, &other.rows, effort)?
        {
            return Ok(true);
        }
    }
    Ok(false)
}

/// Puts the area of these rows at the location at the end of the areas, unless it lies inside one of them.
pub(crate) fn push_apart(
    question: &Question,
    location: u32,
    rows: Vec<Row>,
    areas: &mut Vec<Area>,
    effort: &mut Effort,
) -> Result<(), AllocError> {
    let columns = question.about.variables() as usize;
    let area = Area { location, rows };
    if !is_inside_any(question.alloc, columns, &area, areas, effort)? {
        areas.push(area)?;
    }
    Ok(())
}

/// The rows of the part of an area where one more row is met; `None` where it is empty.
fn rows_with(
    question: &Question,
    area: &Area,
    row: Row,
    effort: &mut Effort,
) -> Result<Option<Vec<Row>>, AllocError> {
    let columns = question.about.variables() as usize;
    let more = list_of(question.alloc, row)?;
    both(question.alloc, columns, &area.rows, &more, effort)
}

/// The two parts of an area, where the row is met and where it is not; `None` where one of them is empty.
pub(crate) fn halves_of(
    question: &Question,
    area: &Area,
    row: &Row,
    effort: &mut Effort,
) -> Result<Option<(Vec<Row>, Vec<Row>)>, AllocError> {
    let Some(denial) = denied(question.alloc, row)? else {
        return Ok(None);
    };
    let Some(met) = rows_with(question, area, row.copy(question.alloc)?, effort)? else {
        return Ok(None);
    };
    match rows_with(question, area, denial, effort)? {
        None => Ok(None),
        Some(other) => Ok(Some((met, other))),
    }
}
