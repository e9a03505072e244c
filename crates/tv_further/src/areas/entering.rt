// Ways to enter areas, with terms for the draws. Where each draw's coefficients are 1, 0 or -1, some list of terms does wherever some draws
// do: a draw is at one of its bounds.

use crate::areas::area::Area;
use crate::areas::passage::{rows_entered, width_of};
use crate::areas::shadow::shadow;
use crate::limits::DRAW_LISTS;
use std::alloc::{AllocError, Global};
use tv_cases::Case;
use tv_linear::{Row, copies};
use tv_walks::{MANY_DRAWS, Question, all_put_in, coefficient_at, number_row, put_in, unit_rows};

/// A way to take a case into an area.
#[derive(Drop)]
pub(crate) struct Entry {
    /// The number of the case.
    pub number: u32,
    /// A term for each draw.
    pub draws: Vec<Row>,
    /// The place of the area that is entered.
    pub to: usize,
    /// The guards, and then the rows of the area, over the variables before the step.
    pub rows: Vec<Row>,
}

/// The variables, and then the terms of draws.
fn inputs_of(alloc: Global, columns: usize, draws: &[Row]) -> Result<Option<Vec<Row>>, AllocError> {
    let Some(mut inputs) = unit_rows(alloc, columns)? else {
        return Ok(None);
    };
    let mut terms = copies(alloc, draws)?;
    inputs.append(&mut terms)?;
    Ok(Some(inputs))
}

/// The bounds of the next draw.
#[derive(Drop)]
struct Bounds {
    lower: Vec<Row>,
    upper: Vec<Row>,
}

/// Puts the bound that a row sets the next draw among the bounds.
fn push_bound(
    alloc: Global,
    columns: usize,
    row: &Row,
    inputs: &[Row],
    bounds: &mut Bounds,
) -> Result<(), AllocError> {
    let Some(rest) = put_in(alloc, columns, row, inputs)? else {
        return Ok(());
    };
    match coefficient_at(row, inputs.len()) {
        1 => bounds.upper.push(rest.opposite(alloc)?)?,
        -1 => bounds.lower.push(rest)?,
        _ => {}
    }
    Ok(())
}

/// The bounds that the rows set the next draw, where terms for the draws before it are put in.
fn bounds_of(
    alloc: Global,
    columns: usize,
    rows: &[Row],
    draws: &[Row],
) -> Result<Bounds, AllocError> {
    let mut bounds = Bounds {
        lower: Vec::new(alloc),
        upper: Vec::new(alloc),
    };
    if let Some(inputs) = inputs_of(alloc, columns, draws)? {
        for row in rows {
            push_bound(alloc, columns, row, &inputs, &mut bounds)?;
        }
    }
    Ok(bounds)
}

/// The terms that are tried for the next draw: its bounds on one side, or 0 where it has none.
fn terms_for(
    alloc: Global,
    columns: usize,
    rows: &[Row],
    draws: &[Row],
) -> Result<Vec<Row>, AllocError> {
    let Bounds { lower, upper } = bounds_of(alloc, columns, rows, draws)?;
    let are_lower = upper.is_empty() || lower.len() <= upper.len();
    if are_lower && !lower.is_empty() {
        return Ok(lower);
    }
    if !upper.is_empty() {
        return Ok(upper);
    }
    let mut terms = Vec::new(alloc);
    if let Some(zero) = number_row(alloc, columns, 0)? {
        terms.push(zero)?;
    }
    Ok(terms)
}

/// Each of the lists of terms with each term that is tried for the next draw.
fn longer_lists(
    alloc: Global,
    columns: usize,
    rows: &[Row],
    lists: &[Vec<Row>],
) -> Result<Vec<Vec<Row>>, AllocError> {
    let mut longer = Vec::new(alloc);
    for draws in lists {
        for term in terms_for(alloc, columns, rows, draws)? {
            if longer.len() < DRAW_LISTS {
                let mut list = copies(alloc, draws)?;
                list.push(term)?;
                longer.push(list)?;
            }
        }
    }
    Ok(longer)
}

/// The lists of terms for the draws of the case that are tried where these rows, over the variables and the draws, are asked for.
fn lists_of_terms(
    alloc: Global,
    columns: usize,
    case: &Case,
    asked: &[Row],
) -> Result<Vec<Vec<Row>>, AllocError> {
    let mut lists = Vec::new(alloc);
    if case.draws > MANY_DRAWS {
        return Ok(lists);
    }
    lists.push(Vec::new(alloc))?;
    let width = width_of(columns, case);
    for draw in columns..width {
        match shadow(alloc, draw + 1, width, asked)? {
            None => return Ok(Vec::new(alloc)),
            Some(rows) => lists = longer_lists(alloc, columns, &rows, &lists)?,
        }
    }
    Ok(lists)
}

/// The guards of a case and the rows of an area that it enters, over the variables before it and its draws.
fn rows_asked(
    alloc: Global,
    columns: usize,
    case: &Case,
    area: &Area,
) -> Result<Option<Vec<Row>>, AllocError> {
    let Some(mut entered) = rows_entered(alloc, columns, case, &area.rows)? else {
        return Ok(None);
    };
    let mut rows = copies(alloc, &case.guards.rows)?;
    rows.append(&mut entered)?;
    Ok(Some(rows))
}

/// Puts the ways to take the case into the area at this place at the end of the list.
fn push_entries(
    question: &Question,
    number: u32,
    case: &Case,
    areas: &[Area],
    to: usize,
    list: &mut Vec<Entry>,
) -> Result<(), AllocError> {
    let alloc = question.alloc;
    let columns = question.about.variables() as usize;
    let Some(area) = areas.get(to) else {
        return Ok(());
    };
    let Some(asked) = rows_asked(alloc, columns, case, area)? else {
        return Ok(());
    };
    for draws in lists_of_terms(alloc, columns, case, &asked)? {
        if let Some(inputs) = inputs_of(alloc, columns, &draws)?
            && let Some(rows) = all_put_in(alloc, columns, &asked, &inputs)?
        {
            list.push(Entry {
                number,
                draws,
                to,
                rows,
            })?;
        }
    }
    Ok(())
}

/// The ways to take the case into the areas at these places or later ones.
fn push_all_entries(
    question: &Question,
    number: u32,
    case: &Case,
    areas: &[Area],
    first: usize,
    list: &mut Vec<Entry>,
) -> Result<(), AllocError> {
    for (to, area) in areas.iter().enumerate() {
        if to >= first && area.location == case.to {
            push_entries(question, number, case, areas, to, list)?;
        }
    }
    Ok(())
}

/// The ways to enter the areas from the first place on by one step from the location.
pub(crate) fn entries_from(
    question: &Question,
    location: u32,
    areas: &[Area],
    first: usize,
) -> Result<Vec<Entry>, AllocError> {
    let mut list = Vec::new(question.alloc);
    let mut number: u32 = 0;
    for case in question.about.list() {
        if case.from == location {
            push_all_entries(question, number, case, areas, first, &mut list)?;
        }
        number = number.saturating_add(1);
    }
    Ok(list)
}
