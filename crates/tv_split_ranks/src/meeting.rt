// Lists of rows where formulas hold that speak of one state, or say that no step is possible, and where they are denied.

use crate::area::Area;
use crate::budget::Spending;
use crate::effect::Steps;
use crate::goal::is_constant;
use crate::guards::stops_at;
use crate::limits::LISTS;
use crate::lists::{each_with_each, outside, truth_lists};
use std::alloc::{AllocError, Global};
use tv_cert::Aim;
use tv_formula::Path;
use tv_linear::{Row, copies};

/// Copies of the lists.
fn copies_of(alloc: Global, lists: &[Vec<Row>]) -> Result<Vec<Vec<Row>>, AllocError> {
    let mut list = Vec::new(alloc);
    for rows in lists {
        list.push(copies(alloc, rows)?)?;
    }
    Ok(list)
}

/// Lists one of which is met where a formula of these lists holds, or where it is denied.
fn plain_lists(
    steps: &Steps,
    lists: &[Vec<Row>],
    holds: bool,
    spending: &mut Spending,
) -> Result<Option<Vec<Vec<Row>>>, AllocError> {
    if holds {
        Ok(Some(copies_of(steps.alloc, lists)?))
    } else {
        outside(steps, lists, spending)
    }
}

/// The same of the formula that no step is possible. Where one may be possible, that is the whole location, which is looked at closer later.
fn stopping_lists(
    steps: &Steps,
    location: u32,
    holds: bool,
    spending: &mut Spending,
) -> Result<Option<Vec<Vec<Row>>>, AllocError> {
    if holds {
        stops_at(steps, location, spending)
    } else {
        Ok(Some(truth_lists(steps.alloc, true)?))
    }
}

/// Lists one of which is met where each of the formulas holds at the location, or where each is denied.
#[cycle(meeting)]
fn common_lists(
    steps: &Steps,
    parts: &[Aim],
    location: u32,
    holds: bool,
    spending: &mut Spending,
) -> Result<Option<Vec<Vec<Row>>>, AllocError> {
    let mut lists = truth_lists(steps.alloc, true)?;
    for part in parts {
        let Some(more) = lists_where(steps, part, location, holds, spending)? else {
            return Ok(None);
        };
        match each_with_each(steps, &lists, &more, spending)? {
            None => return Ok(None),
            Some(next) => lists = next,
        }
    }
    Ok(Some(lists))
}

/// Lists one of which is met where one of the formulas holds at the location, or where one is denied.
#[cycle(meeting)]
fn joined_lists(
    steps: &Steps,
    parts: &[Aim],
    location: u32,
    holds: bool,
    spending: &mut Spending,
) -> Result<Option<Vec<Vec<Row>>>, AllocError> {
    let mut lists = Vec::new(steps.alloc);
    for part in parts {
        match lists_where(steps, part, location, holds, spending)? {
            None => return Ok(None),
            Some(mut more) => lists.append(&mut more)?,
        }
        if lists.len() > LISTS {
            return Ok(None);
        }
    }
    Ok(Some(lists))
}

/// Lists one of which is met where the formula holds at the location, or where it is denied; `None` where there are too many, or the formula
/// speaks of more than one state.
#[cycle(meeting)]
pub(crate) fn lists_where(
    steps: &Steps,
    aim: &Aim,
    location: u32,
    holds: bool,
    spending: &mut Spending,
) -> Result<Option<Vec<Vec<Row>>>, AllocError> {
    match aim {
        Aim::Rows(lists) => plain_lists(steps, lists, holds, spending),
        Aim::Here(own) => Ok(Some(truth_lists(steps.alloc, (*own == location) == holds)?)),
        Aim::Elsewhere(own) => { Ok(Some(truth_lists(steps.alloc, (*own != location) == holds)?)) }
        Aim::EachOf(parts) => {
            if holds {
                common_lists(steps, parts, location, holds, spending)
            } else {
                joined_lists(steps, parts, location, holds, spending)
            }
        }
        Aim::OneOf(parts) => {
            if holds {
                joined_lists(steps, parts, location, holds, spending)
            } else {
                common_lists(steps, parts, location, holds, spending)
            }
        }
        Aim::After(Path::Every, inner) => {
            if is_constant(inner, false) {
                stopping_lists(steps, location, holds, spending)
            } else {
                Ok(None)
            }
        }
        _ => Ok(None),
    }
}

/// The areas where the formula holds, or where it is denied, location by location; `None` as with `lists_where`.
pub(crate) fn areas_where(
    steps: &Steps,
    aim: &Aim,
    holds: bool,
    spending: &mut Spending,
) -> Result<Option<Vec<Area>>, AllocError> {
    let mut areas = Vec::new(steps.alloc);
    for location in 0..steps.locations {
        let Some(lists) = lists_where(steps, aim, location, holds, spending)? else {
            return Ok(None);
        };
        for rows in lists {
            areas.push(Area { location, rows })?;
        }
    }
    Ok(Some(areas))
}
