// Lists of rows, one of which is met.

use crate::budget::Spending;
use crate::covers::all_stand_in;
use crate::effect::Steps;
use crate::limits::LISTS;
use crate::strongest::push_all_strongest;
use std::alloc::{AllocError, Global};
use tv_linear::{Row, copies};
use tv_walks::{denied, may_have_point};

/// The rows of both lists, tightened, the strongest of those with the same coefficients; `None` where no point meets them all.
pub(crate) fn both(
    steps: &Steps,
    first: &[Row],
    second: &[Row],
    spending: &mut Spending,
) -> Result<Option<Vec<Row>>, AllocError> {
    let alloc = steps.alloc;
    let mut rows = Vec::new(alloc);
    if push_all_strongest(alloc, first, &mut rows)?
        && push_all_strongest(alloc, second, &mut rows)?
        && may_have_point(alloc, &rows, steps.columns, &mut spending.effort)?
    {
        Ok(Some(rows))
    } else {
        Ok(None)
    }
}

/// One list without rows where it is true, and none else.
pub(crate) fn truth_lists(alloc: Global, truth: bool) -> Result<Vec<Vec<Row>>, AllocError> {
    let mut lists = Vec::new(alloc);
    if truth {
        lists.push(Vec::new(alloc))?;
    }
    Ok(lists)
}

/// Puts the rows at the end of the lists, unless they lie inside of one of them.
fn push_apart(rows: Vec<Row>, lists: &mut Vec<Vec<Row>>) -> Result<(), AllocError> {
    if !lists.iter().any(|list| all_stand_in(&rows, list)) {
        lists.push(rows)?;
    }
    Ok(())
}

/// Puts the list with each of the others at the end of the lists, where some point meets both.
fn push_with_each(
    steps: &Steps,
    list: &[Row],
    others: &[Vec<Row>],
    spending: &mut Spending,
    lists: &mut Vec<Vec<Row>>,
) -> Result<(), AllocError> {
    for other in others {
        if lists.len() <= LISTS
            && let Some(rows) = both(steps, list, other, spending)?
        {
            push_apart(rows, lists)?;
        }
    }
    Ok(())
}

/// Each list of the first with each of the second; `None` where there are too many.
pub(crate) fn each_with_each(
    steps: &Steps,
    first: &[Vec<Row>],
    second: &[Vec<Row>],
    spending: &mut Spending,
) -> Result<Option<Vec<Vec<Row>>>, AllocError> {
    let mut lists = Vec::new(steps.alloc);
    for list in first {
        push_with_each(steps, list, second, spending, &mut lists)?;
    }
    Ok(if lists.len() > LISTS {
        None
    } else {
        Some(lists)
    })
}

/// The denials of the rows, each as a list of its own; `None` where one is too wide.
fn denials(alloc: Global, rows: &[Row]) -> Result<Option<Vec<Vec<Row>>>, AllocError> {
    let mut lists = Vec::new(alloc);
    for row in rows {
        match denied(alloc, row)? {
            None => return Ok(None),
            Some(denial) => {
                let mut list = Vec::new(alloc);
                list.push(denial)?;
                lists.push(list)?;
            }
        }
    }
    Ok(Some(lists))
}

/// Puts the list at the end of the lists where no point meets the rows too, and else its parts where one of the rows is denied; whether no
/// row is too wide.
fn push_cut(
    steps: &Steps,
    list: &[Row],
    rows: &[Row],
    spending: &mut Spending,
    lists: &mut Vec<Vec<Row>>,
) -> Result<bool, AllocError> {
    if both(steps, list, rows, spending)?.is_none() {
        push_apart(copies(steps.alloc, list)?, lists)?;
        return Ok(true);
    }
    match denials(steps.alloc, rows)? {
        None => Ok(false),
        Some(others) => {
            push_with_each(steps, list, &others, spending, lists)?;
            Ok(true)
        }
    }
}

/// The parts of the lists where the rows are not all met; `None` where there are too many, or a row is too wide.
fn cut_by(
    steps: &Steps,
    lists: &[Vec<Row>],
    rows: &[Row],
    spending: &mut Spending,
) -> Result<Option<Vec<Vec<Row>>>, AllocError> {
    let mut parts = Vec::new(steps.alloc);
    for list in lists {
        if !push_cut(steps, list, rows, spending, &mut parts)? || parts.len() > LISTS {
            return Ok(None);
        }
    }
    Ok(Some(parts))
}

/// Lists one of which is met where none of these is met whole; `None` where there are too many, or a row is too wide.
pub(crate) fn outside(
    steps: &Steps,
    lists: &[Vec<Row>],
    spending: &mut Spending,
) -> Result<Option<Vec<Vec<Row>>>, AllocError> {
    let mut parts = truth_lists(steps.alloc, true)?;
    for rows in lists {
        match cut_by(steps, &parts, rows, spending)? {
            None => return Ok(None),
            Some(next) => parts = next,
        }
    }
    Ok(Some(parts))
}
