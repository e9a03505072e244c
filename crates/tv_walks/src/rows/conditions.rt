// What a walk has to keep to, so that what a formula asks for on the way holds.

use crate::limits::CONDITIONS;
use std::alloc::{AllocError, Global};
use tv_cert::Aim;
use tv_formula::{Path, Shape};
use tv_linear::{Row, copies, joined};

/// Each list of the first with each of the second.
fn each_with_each(
    alloc: Global,
    first: &[Vec<Row>],
    second: &[Vec<Row>],
) -> Result<Vec<Vec<Row>>, AllocError> {
    let mut lists = Vec::new(alloc);
    for left in first {
        for right in second {
            if lists.len() < CONDITIONS {
                lists.push(joined(alloc, left, right)?)?;
            }
        }
    }
    Ok(lists)
}

/// One list without rows where it is true, and none else.
fn lists_where(alloc: Global, holds: bool) -> Result<Vec<Vec<Row>>, AllocError> {
    let mut lists = Vec::new(alloc);
    if holds {
        lists.push(Vec::new(alloc))?;
    }
    Ok(lists)
}

/// Copies of the lists.
fn lists_copied(alloc: Global, lists: &[Vec<Row>]) -> Result<Vec<Vec<Row>>, AllocError> {
    let mut all = Vec::new(alloc);
    for rows in lists {
        all.push(copies(alloc, rows)?)?;
    }
    Ok(all)
}

/// Lists of rows: one of the lists is met where the formula holds at the location, as far as this can be seen from values.
#[cycle(conditions)]
pub(crate) fn conditions_at(
    alloc: Global,
    aim: &Aim,
    location: u32,
) -> Result<Vec<Vec<Row>>, AllocError> {
    match aim {
        Aim::Rows(lists) => lists_copied(alloc, lists),
        Aim::Here(own) => lists_where(alloc, *own == location),
        Aim::Elsewhere(own) => lists_where(alloc, *own != location),
        Aim::EachOf(parts) => all_conditions_at(alloc, parts, location),
        Aim::OneOf(parts) => any_conditions_at(alloc, parts, location),
        _ => lists_where(alloc, true),
    }
}

/// The same where all of the formulas hold.
#[cycle(conditions)]
fn all_conditions_at(
    alloc: Global,
    aims: &[Aim],
    location: u32,
) -> Result<Vec<Vec<Row>>, AllocError> {
    let mut lists = lists_where(alloc, true)?;
    for aim in aims {
        let more = conditions_at(alloc, aim, location)?;
        lists = each_with_each(alloc, &lists, &more)?;
    }
    Ok(lists)
}

/// The same where one of the formulas holds.
#[cycle(conditions)]
fn any_conditions_at(
    alloc: Global,
    aims: &[Aim],
    location: u32,
) -> Result<Vec<Vec<Row>>, AllocError> {
    let mut lists = Vec::new(alloc);
    for aim in aims {
        let mut more = conditions_at(alloc, aim, location)?;
        lists.append(&mut more)?;
    }
    Ok(lists)
}

/// Puts what some run has to keep to for ever, where the formula asks for one, at the end of the list: nothing where it is to never end.
#[cycle(kept)]
pub(crate) fn push_kept<'a>(
    aim: &'a Aim,
    list: &mut Vec<Option<&'a Aim>>,
) -> Result<(), AllocError> {
    match aim {
        Aim::NeverEnds => {
            list.push(None)?;
            Ok(())
        }
        Aim::EachOf(parts) | Aim::OneOf(parts) => push_all_kept(parts, list),
        Aim::After(Path::Any, inner) => push_kept(inner, list),
        Aim::Along(Path::Any, shape, first, second) => {
            match shape {
                Shape::Weak => list.push(Some(first))?,
                Shape::Release => list.push(Some(second))?,
                Shape::Until | Shape::Strong => {}
            }
            push_kept(first, list)?;
            push_kept(second, list)
        }
        _ => Ok(()),
    }
}

/// The same of each of the formulas.
#[cycle(kept)]
fn push_all_kept<'a>(aims: &'a [Aim], list: &mut Vec<Option<&'a Aim>>) -> Result<(), AllocError> {
    for aim in aims {
        push_kept(aim, list)?;
    }
    Ok(())
}
