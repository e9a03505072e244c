// Formulas that are all to hold, or where one is to hold.

use crate::areas::area::{Area, each_with_each, lists_at, push_areas};
use crate::areas::stages::push_copied;
use crate::formulas::region_part::{Part, Shown, plain_part, push_into};
use std::alloc::{AllocError, Global};
use tv_cert::{Node, Proof};
use tv_linear::Row;
use tv_walks::{Effort, Question};

/// The nodes of the parts.
fn nodes_of(alloc: Global, parts: Vec<Part>) -> Result<Vec<Node>, AllocError> {
    let mut nodes = Vec::new(alloc);
    for part in parts {
        let Part { node, areas: _ } = part;
        nodes.push(node)?;
    }
    Ok(nodes)
}

/// The lists of rows at the location where all of the parts hold; `None` where there are too many.
fn common_lists(
    question: &Question,
    parts: &[Part],
    location: u32,
    effort: &mut Effort,
) -> Result<Option<Vec<Vec<Row>>>, AllocError> {
    let mut lists = Vec::new(question.alloc);
    lists.push(Vec::new(question.alloc))?;
    for part in parts {
        match lists_with(question, &lists, part, location, effort)? {
            None => return Ok(None),
            Some(next) => lists = next,
        }
    }
    Ok(Some(lists))
}

/// Each of the lists with each of the part at the location; `None` where there are too many.
fn lists_with(
    question: &Question,
    lists: &[Vec<Row>],
    part: &Part,
    location: u32,
    effort: &mut Effort,
) -> Result<Option<Vec<Vec<Row>>>, AllocError> {
    let columns = question.about.variables() as usize;
    let more = lists_at(question.alloc, &part.areas, location)?;
    each_with_each(question.alloc, columns, lists, &more, effort)
}

/// The part of formulas that are all to hold.
pub(crate) fn each_of(
    question: &Question,
    parts: Vec<Part>,
    effort: &mut Effort,
) -> Result<Option<Part>, AllocError> {
    let Some(areas) = common_areas(question, &parts, effort)? else {
        return Ok(None);
    };
    match each_proofs(question, &areas, &parts, effort)? {
        None => Ok(None),
        Some(proofs) => part_over(question, parts, Shown { areas, proofs }),
    }
}

/// The areas where all of the parts hold; `None` where there are too many.
fn common_areas(
    question: &Question,
    parts: &[Part],
    effort: &mut Effort,
) -> Result<Option<Vec<Area>>, AllocError> {
    let mut areas = Vec::new(question.alloc);
    for location in 0..question.about.locations() {
        match common_lists(question, parts, location, effort)? {
            None => return Ok(None),
            Some(lists) => push_areas(&mut areas, location, lists)?,
        }
    }
    Ok(Some(areas))
}

/// The covers of each of the areas by each of the parts; `None` where one was not found.
fn each_proofs(
    question: &Question,
    areas: &[Area],
    parts: &[Part],
    effort: &mut Effort,
) -> Result<Option<Vec<Proof>>, AllocError> {
    let mut proofs = Vec::new(question.alloc);
    for area in areas {
        if !push_each(question, area, parts, effort, &mut proofs)? {
            return Ok(None);
        }
    }
    Ok(Some(proofs))
}

/// Puts the covers of the area by each of the parts at the end of the list.
fn push_each(
    question: &Question,
    area: &Area,
    parts: &[Part],
    effort: &mut Effort,
    proofs: &mut Vec<Proof>,
) -> Result<bool, AllocError> {
    for part in parts {
        if !push_into(question, area, &part.areas, effort, proofs)? {
            return Ok(false);
        }
    }
    Ok(true)
}

/// The part of formulas where one is to hold.
pub(crate) fn one_of(
    question: &Question,
    parts: Vec<Part>,
    effort: &mut Effort,
) -> Result<Option<Part>, AllocError> {
    let areas = all_areas(question.alloc, &parts)?;
    match proofs_into(question, &areas, effort)? {
        None => Ok(None),
        Some(proofs) => part_over(question, parts, Shown { areas, proofs }),
    }
}

/// The areas of all parts, in their order.
fn all_areas(alloc: Global, parts: &[Part]) -> Result<Vec<Area>, AllocError> {
    let mut areas = Vec::new(alloc);
    for part in parts {
        push_copied(alloc, &part.areas, &mut areas)?;
    }
    Ok(areas)
}

/// A cover of each of the areas by all of them; `None` where one was not found.
fn proofs_into(
    question: &Question,
    areas: &[Area],
    effort: &mut Effort,
) -> Result<Option<Vec<Proof>>, AllocError> {
    let mut proofs = Vec::new(question.alloc);
    for area in areas {
        if !push_into(question, area, areas, effort, &mut proofs)? {
            return Ok(None);
        }
    }
    Ok(Some(proofs))
}

/// The part of these areas over the nodes of the parts.
fn part_over(
    question: &Question,
    parts: Vec<Part>,
    shown: Shown,
) -> Result<Option<Part>, AllocError> {
    let Shown { areas, proofs } = shown;
    let children = nodes_of(question.alloc, parts)?;
    plain_part(question, areas, children, proofs)
}
