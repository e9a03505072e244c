// Areas from which every path is to come to the end, cut to where that may be.

use crate::areas::area::{Area, both, copy_of};
use crate::areas::cutting::push_apart;
use crate::areas::leaving::parts_staying;
use crate::areas::stages::Stages;
use crate::formulas::region_part::push_some_step;
use crate::limits::AREAS;
use crate::strategies::link::distinct_ways;
use std::alloc::AllocError;
use tv_linear::Row;
use tv_walks::{Effort, Question};

/// The parts of an area where a way can be taken.
fn parts_with_step(
    question: &Question,
    area: &Area,
    effort: &mut Effort,
) -> Result<Vec<Vec<Row>>, AllocError> {
    let columns = question.about.variables() as usize;
    let mut parts = Vec::new(question.alloc);
    for way in distinct_ways(question)? {
        if way.from == area.location
            && let Some(part) = both(question.alloc, columns, &area.rows, &way.guards, effort)?
        {
            parts.push(part)?;
        }
    }
    Ok(parts)
}

/// The parts of an area from which no step leads out of the areas.
fn parts_that_stay(
    question: &Question,
    area: &Area,
    areas: &[Area],
    effort: &mut Effort,
) -> Result<Vec<Vec<Row>>, AllocError> {
    match parts_staying(question, area, areas, effort)? {
        None => Ok(Vec::new(question.alloc)),
        Some(parts) => Ok(parts),
    }
}

/// The parts of an area where some step exists, if that is not everywhere, and else those from which no step leads out of the areas.
fn parts_of(
    question: &Question,
    area: &Area,
    areas: &[Area],
    effort: &mut Effort,
) -> Result<Vec<Vec<Row>>, AllocError> {
    let mut proofs = Vec::new(question.alloc);
    if push_some_step(question, area, effort, &mut proofs)? {
        parts_that_stay(question, area, areas, effort)
    } else {
        parts_with_step(question, area, effort)
    }
}

/// Puts the parts that lie inside none of the areas from a place on at the end, while there are not too many.
fn push_parts(
    question: &Question,
    location: u32,
    parts: Vec<Vec<Row>>,
    areas: &mut Vec<Area>,
    effort: &mut Effort,
) -> Result<(), AllocError> {
    for rows in parts {
        if areas.len() < AREAS {
            push_apart(question, location, rows, areas, effort)?;
        }
    }
    Ok(())
}

/// The stages, where the areas at these places are cut to where some step exists, or to where none leads out of the stages.
pub(crate) fn cut_at(
    question: &Question,
    stages: &Stages,
    places: &[usize],
    effort: &mut Effort,
) -> Result<Stages, AllocError> {
    let done = stages.done;
    let mut areas = Vec::new(question.alloc);
    for (place, area) in stages.areas.iter().enumerate() {
        if places.contains(&place) {
            let parts = parts_of(question, area, &stages.areas, effort)?;
            push_parts(question, area.location, parts, &mut areas, effort)?;
        } else {
            areas.push(copy_of(question.alloc, area)?)?;
        }
    }
    Ok(Stages { done, areas })
}
