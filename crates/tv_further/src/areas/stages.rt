// The areas of a fixpoint.

use crate::areas::area::{Area, copy_of, each_with_each, lists_at, outside, push_areas};
use crate::areas::sides::Sides;
use crate::limits::AREAS;
use std::alloc::{AllocError, Global};
use tv_linear::Row;
use tv_walks::{Effort, Question};

/// The pieces of a fixpoint: the first `done` are at the end, and the others go on.
#[derive(Drop)]
pub(crate) struct Stages {
    pub done: usize,
    pub areas: Vec<Area>,
}

/// Puts copies of the areas at the end of the list.
pub(crate) fn push_copied(
    alloc: Global,
    areas: &[Area],
    list: &mut Vec<Area>,
) -> Result<(), AllocError> {
    for area in areas {
        list.push(copy_of(alloc, area)?)?;
    }
    Ok(())
}

/// Lists of rows: one is met where the fixpoint may go on at the location and is not at the end; `None` where there are too many.
fn going_lists(
    question: &Question,
    sides: &Sides,
    location: u32,
    effort: &mut Effort,
) -> Result<Option<Vec<Vec<Row>>>, AllocError> {
    let alloc = question.alloc;
    let columns = question.about.variables() as usize;
    let ends = lists_at(alloc, sides.end, location)?;
    let Some(others) = outside(alloc, columns, &ends, effort)? else {
        return Ok(None);
    };
    let holds = lists_at(alloc, sides.hold, location)?;
    each_with_each(alloc, columns, &holds, &others, effort)
}

/// The areas at the end, and those that hold outside of them; `None` where there are too many.
pub(crate) fn stages_of(
    question: &Question,
    sides: &Sides,
    effort: &mut Effort,
) -> Result<Option<Stages>, AllocError> {
    let mut areas = Vec::new(question.alloc);
    push_copied(question.alloc, sides.end, &mut areas)?;
    let done = areas.len();
    for location in 0..question.about.locations() {
        match going_lists(question, sides, location, effort)? {
            None => return Ok(None),
            Some(lists) => push_areas(&mut areas, location, lists)?,
        }
    }
    Ok(if areas.len() > AREAS {
        None
    } else {
        Some(Stages { done, areas })
    })
}

/// The stages without those at the places, which go on; `None` where there is none to leave out.
pub(crate) fn without(
    alloc: Global,
    stages: &Stages,
    places: &[usize],
) -> Result<Option<Stages>, AllocError> {
    let mut areas = Vec::new(alloc);
    for (place, area) in stages.areas.iter().enumerate() {
        if place < stages.done || !places.contains(&place) {
            areas.push(copy_of(alloc, area)?)?;
        }
    }
    let done = stages.done;
    if areas.len() < stages.areas.len() {
        Ok(Some(Stages { done, areas }))
    } else {
        Ok(None)
    }
}
