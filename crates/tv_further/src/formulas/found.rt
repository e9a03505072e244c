// What a way to settle a fixpoint finds.

use crate::areas::ranks::Ranks;
use crate::areas::sides::Sides;
use crate::areas::stages::{Stages, push_copied};
use crate::formulas::region_part::{Part, piece_of};
use std::alloc::{AllocError, Global};
use tv_cert::{Mark, Marked, Node, Proof};
use tv_linear::Row;
use tv_shape::node_of;
use tv_walks::{Effort, Question};

/// Areas where a fixpoint holds, and what shows it.
#[derive(Drop)]
pub(crate) struct Found {
    /// The areas, those at the end first.
    pub stages: Stages,
    /// The ranks of each area; those at the end need none.
    pub ranks: Ranks,
    /// The proofs of the areas, in their order.
    pub proofs: Vec<Proof>,
}

/// What was found, and how many areas were lost.
#[derive(Drop)]
pub(crate) struct Ended {
    pub found: Found,
    pub lost: usize,
    /// Whether nothing else can show more: no area was lost, or cut where it may hold.
    pub is_whole: bool,
}

/// The one that lost fewer areas, or the first.
pub(crate) fn better(first: Option<Ended>, second: Option<Ended>) -> Option<Ended> {
    match (first, second) {
        (Some(first), Some(second)) => {
            if second.lost < first.lost {
                Some(second)
            } else {
                Some(first)
            }
        }
        (Some(first), None) => Some(first),
        (None, second) => second,
    }
}

/// The areas at the end alone, with `count` ranks for others; `None` where one of them is not shown to be at the end.
pub(crate) fn end_alone(
    question: &Question,
    sides: &Sides,
    count: u32,
    effort: &mut Effort,
) -> Result<Option<Found>, AllocError> {
    let mut proofs = Vec::new(question.alloc);
    for area in sides.end {
        if !sides.push_done(question, area, effort, &mut proofs)? {
            return Ok(None);
        }
    }
    let ranks = Ranks::new(question.alloc, sides.end.len(), count)?;
    let mut areas = Vec::new(question.alloc);
    push_copied(question.alloc, sides.end, &mut areas)?;
    let done = areas.len();
    Ok(Some(Found {
        stages: Stages { done, areas },
        ranks,
        proofs,
    }))
}

/// The ranks of the area at this place.
fn ranks_at(ranks: &Ranks, place: usize) -> &[Row] {
    match ranks.rows.get(place) {
        Some(rows) => rows,
        None => &[],
    }
}

/// The piece of the area at this place.
fn stage_piece(
    alloc: Global,
    columns: usize,
    found: &Found,
    place: usize,
) -> Result<Option<Marked>, AllocError> {
    let Some(area) = found.stages.areas.get(place) else {
        return Ok(None);
    };
    if place < found.stages.done {
        piece_of(alloc, columns, area, Mark::Done, &[])
    } else {
        let ranks = ranks_at(&found.ranks, place);
        piece_of(alloc, columns, area, Mark::Go, ranks)
    }
}

/// The pieces of the areas, with the ranks of those that go on.
fn pieces_of(
    alloc: Global,
    columns: usize,
    found: &Found,
) -> Result<Option<Vec<Marked>>, AllocError> {
    let mut pieces = Vec::new(alloc);
    for place in 0..found.stages.areas.len() {
        match stage_piece(alloc, columns, found, place)? {
            None => return Ok(None),
            Some(piece) => pieces.push(piece)?,
        }
    }
    Ok(Some(pieces))
}

/// The part of what was found, over the nodes of the arguments.
pub(crate) fn part_found(
    question: &Question,
    found: Found,
    children: Vec<Node>,
) -> Result<Option<Part>, AllocError> {
    let columns = question.about.variables() as usize;
    let Some(pieces) = pieces_of(question.alloc, columns, &found)? else {
        return Ok(None);
    };
    let Found {
        stages,
        ranks,
        proofs,
    } = found;
    let node = node_of(question.alloc, pieces, ranks.count, children, proofs)?;
    let areas = stages.areas;
    Ok(Some(Part { node, areas }))
}
