// The areas of a layer, and the steps from it.

use crate::areas::area::{Area, both, place_among};
use crate::areas::covers::Target;
use crate::areas::cutting::parts_outside;
use crate::areas::entering::{Entry, entries_from};
use crate::areas::leaving::parts_staying;
use crate::areas::passage::{rows_entered, width_of};
use crate::areas::taking::{Move, Taken};
use crate::formulas::found::Found;
use crate::formulas::layers::{Layer, first_rank};
use crate::formulas::region_part::{live_parts, push_cover, step_cover};
use std::alloc::{AllocError, Global};
use tv_cases::Case;
use tv_cert::Proof;
use tv_linear::{Row, copies};
use tv_walks::{Effort, Question, number_row};

/// An area that may belong to a layer.
#[derive(Drop)]
pub(crate) struct Candidate {
    pub area: Area,
    /// Over any path, the moves into earlier areas.
    pub moves: Option<Vec<Move>>,
}

/// Puts the rows of the fall from a layer to the area at this place at the end of the list, none where it is at the end. Gives the number of
/// the fall; `None` where it has none.
fn push_layer_fall(
    alloc: Global,
    width: usize,
    found: &Found,
    layer: &Layer,
    place: usize,
    rows: &mut Vec<Row>,
) -> Result<Option<u32>, AllocError> {
    if place < found.stages.done {
        return Ok(Some(0));
    }
    let Some(rank) = first_rank(found, place) else {
        return Ok(None);
    };
    let more = rank.saturating_sub(layer.rank).saturating_add(1);
    for number in [more, 0_i64.saturating_sub(layer.rank)] {
        match number_row(alloc, width, number)? {
            None => return Ok(None),
            Some(row) => rows.push(row)?,
        }
    }
    Ok(Some(1))
}

/// The area at this place as a target of a step by the case from a layer.
fn layer_target(
    question: &Question,
    found: &Found,
    layer: &Layer,
    case: &Case,
    place: usize,
) -> Result<Option<Target>, AllocError> {
    let alloc = question.alloc;
    let columns = question.about.variables() as usize;
    let areas = &found.stages.areas;
    let Some(area) = areas.get(place) else {
        return Ok(None);
    };
    let Some(mut rows) = rows_entered(alloc, columns, case, &area.rows)? else {
        return Ok(None);
    };
    let width = width_of(columns, case);
    match push_layer_fall(alloc, width, found, layer, place, &mut rows)? {
        None => Ok(None),
        Some(fall) => Ok(Some(Target {
            rows,
            target: place_among(areas, place),
            fall,
        })),
    }
}

/// The earlier areas where the case leads, as targets.
fn layer_targets(
    question: &Question,
    found: &Found,
    layer: &Layer,
    case: &Case,
) -> Result<Vec<Target>, AllocError> {
    let mut targets = Vec::new(question.alloc);
    for (place, area) in found.stages.areas.iter().enumerate() {
        if place < layer.earlier
            && area.location == case.to
            && let Some(target) = layer_target(question, found, layer, case, place)?
        {
            targets.push(target)?;
        }
    }
    Ok(targets)
}

/// Puts the covers of all steps from an area of a layer into earlier ones at the end of the list.
pub(crate) fn push_falling_steps(
    question: &Question,
    found: &Found,
    layer: &Layer,
    area: &Area,
    effort: &mut Effort,
    proofs: &mut Vec<Proof>,
) -> Result<bool, AllocError> {
    for case in question.about.list() {
        if case.from == area.location {
            let targets = layer_targets(question, found, layer, case)?;
            let cover = step_cover(question, area, case, &targets, effort)?;
            if !push_cover(proofs, cover)? {
                return Ok(false);
            }
        }
    }
    Ok(true)
}

/// The parts of the area outside of what was found; the area itself where there are too many.
fn parts_left(
    question: &Question,
    area: &Area,
    found: &Found,
    effort: &mut Effort,
) -> Result<Vec<Vec<Row>>, AllocError> {
    match parts_outside(question, area, &found.stages.areas, effort)? {
        Some(parts) => Ok(parts),
        None => {
            let mut parts = Vec::new(question.alloc);
            parts.push(copies(question.alloc, &area.rows)?)?;
            Ok(parts)
        }
    }
}

/// Puts the parts of the area from which every step leads into what was found at the end of the list.
fn push_candidates(
    question: &Question,
    area: &Area,
    found: &Found,
    effort: &mut Effort,
    list: &mut Vec<Candidate>,
) -> Result<(), AllocError> {
    if let Some(parts) = parts_staying(question, area, &found.stages.areas, effort)? {
        for rows in parts {
            let location = area.location;
            let area = Area { location, rows };
            list.push(Candidate { area, moves: None })?;
        }
    }
    Ok(())
}

/// The parts of the area outside of what was found from which there is a step, and every step leads into what was found.
pub(crate) fn candidates_every(
    question: &Question,
    area: &Area,
    found: &Found,
    effort: &mut Effort,
) -> Result<Vec<Candidate>, AllocError> {
    let mut list = Vec::new(question.alloc);
    for rows in parts_left(question, area, found, effort)? {
        let location = area.location;
        let part = Area { location, rows };
        for live in live_parts(question, &part, effort)? {
            push_candidates(question, &live, found, effort, &mut list)?;
        }
    }
    Ok(list)
}

/// The move by which an area of a layer enters an earlier one.
fn move_of(
    question: &Question,
    found: &Found,
    layer: &Layer,
    entry: Entry,
) -> Result<Option<Move>, AllocError> {
    let columns = question.about.variables() as usize;
    let Entry {
        number,
        draws,
        to,
        rows,
    } = entry;
    let mut rows = rows;
    match push_layer_fall(question.alloc, columns, found, layer, to, &mut rows)? {
        None => Ok(None),
        Some(fall) => {
            let target = place_among(&found.stages.areas, to);
            let taken = Some(Taken {
                number,
                draws,
                target,
                fall,
            });
            Ok(Some(Move { rows, taken }))
        }
    }
}

/// The parts of the area from which some step leads into the last layer.
pub(crate) fn candidates_any(
    question: &Question,
    area: &Area,
    found: &Found,
    layer: &Layer,
    effort: &mut Effort,
) -> Result<Vec<Candidate>, AllocError> {
    let mut list = Vec::new(question.alloc);
    for entry in entries_from(question, area.location, &found.stages.areas, layer.older)? {
        if entry.to < layer.earlier
            && let Some(candidate) = candidate_by(question, area, found, layer, entry, effort)?
        {
            list.push(candidate)?;
        }
    }
    Ok(list)
}

/// The part of the area from which an earlier one can be entered in this way; `None` where there is none.
fn candidate_by(
    question: &Question,
    area: &Area,
    found: &Found,
    layer: &Layer,
    entry: Entry,
    effort: &mut Effort,
) -> Result<Option<Candidate>, AllocError> {
    let columns = question.about.variables() as usize;
    let Some(rows) = both(question.alloc, columns, &area.rows, &entry.rows, effort)? else {
        return Ok(None);
    };
    let location = area.location;
    let area = Area { location, rows };
    match move_of(question, found, layer, entry)? {
        None => Ok(None),
        Some(made) => {
            let mut moves = Vec::new(question.alloc);
            moves.push(made)?;
            let moves = Some(moves);
            Ok(Some(Candidate { area, moves }))
        }
    }
}
