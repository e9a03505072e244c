// Fixpoints that come to an end, layer by layer from what was found before: from each area of a layer one step leads into earlier ones.
// The first rank is the number of the layer, so it falls.

use crate::areas::area::Area;
use crate::areas::cutting::is_inside_any;
use crate::areas::sides::Sides;
use crate::areas::taking::push_choice;
use crate::formulas::found::Found;
use crate::formulas::layer_steps::{
    Candidate, candidates_any, candidates_every, push_falling_steps,
};
use crate::formulas::region_part::push_some_step;
use crate::limits::{AREAS, LAYERS};
use std::alloc::{AllocError, Global};
use tv_cases::is_number;
use tv_cert::Proof;
use tv_formula::Path;
use tv_linear::Row;
use tv_walks::{Effort, Question, number_row};

/// A layer while it is made.
#[derive(Drop)]
pub(crate) struct Layer {
    /// How many areas were found before it.
    pub earlier: usize,
    /// How many of them were found before the last layer.
    pub older: usize,
    /// The first rank of its areas.
    pub rank: i64,
}

/// The first rank of the area at this place, where it is a number: 0 of an area at the end.
pub(crate) fn first_rank(found: &Found, place: usize) -> Option<i64> {
    if place < found.stages.done {
        return Some(0);
    }
    let row = found.ranks.rows.get(place)?.first()?;
    if is_number(row) {
        i64::try_from(row.constant()).ok()
    } else {
        None
    }
}

/// The greatest first rank; `None` where one is no number.
fn greatest_rank(found: &Found) -> Option<i64> {
    let mut greatest: i64 = 0;
    for place in 0..found.stages.areas.len() {
        let rank = first_rank(found, place)?;
        if rank > greatest {
            greatest = rank;
        }
    }
    Some(greatest)
}

/// The ranks of an area of a layer: its number, and zeros.
fn layer_ranks(
    alloc: Global,
    columns: usize,
    rank: i64,
    count: u32,
) -> Result<Option<Vec<Row>>, AllocError> {
    let mut rows = Vec::new(alloc);
    for place in 0..count {
        let number = if place == 0 { rank } else { 0 };
        match number_row(alloc, columns, number)? {
            None => return Ok(None),
            Some(row) => rows.push(row)?,
        }
    }
    Ok(Some(rows))
}

/// The proofs that the candidate belongs to the layer; `None` where they were not found.
fn layer_proofs(
    question: &Question,
    sides: &Sides,
    found: &Found,
    layer: &Layer,
    candidate: &Candidate,
    effort: &mut Effort,
) -> Result<Option<Vec<Proof>>, AllocError> {
    let mut proofs = Vec::new(question.alloc);
    let area = &candidate.area;
    let shown = sides.push_hold(question, area, effort, &mut proofs)?
        && match &candidate.moves {
            Some(moves) => push_choice(question, area, moves, effort, &mut proofs)?,
            None => {
                push_some_step(question, area, effort, &mut proofs)?
                    && push_falling_steps(question, found, layer, area, effort, &mut proofs)?
            }
        };
    Ok(if shown { Some(proofs) } else { None })
}

/// Adds the candidate to what was found, unless it lies inside an area there, or it is not shown.
fn add_candidate(
    question: &Question,
    sides: &Sides,
    layer: &Layer,
    candidate: Candidate,
    found: &mut Found,
    effort: &mut Effort,
) -> Result<(), AllocError> {
    let columns = question.about.variables() as usize;
    let areas = &found.stages.areas;
    if areas.len() >= AREAS
        || is_inside_any(question.alloc, columns, &candidate.area, areas, effort)?
    {
        return Ok(());
    }
    match layer_proofs(question, sides, found, layer, &candidate, effort)? {
        None => Ok(()),
        Some(proofs) => push_found(question, layer, candidate.area, proofs, found),
    }
}

/// Puts the area of the layer, with its ranks and these proofs, at the end of what was found, unless a rank is too wide.
fn push_found(
    question: &Question,
    layer: &Layer,
    area: Area,
    mut proofs: Vec<Proof>,
    found: &mut Found,
) -> Result<(), AllocError> {
    let columns = question.about.variables() as usize;
    let ranks = layer_ranks(question.alloc, columns, layer.rank, found.ranks.count)?;
    if let Some(ranks) = ranks {
        found.proofs.append(&mut proofs)?;
        found.ranks.rows.push(ranks)?;
        found.stages.areas.push(area)?;
    }
    Ok(())
}

/// The candidates of a layer in an area of the hold side.
fn candidates_in(
    question: &Question,
    path: &Path,
    area: &Area,
    found: &Found,
    layer: &Layer,
    effort: &mut Effort,
) -> Result<Vec<Candidate>, AllocError> {
    match path {
        Path::Every => candidates_every(question, area, found, effort),
        Path::Any => candidates_any(question, area, found, layer, effort),
    }
}

/// Adds the areas of a layer to what was found.
fn add_layer(
    question: &Question,
    path: &Path,
    sides: &Sides,
    layer: &Layer,
    found: &mut Found,
    effort: &mut Effort,
) -> Result<(), AllocError> {
    for area in sides.hold {
        for candidate in candidates_in(question, path, area, found, layer, effort)? {
            add_candidate(question, sides, layer, candidate, found, effort)?;
        }
    }
    Ok(())
}

/// What was found of a fixpoint that comes to an end, and layers from there on, until none adds an area or there are many.
pub(crate) fn with_layers(
    question: &Question,
    path: &Path,
    sides: &Sides,
    found: Found,
    effort: &mut Effort,
) -> Result<Found, AllocError> {
    let mut found = found;
    let Some(mut rank) = greatest_rank(&found) else {
        return Ok(found);
    };
    let mut older = 0;
    for _ in 0..LAYERS {
        rank = rank.saturating_add(1);
        let earlier = found.stages.areas.len();
        let layer = Layer {
            earlier,
            older,
            rank,
        };
        add_layer(question, path, sides, &layer, &mut found, effort)?;
        if found.stages.areas.len() == earlier {
            break;
        }
        older = earlier;
    }
    Ok(found)
}
