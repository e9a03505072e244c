// The certificate of a partition whose ranks are all found.

use crate::area::{Area, number_among, push_areas};
use crate::budget::Spending;
use crate::choosing::some_step;
use crate::covers::{cover_of, push_same, targets_at};
use crate::effect::Steps;
use crate::goal::Goal;
use crate::nodes::node_over;
use crate::parting::with_steps;
use crate::partition::Partition;
use crate::place::Place;
use crate::regions::{Region, region_where};
use crate::stepping::{Shown, piece_number};
use std::alloc::{AllocError, Global};
use tv_cert::{Aim, Mark, Marked, Node, Proof, Verdict};
use tv_shape::node_of;
use tv_walks::Attempt;

/// The areas of the places.
fn areas_of(alloc: Global, places: &[Place]) -> Result<Vec<Area>, AllocError> {
    let mut areas = Vec::new(alloc);
    for place in places {
        if !place.is_out {
            areas.push(place.area(alloc)?)?;
        }
    }
    Ok(areas)
}

/// Puts the pieces of the places at the end of the list; whether each row fits.
fn push_pieces(
    steps: &Steps,
    places: &[Place],
    pieces: &mut Vec<Marked>,
) -> Result<bool, AllocError> {
    for place in places {
        if !place.is_out {
            let area = place.area(steps.alloc)?;
            match area.piece(steps.alloc, steps.columns, Mark::Go, &place.ranks)? {
                None => return Ok(false),
                Some(piece) => pieces.push(piece)?,
            }
        }
    }
    Ok(true)
}

/// Puts the pieces of the areas at the end of a fixpoint at the end of the list; whether each row fits.
fn push_done_pieces(
    steps: &Steps,
    areas: &[Area],
    pieces: &mut Vec<Marked>,
) -> Result<bool, AllocError> {
    for area in areas {
        match area.piece(steps.alloc, steps.columns, Mark::Done, &[])? {
            None => return Ok(false),
            Some(piece) => pieces.push(piece)?,
        }
    }
    Ok(true)
}

/// The pieces of the areas at the end, and then those of the places; `None` where a row does not fit.
fn pieces_of(shown: &Shown) -> Result<Option<Vec<Marked>>, AllocError> {
    let mut pieces = Vec::new(shown.steps.alloc);
    if push_done_pieces(shown.steps, shown.done, &mut pieces)?
        && push_pieces(shown.steps, &shown.partition.places, &mut pieces)?
    {
        Ok(Some(pieces))
    } else {
        Ok(None)
    }
}

/// The proofs of the steps from all places; `None` where one was not found.
fn ending_proofs(shown: &Shown, spending: &mut Spending) -> Result<Option<Vec<Proof>>, AllocError> {
    let mut proofs = Vec::new(shown.steps.alloc);
    for (at, place) in shown.partition.places.iter().enumerate() {
        if !place.is_out && !shown.push_steps(at, spending, &mut proofs)? {
            return Ok(None);
        }
    }
    Ok(Some(proofs))
}

/// Puts the proofs that the areas are at the end at the end of the list; whether all were found.
fn push_ends(
    steps: &Steps,
    areas: &[Area],
    spending: &mut Spending,
    proofs: &mut Vec<Proof>,
) -> Result<bool, AllocError> {
    for (at, area) in areas.iter().enumerate() {
        let number = number_among(areas, at);
        if !push_same(steps.alloc, steps.columns, area, number, spending, proofs)? {
            return Ok(false);
        }
    }
    Ok(true)
}

/// Puts the proofs that a run may stay at the place at this place, and that a step is possible there, at the end of the list; whether both
/// were found.
fn push_going(
    shown: &Shown,
    at: usize,
    place: &Place,
    spending: &mut Spending,
    proofs: &mut Vec<Proof>,
) -> Result<bool, AllocError> {
    let steps = shown.steps;
    let area = place.area(steps.alloc)?;
    let number = piece_number(&shown.partition.places, at);
    if !push_same(steps.alloc, steps.columns, &area, number, spending, proofs)? {
        return Ok(false);
    }
    match some_step(steps, place, spending)? {
        None => Ok(false),
        Some(choice) => {
            proofs.push(Proof::Chosen(choice))?;
            Ok(true)
        }
    }
}

/// The proofs that each run from the places comes to the end; `None` where one was not found.
fn coming_proofs(shown: &Shown, spending: &mut Spending) -> Result<Option<Vec<Proof>>, AllocError> {
    let mut proofs = Vec::new(shown.steps.alloc);
    if !push_ends(shown.steps, shown.done, spending, &mut proofs)? {
        return Ok(None);
    }
    for (at, place) in shown.partition.places.iter().enumerate() {
        if !place.is_out
            && (!push_going(shown, at, place, spending, &mut proofs)?
                || !shown.push_steps(at, spending, &mut proofs)?)
        {
            return Ok(None);
        }
    }
    Ok(Some(proofs))
}

/// The region of these pieces and proofs; `None` where a row does not fit.
fn region_shown(
    shown: &Shown,
    children: Vec<Node>,
    proofs: Vec<Proof>,
) -> Result<Option<Region>, AllocError> {
    let alloc = shown.steps.alloc;
    let Some(pieces) = pieces_of(shown)? else {
        return Ok(None);
    };
    let mut areas = areas_of(alloc, &shown.partition.places)?;
    let mut all = Vec::new(alloc);
    push_areas(alloc, shown.done, &mut all)?;
    all.append(&mut areas)?;
    let node = node_of(alloc, pieces, shown.partition.ranks, children, proofs)?;
    Ok(Some(Region { areas: all, node }))
}

/// The region that says that every run from the places ends; `None` where a proof was not found.
fn ending_region(
    steps: &Steps,
    partition: &Partition,
    spending: &mut Spending,
) -> Result<Option<Region>, AllocError> {
    let shown = Shown {
        steps,
        partition,
        done: &[],
    };
    match ending_proofs(&shown, spending)? {
        None => Ok(None),
        Some(proofs) => region_shown(&shown, Vec::new(steps.alloc), proofs),
    }
}

/// The nodes of the arguments: of the first, which is true, with the places as pieces, and that of the second.
fn children_of(
    shown: &Shown,
    first: &Aim,
    second: Node,
    spending: &mut Spending,
) -> Result<Option<Vec<Node>>, AllocError> {
    let areas = areas_of(shown.steps.alloc, &shown.partition.places)?;
    match node_over(shown.steps, first, &areas, &mut None, spending)? {
        None => Ok(None),
        Some(first) => {
            let mut children = Vec::new(shown.steps.alloc);
            children.push(first)?;
            children.push(second)?;
            Ok(Some(children))
        }
    }
}

/// The region that says that every run from the places comes to where the second formula holds; `None` where a proof was not found.
fn coming_region(
    steps: &Steps,
    partition: &Partition,
    first: &Aim,
    second: &Aim,
    spending: &mut Spending,
) -> Result<Option<Region>, AllocError> {
    let Some(Region { areas, node }) = region_where(steps, second, spending)? else {
        return Ok(None);
    };
    let shown = Shown {
        steps,
        partition,
        done: &areas,
    };
    let Some(children) = children_of(&shown, first, node, spending)? else {
        return Ok(None);
    };
    match coming_proofs(&shown, spending)? {
        None => Ok(None),
        Some(proofs) => region_shown(&shown, children, proofs),
    }
}

/// The region of the goal; `None` where a proof was not found.
fn region_by(
    steps: &Steps,
    goal: Goal,
    partition: Partition,
    spending: &mut Spending,
) -> Result<Option<Region>, AllocError> {
    match goal {
        Goal::Ends => ending_region(steps, &partition, spending),
        Goal::Comes { first, second } => match with_steps(steps, partition, spending)? {
            None => Ok(None),
            Some(partition) => coming_region(steps, &partition, first, second, spending),
        },
    }
}

/// The parts of a certificate of the formula, whose goal this is, by a partition whose ranks are all found; `None` where a proof was not found.
pub(crate) fn attempt_by(
    steps: &Steps,
    aim: &Aim,
    goal: Goal,
    partition: Partition,
    spending: &mut Spending,
) -> Result<Option<Attempt>, AllocError> {
    let Some(Region { areas, node }) = region_by(steps, goal, partition, spending)? else {
        return Ok(None);
    };
    let Some(root) = node_over(steps, aim, &areas, &mut Some(node), spending)? else {
        return Ok(None);
    };
    let targets = targets_at(steps.alloc, &areas, steps.start)?;
    let rows = Vec::new(steps.alloc);
    match cover_of(steps.alloc, steps.columns, rows, &targets, spending)? {
        None => Ok(None),
        Some(cover) => {
            let verdict = Verdict::Proved(cover);
            Ok(Some(Attempt { verdict, root }))
        }
    }
}
