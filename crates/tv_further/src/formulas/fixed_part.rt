// Fixpoints: the first of the ways that finds something is taken, and what it finds grows by rounds.

use crate::areas::sides::{Sides, common_areas};
use crate::formulas::cycles_within::with_cycles;
use crate::formulas::found::{Ended, Found, better, end_alone, part_found};
use crate::formulas::kept::{Seeking, Staying, with_kept};
use crate::formulas::layers::with_layers;
use crate::formulas::region_part::Part;
use crate::formulas::stopping_rows::areas_asked;
use crate::formulas::until_by_ranks::until_by_ranks;
use crate::limits::CUTS;
use crate::strategies::strategy::any_until_by_strategy;
use std::alloc::{AllocError, Global};
use tv_cert::Node;
use tv_formula::{Path, Shape};
use tv_walks::{Effort, Question};

/// What a strategy finds of until over some path; where it loses areas, what ranks over every step find, if that is more.
fn any_until(
    question: &Question,
    path: &Path,
    sides: &Sides,
    effort: &mut Effort,
) -> Result<Option<Ended>, AllocError> {
    let chosen = any_until_by_strategy(question, sides, effort)?;
    if let Some(ended) = &chosen
        && ended.lost == 0
    {
        return Ok(chosen);
    }
    let ranked = until_by_ranks(question, path, sides, effort)?;
    Ok(better(chosen, ranked))
}

/// What a way finds of a fixpoint that comes to the end.
fn first_ending(
    question: &Question,
    path: &Path,
    sides: &Sides,
    effort: &mut Effort,
) -> Result<Option<Ended>, AllocError> {
    match path {
        Path::Every => until_by_ranks(question, path, sides, effort),
        Path::Any => any_until(question, path, sides, effort),
    }
}

/// What the ways find of a fixpoint that comes to the end: at least the end, and layers from there on where areas may be missing.
fn ending(
    question: &Question,
    path: &Path,
    sides: &Sides,
    effort: &mut Effort,
) -> Result<Option<Found>, AllocError> {
    let (found, is_whole) = match first_ending(question, path, sides, effort)? {
        Some(ended) => (Some(ended.found), ended.is_whole),
        None => (end_alone(question, sides, 1, effort)?, false),
    };
    match found {
        Some(found) if !is_whole => {
            let found = with_layers(question, path, sides, found, effort)?;
            Ok(Some(found))
        }
        found => Ok(found),
    }
}

/// What a way finds of a fixpoint that may go on for ever, to which areas are added: at least the end.
fn first_keeping(
    question: &Question,
    path: &Path,
    sides: &Sides,
    effort: &mut Effort,
) -> Result<Option<Found>, AllocError> {
    let Some(found) = end_alone(question, sides, 0, effort)? else {
        return Ok(None);
    };
    match path {
        Path::Every => Ok(Some(found)),
        Path::Any => Ok(Some(with_cycles(question, sides, found, effort)?)),
    }
}

/// What was found of runs that may go on for ever, and areas of the hold side that stay: first with cuts, and then from whole areas.
pub(crate) fn with_hold(
    question: &Question,
    staying: Staying,
    sides: &Sides,
    found: Found,
    effort: &mut Effort,
) -> Result<Found, AllocError> {
    let mut found = found;
    for rounds in [CUTS, 0] {
        let areas = sides.hold;
        let seeking = Seeking {
            staying,
            areas,
            rounds,
        };
        found = with_kept(question, sides, &seeking, found, effort)?;
    }
    Ok(found)
}

/// The same over every path where rows of the hold side are lost in turns that must stop before.
fn with_stops(
    question: &Question,
    sides: &Sides,
    found: Found,
    effort: &mut Effort,
) -> Result<Found, AllocError> {
    match areas_asked(question, sides.hold, &found.stages.areas, effort)? {
        None => Ok(found),
        Some(areas) => {
            let seeking = Seeking {
                staying: Staying::Every,
                areas: &areas,
                rounds: CUTS,
            };
            with_kept(question, sides, &seeking, found, effort)
        }
    }
}

/// What the ways find of a fixpoint that may go on for ever.
fn keeping(
    question: &Question,
    path: &Path,
    sides: &Sides,
    effort: &mut Effort,
) -> Result<Option<Found>, AllocError> {
    let Some(first) = first_keeping(question, path, sides, effort)? else {
        return Ok(None);
    };
    match path {
        Path::Every => {
            let found = with_hold(question, Staying::Every, sides, first, effort)?;
            Ok(Some(with_stops(question, sides, found, effort)?))
        }
        Path::Any => {
            let found = with_hold(question, Staying::AnyOrNone, sides, first, effort)?;
            Ok(Some(found))
        }
    }
}

/// What the ways find of a fixpoint with these arguments.
fn found_by_ways(
    question: &Question,
    path: &Path,
    shape: &Shape,
    sides: &Sides,
    effort: &mut Effort,
) -> Result<Option<Found>, AllocError> {
    match shape {
        Shape::Until | Shape::Strong => ending(question, path, sides, effort),
        Shape::Weak | Shape::Release => keeping(question, path, sides, effort),
    }
}

/// What is found of a fixpoint whose arguments both are to hold at the end.
fn found_with_both<'a>(
    question: &Question,
    path: &Path,
    shape: &Shape,
    first: &'a Part,
    second: &'a Part,
    effort: &mut Effort,
) -> Result<Option<Found>, AllocError> {
    let Some(end) = common_areas(question, &first.areas, &second.areas, effort)? else {
        return Ok(None);
    };
    let sides = Sides {
        hold: &second.areas,
        owes_hold: true,
        end: &end,
        first: Some(&first.areas),
        second: &second.areas,
    };
    found_by_ways(question, path, shape, &sides, effort)
}

/// What is found of a fixpoint whose second argument is to hold at the end.
fn found_with_second<'a>(
    question: &Question,
    path: &Path,
    shape: &Shape,
    first: &'a Part,
    second: &'a Part,
    effort: &mut Effort,
) -> Result<Option<Found>, AllocError> {
    let sides = Sides {
        hold: &first.areas,
        owes_hold: true,
        end: &second.areas,
        first: None,
        second: &second.areas,
    };
    found_by_ways(question, path, shape, &sides, effort)
}

/// The nodes of two parts.
fn children_of(alloc: Global, first: Part, second: Part) -> Result<Vec<Node>, AllocError> {
    let mut children = Vec::new(alloc);
    children.push(first.node)?;
    children.push(second.node)?;
    Ok(children)
}

/// The part of a fixpoint with these arguments; `None` where no way finds one.
pub(crate) fn fixed_part(
    question: &Question,
    path: &Path,
    shape: &Shape,
    first: Part,
    second: Part,
    effort: &mut Effort,
) -> Result<Option<Part>, AllocError> {
    let found = match shape {
        Shape::Until | Shape::Weak => {
            found_with_second(question, path, shape, &first, &second, effort)?
        }
        Shape::Release | Shape::Strong => {
            found_with_both(question, path, shape, &first, &second, effort)?
        }
    };
    match found {
        None => Ok(None),
        Some(found) => {
            let children = children_of(question.alloc, first, second)?;
            part_found(question, found, children)
        }
    }
}
