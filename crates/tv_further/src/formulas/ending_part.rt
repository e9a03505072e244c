// Where every run ends: ranks of areas that fall over every step, where guards split the areas between which none falls at first.

use crate::areas::area::Area;
use crate::areas::known::known_at;
use crate::areas::ranks::{Ranking, Ranks, ranks_of};
use crate::areas::stages::{Stages, without};
use crate::formulas::found::{Found, part_found};
use crate::formulas::region_part::Part;
use crate::formulas::until_by_ranks::{Ranked, going_passages, push_falling};
use crate::formulas::until_splits::{Stuck, split_by_guards};
use crate::limits::{AREAS, ENDING_SPLITS};
use std::alloc::AllocError;
use tv_cert::Proof;
use tv_walks::{Effort, Question};

/// An attempt to show that every run from the areas ends.
#[derive(Drop)]
enum Ending {
    /// The ranks and the proofs.
    Shown { ranks: Ranks, proofs: Vec<Proof> },
    /// From these areas a step may lead out of all of them, or no ranks fall between them.
    Left(Stuck),
}

/// Each location, with the rows that are known there.
pub(crate) fn first_areas(question: &Question) -> Result<Vec<Area>, AllocError> {
    let mut areas = Vec::new(question.alloc);
    for location in 0..question.about.locations() {
        let rows = known_at(question, location)?;
        areas.push(Area { location, rows })?;
    }
    Ok(areas)
}

/// The proofs of the steps under these ranks.
fn ending_under(
    question: &Question,
    stages: &Stages,
    ranked: Ranked,
    effort: &mut Effort,
) -> Result<Ending, AllocError> {
    let mut proofs = Vec::new(question.alloc);
    let mut places = Vec::new(question.alloc);
    for place in 0..stages.areas.len() {
        if !push_falling(question, stages, place, &ranked, effort, &mut proofs)? {
            places.push(place)?;
        }
    }
    let Ranked { passages, ranks } = ranked;
    Ok(if places.is_empty() {
        Ending::Shown { ranks, proofs }
    } else {
        Ending::Left(Stuck { places, passages })
    })
}

/// An attempt with these areas.
fn try_ending(
    question: &Question,
    stages: &Stages,
    effort: &mut Effort,
) -> Result<Ending, AllocError> {
    let mut passages = going_passages(question, stages, effort)?;
    match ranks_of(question, &stages.areas, &mut passages, effort)? {
        Ranking::Stuck(places) => Ok(Ending::Left(Stuck { places, passages })),
        Ranking::Found(ranks) => {
            let ranked = Ranked { passages, ranks };
            ending_under(question, stages, ranked, effort)
        }
    }
}

/// The areas that are tried next, where those that are left are split, while that may be done once more, and else dropped; `None` where there
/// is none to drop.
fn next_areas(
    question: &Question,
    stages: &Stages,
    left: &Stuck,
    splits: &mut u32,
    effort: &mut Effort,
) -> Result<Option<Stages>, AllocError> {
    if *splits < ENDING_SPLITS
        && let Some(split) = split_by_guards(question, stages, left, effort)?
    {
        *splits = splits.saturating_add(1);
        return Ok(Some(split));
    }
    without(question.alloc, stages, &left.places)
}

/// Where every run is shown to end; `None` where nothing was found.
pub(crate) fn ending_part(
    question: &Question,
    effort: &mut Effort,
) -> Result<Option<Part>, AllocError> {
    let areas = first_areas(question)?;
    let mut stages = Stages { done: 0, areas };
    let mut splits = 0;
    for _ in 0..AREAS {
        let left = match try_ending(question, &stages, effort)? {
            Ending::Left(left) => left,
            Ending::Shown { ranks, proofs } => {
                let found = Found {
                    stages,
                    ranks,
                    proofs,
                };
                return part_found(question, found, Vec::new(question.alloc));
            }
        };
        match next_areas(question, &stages, &left, &mut splits, effort)? {
            None => return Ok(None),
            Some(next) => stages = next,
        }
    }
    Ok(None)
}
