// Until by ranks that fall over every step.

use crate::areas::area::place_among;
use crate::areas::covers::Target;
use crate::areas::passage::{Passage, passages, rows_entered};
use crate::areas::ranks::{Ranking, Ranks, push_fall, ranks_of};
use crate::areas::sides::Sides;
use crate::areas::stages::{Stages, stages_of, without};
use crate::formulas::falling_choice::push_falling_choice;
use crate::formulas::found::{Ended, Found};
use crate::formulas::going_cut::cut_at;
use crate::formulas::region_part::{push_cover, push_some_step, step_cover, targets_after};
use crate::formulas::until_splits::{Stuck, split_at};
use crate::limits::{AREAS, STEP_CUTS, STEP_SPLITS};
use std::alloc::AllocError;
use tv_cases::Case;
use tv_cert::Proof;
use tv_formula::Path;
use tv_walks::{Effort, Question};

/// Targets of a step by the case from an area, where the ranks fall: the areas at the end, and those that the passages enter.
fn falling_targets(
    question: &Question,
    stages: &Stages,
    place: usize,
    number: usize,
    ranked: &Ranked,
) -> Result<Option<Vec<Target>>, AllocError> {
    let Some(case) = question.about.list().get(number) else {
        return Ok(None);
    };
    let mut targets = targets_after(question, case, &stages.areas, stages.done)?;
    for passage in &ranked.passages {
        if passage.from == place && passage.number == number {
            match falling_target(question, stages, case, passage, &ranked.ranks)? {
                None => return Ok(None),
                Some(target) => targets.push(target)?,
            }
        }
    }
    Ok(Some(targets))
}

/// The target of a passage: the rows of the area that is entered, and those of the fall.
fn falling_target(
    question: &Question,
    stages: &Stages,
    case: &Case,
    passage: &Passage,
    ranks: &Ranks,
) -> Result<Option<Target>, AllocError> {
    let columns = question.about.variables() as usize;
    let (Some(area), Some(old), Some(new)) = (
        stages.areas.get(passage.to),
        ranks.rows.get(passage.from),
        ranks.rows.get(passage.to),
    ) else {
        return Ok(None);
    };
    let Some(mut rows) = rows_entered(question.alloc, columns, case, &area.rows)? else {
        return Ok(None);
    };
    let fall = passage.fall as usize;
    if !push_fall(question, passage.number, fall, old, new, &mut rows)? {
        return Ok(None);
    }
    Ok(Some(Target {
        rows,
        target: place_among(&stages.areas, passage.to),
        fall: passage.fall,
    }))
}

/// Puts the covers of the steps from an area where the ranks fall at the end of the list.
pub(crate) fn push_falling(
    question: &Question,
    stages: &Stages,
    place: usize,
    ranked: &Ranked,
    effort: &mut Effort,
    proofs: &mut Vec<Proof>,
) -> Result<bool, AllocError> {
    let Some(area) = stages.areas.get(place) else {
        return Ok(false);
    };
    for (number, case) in question.about.list().iter().enumerate() {
        if case.from == area.location {
            let Some(targets) = falling_targets(question, stages, place, number, ranked)? else {
                return Ok(false);
            };
            let cover = step_cover(question, area, case, &targets, effort)?;
            if !push_cover(proofs, cover)? {
                return Ok(false);
            }
        }
    }
    Ok(true)
}

/// The passages between areas that go on.
pub(crate) fn going_passages(
    question: &Question,
    stages: &Stages,
    effort: &mut Effort,
) -> Result<Vec<Passage>, AllocError> {
    let mut list = Vec::new(question.alloc);
    for passage in passages(question, &stages.areas, effort)? {
        if passage.from >= stages.done && passage.to >= stages.done {
            list.push(passage)?;
        }
    }
    Ok(list)
}

/// An attempt at until.
#[derive(Drop)]
enum Until {
    /// The ranks and the proofs.
    Shown { ranks: Ranks, proofs: Vec<Proof> },
    /// From the areas at these places a step may be missing, or lead out.
    Open(Vec<usize>),
    /// The ranks do not fall.
    Stuck(Stuck),
}

/// Passages and the ranks that fall over them.
#[derive(Drop)]
pub(crate) struct Ranked {
    pub passages: Vec<Passage>,
    pub ranks: Ranks,
}

/// The proofs that were found, and what is left of the effort.
#[derive(Drop)]
struct Shown<'a> {
    path: &'a Path,
    proofs: Vec<Proof>,
    effort: &'a mut Effort,
}

/// Puts the proofs of the steps from the area at this place at the end of the list; whether all are found.
fn push_steps(
    question: &Question,
    stages: &Stages,
    place: usize,
    ranked: &Ranked,
    shown: &mut Shown,
) -> Result<bool, AllocError> {
    let Some(area) = stages.areas.get(place) else {
        return Ok(false);
    };
    match shown.path {
        Path::Every => {
            if !push_some_step(question, area, shown.effort, &mut shown.proofs)? {
                return Ok(false);
            }
            push_falling(
                question,
                stages,
                place,
                ranked,
                shown.effort,
                &mut shown.proofs,
            )
        }
        Path::Any => push_falling_choice(
            question,
            stages,
            place,
            ranked,
            shown.effort,
            &mut shown.proofs,
        ),
    }
}

/// Puts the proofs of the area at this place at the end of the list; whether all are found.
fn push_stage(
    question: &Question,
    sides: &Sides,
    stages: &Stages,
    place: usize,
    ranked: &Ranked,
    shown: &mut Shown,
) -> Result<bool, AllocError> {
    let Some(area) = stages.areas.get(place) else {
        return Ok(false);
    };
    if place < stages.done {
        return sides.push_done(question, area, shown.effort, &mut shown.proofs);
    }
    if !sides.push_hold(question, area, shown.effort, &mut shown.proofs)? {
        return Ok(false);
    }
    push_steps(question, stages, place, ranked, shown)
}

/// The proofs of until under these ranks.
fn until_under(
    question: &Question,
    path: &Path,
    sides: &Sides,
    stages: &Stages,
    ranked: Ranked,
    effort: &mut Effort,
) -> Result<Until, AllocError> {
    let proofs = Vec::new(question.alloc);
    let mut shown = Shown {
        path,
        proofs,
        effort,
    };
    let mut open = Vec::new(question.alloc);
    for place in 0..stages.areas.len() {
        if !push_stage(question, sides, stages, place, &ranked, &mut shown)? {
            open.push(place)?;
        }
    }
    if !open.is_empty() {
        return Ok(Until::Open(open));
    }
    let ranks = ranked.ranks;
    let proofs = shown.proofs;
    Ok(Until::Shown { ranks, proofs })
}

/// An attempt at until with these stages.
fn try_until(
    question: &Question,
    path: &Path,
    sides: &Sides,
    stages: &Stages,
    effort: &mut Effort,
) -> Result<Until, AllocError> {
    let mut passages = going_passages(question, stages, effort)?;
    match ranks_of(question, &stages.areas, &mut passages, effort)? {
        Ranking::Stuck(places) => Ok(Until::Stuck(Stuck { places, passages })),
        Ranking::Found(ranks) => {
            let ranked = Ranked { passages, ranks };
            until_under(question, path, sides, stages, ranked, effort)
        }
    }
}

/// What was done so far to areas that are not shown.
#[derive(Clone, Copy)]
struct Tries {
    cuts: u32,
    splits: u32,
    /// How many areas were left out.
    lost: usize,
}

/// The stages that are tried next, where areas are cut or split, while that may be done once more, or else left out; `None` where none is
/// left to leave out.
fn next_stages(
    question: &Question,
    stages: &Stages,
    open: Until,
    tries: &mut Tries,
    effort: &mut Effort,
) -> Result<Option<Stages>, AllocError> {
    match open {
        Until::Shown { .. } => Ok(None),
        Until::Open(places) => {
            if tries.cuts < STEP_CUTS {
                tries.cuts = tries.cuts.saturating_add(1);
                return Ok(Some(cut_at(question, stages, &places, effort)?));
            }
            tries.lost = tries.lost.saturating_add(places.len());
            without(question.alloc, stages, &places)
        }
        Until::Stuck(stuck) => {
            if tries.splits < STEP_SPLITS
                && let Some(split) = split_at(question, stages, &stuck, effort)?
            {
                tries.splits = tries.splits.saturating_add(1);
                return Ok(Some(split));
            }
            tries.lost = tries.lost.saturating_add(stuck.places.len());
            without(question.alloc, stages, &stuck.places)
        }
    }
}

/// Until by ranks that fall over every step: over every path, or over some path since some step is always there. Areas from which a step may
/// be missing or lead out are cut a few times, and then left out; those between which no ranks fall are split a few times, and then left out.
pub(crate) fn until_by_ranks(
    question: &Question,
    path: &Path,
    sides: &Sides,
    effort: &mut Effort,
) -> Result<Option<Ended>, AllocError> {
    let Some(mut stages) = stages_of(question, sides, effort)? else {
        return Ok(None);
    };
    let mut tries = Tries {
        cuts: 0,
        splits: 0,
        lost: 0,
    };
    for _ in 0..AREAS {
        match round_of(question, path, sides, stages, &mut tries, effort)? {
            Round::Ended(ended) => return Ok(ended),
            Round::Next(next) => stages = next,
        }
    }
    Ok(None)
}

/// What becomes of stages.
#[derive(Drop)]
enum Round {
    Ended(Option<Ended>),
    Next(Stages),
}

/// One round: what is found of the stages, or those that are tried next.
fn round_of(
    question: &Question,
    path: &Path,
    sides: &Sides,
    stages: Stages,
    tries: &mut Tries,
    effort: &mut Effort,
) -> Result<Round, AllocError> {
    match try_until(question, path, sides, &stages, effort)? {
        Until::Shown { ranks, proofs } => Ok(Round::Ended(Some(Ended {
            found: Found {
                stages,
                ranks,
                proofs,
            },
            lost: tries.lost,
            is_whole: tries.lost == 0 && tries.cuts == 0,
        }))),
        open => match next_stages(question, &stages, open, tries, effort)? {
            None => Ok(Round::Ended(None)),
            Some(next) => Ok(Round::Next(next)),
        },
    }
}
