// Runs that may go on for ever: areas are cut until from each of them every step, or some step, stays.

use crate::areas::area::{Area, both, place_among, push_areas};
use crate::areas::cutting::{cut_by_all, parts_outside, push_apart};
use crate::areas::entering::entries_from;
use crate::areas::leaving::lists_leaving;
use crate::areas::sides::Sides;
use crate::areas::stages::push_copied;
use crate::areas::stopping::stops_at;
use crate::areas::taking::{Move, Taken, choice_by, push_choice};
use crate::formulas::found::Found;
use crate::formulas::region_part::push_steps_into;
use crate::limits::AREAS;
use std::alloc::AllocError;
use tv_cert::Proof;
use tv_linear::Row;
use tv_walks::{Effort, Question};

/// How runs are to stay in areas.
#[derive(Clone, Copy)]
pub(crate) enum Staying {
    /// By every step.
    Every,
    /// By some step, or since there is none.
    AnyOrNone,
    /// By some step.
    Any,
}

/// Areas, with some that are known to hold.
#[derive(Drop)]
struct Keeping {
    /// How many are known to hold.
    known: usize,
    areas: Vec<Area>,
}

/// What was found, and what of the areas lies outside of it; `None` where there are too many.
fn keeping_of(
    question: &Question,
    hold: &[Area],
    found: &Found,
    effort: &mut Effort,
) -> Result<Option<Keeping>, AllocError> {
    let mut areas = Vec::new(question.alloc);
    push_copied(question.alloc, &found.stages.areas, &mut areas)?;
    let known = areas.len();
    for area in hold {
        match parts_outside(question, area, &found.stages.areas, effort)? {
            None => return Ok(None),
            Some(parts) => push_areas(&mut areas, area.location, parts)?,
        }
    }
    Ok(if areas.len() > AREAS {
        None
    } else {
        Some(Keeping { known, areas })
    })
}

/// The moves from the location into the areas, and, where a run may stop, where no step leads out of it.
fn moves_into(
    question: &Question,
    staying: Staying,
    location: u32,
    areas: &[Area],
    effort: &mut Effort,
) -> Result<Vec<Move>, AllocError> {
    let mut moves = Vec::new(question.alloc);
    for entry in entries_from(question, location, areas, 0)? {
        let taken = Some(Taken {
            number: entry.number,
            draws: entry.draws,
            target: place_among(areas, entry.to),
            fall: 0,
        });
        let rows = entry.rows;
        moves.push(Move { rows, taken })?;
    }
    if let Staying::AnyOrNone = staying {
        for rows in stops_at(question, location, effort)? {
            moves.push(Move { rows, taken: None })?;
        }
    }
    Ok(moves)
}

/// What is kept of an area.
#[derive(Drop)]
enum Kept {
    Whole,
    Parts(Vec<Vec<Row>>),
}

/// What is kept of the area so that every step stays in the areas.
fn kept_every(
    question: &Question,
    area: &Area,
    areas: &[Area],
    effort: &mut Effort,
) -> Result<Kept, AllocError> {
    let alloc = question.alloc;
    let columns = question.about.variables() as usize;
    let Some(leaving) = lists_leaving(question, area, areas, effort)? else {
        return Ok(Kept::Parts(Vec::new(alloc)));
    };
    if leaving.is_empty() {
        return Ok(Kept::Whole);
    }
    match cut_by_all(alloc, columns, &area.rows, &leaving, effort)? {
        None => Ok(Kept::Parts(Vec::new(alloc))),
        Some(parts) => Ok(Kept::Parts(parts)),
    }
}

/// What is kept of the area so that some step stays in the areas, or there is none, where a run may stop.
fn kept_any(
    question: &Question,
    staying: Staying,
    area: &Area,
    areas: &[Area],
    effort: &mut Effort,
) -> Result<Kept, AllocError> {
    let moves = moves_into(question, staying, area.location, areas, effort)?;
    match choice_by(question, area, &moves, effort)? {
        Some(_) => Ok(Kept::Whole),
        None => Ok(Kept::Parts(lists_by(question, area, &moves, effort)?)),
    }
}

/// The rows of the parts of the area from which one of the moves can be made.
fn lists_by(
    question: &Question,
    area: &Area,
    moves: &[Move],
    effort: &mut Effort,
) -> Result<Vec<Vec<Row>>, AllocError> {
    let columns = question.about.variables() as usize;
    let mut parts = Vec::new(question.alloc);
    for made in moves {
        if let Some(rows) = both(question.alloc, columns, &area.rows, &made.rows, effort)? {
            parts.push(rows)?;
        }
    }
    Ok(parts)
}

/// What is kept of the area.
fn kept_of(
    question: &Question,
    staying: Staying,
    area: &Area,
    areas: &[Area],
    effort: &mut Effort,
) -> Result<Kept, AllocError> {
    match staying {
        Staying::Every => kept_every(question, area, areas, effort),
        Staying::AnyOrNone | Staying::Any => kept_any(question, staying, area, areas, effort),
    }
}

/// Puts the parts that lie in none of the areas at their end.
fn push_parts(
    question: &Question,
    location: u32,
    parts: Vec<Vec<Row>>,
    areas: &mut Vec<Area>,
    effort: &mut Effort,
) -> Result<(), AllocError> {
    for rows in parts {
        push_apart(question, location, rows, areas, effort)?;
    }
    Ok(())
}

/// Cuts the area at this place; whether it was cut. Its parts that are kept come to the end of the list.
fn cut_at(
    question: &Question,
    staying: Staying,
    areas: &mut Vec<Area>,
    place: usize,
    with_parts: bool,
    effort: &mut Effort,
) -> Result<bool, AllocError> {
    let Some(area) = areas.get(place) else {
        return Ok(false);
    };
    let location = area.location;
    match kept_of(question, staying, area, areas, effort)? {
        Kept::Whole => Ok(false),
        Kept::Parts(parts) => {
            areas.remove(place);
            if with_parts {
                push_parts(question, location, parts, areas, effort)?;
            }
            Ok(true)
        }
    }
}

/// Cuts each area that is not known to hold, the last first, so that what is cut at one location counts at those before it in the same round.
/// Whether one was cut.
fn cut_all(
    question: &Question,
    staying: Staying,
    now: &mut Keeping,
    with_parts: bool,
    effort: &mut Effort,
) -> Result<bool, AllocError> {
    let mut fewer = false;
    for place in (now.known..now.areas.len()).rev() {
        if cut_at(question, staying, &mut now.areas, place, with_parts, effort)? {
            fewer = true;
        }
    }
    Ok(fewer)
}

/// The areas after at most `rounds` rounds of cuts, and after that without those that are not kept whole; `None` where too many are left.
fn settled(
    question: &Question,
    staying: Staying,
    start: Keeping,
    rounds: usize,
    effort: &mut Effort,
) -> Result<Option<Keeping>, AllocError> {
    let mut now = start;
    for round in 0..AREAS {
        if !cut_all(question, staying, &mut now, round < rounds, effort)? {
            return Ok(Some(now));
        }
        if now.areas.len() > AREAS {
            return Ok(None);
        }
    }
    Ok(None)
}

/// Puts the proofs of an area that goes on at the end of the list; whether they were found.
fn push_kept(
    question: &Question,
    staying: Staying,
    area: &Area,
    areas: &[Area],
    effort: &mut Effort,
    proofs: &mut Vec<Proof>,
) -> Result<bool, AllocError> {
    match staying {
        Staying::Every => push_steps_into(question, area, areas, effort, proofs),
        Staying::AnyOrNone | Staying::Any => {
            let moves = moves_into(question, staying, area.location, areas, effort)?;
            push_choice(question, area, &moves, effort, proofs)
        }
    }
}

/// The proofs of the areas that were not known; `None` where one is not shown.
fn kept_proofs(
    question: &Question,
    staying: Staying,
    sides: &Sides,
    keeping: &Keeping,
    effort: &mut Effort,
) -> Result<Option<Vec<Proof>>, AllocError> {
    let mut proofs = Vec::new(question.alloc);
    for (place, area) in keeping.areas.iter().enumerate() {
        if place >= keeping.known
            && !(sides.push_hold(question, area, effort, &mut proofs)?
                && push_kept(question, staying, area, &keeping.areas, effort, &mut proofs)?)
        {
            return Ok(None);
        }
    }
    Ok(Some(proofs))
}

/// From which areas on, how and by how many rounds of cuts areas that stay are sought.
#[derive(Drop)]
pub(crate) struct Seeking<'a> {
    pub staying: Staying,
    pub areas: &'a [Area],
    pub rounds: usize,
}

/// What was found of a fixpoint that may go on for ever, and areas of the hold side that stay.
pub(crate) fn with_kept(
    question: &Question,
    sides: &Sides,
    seeking: &Seeking,
    found: Found,
    effort: &mut Effort,
) -> Result<Found, AllocError> {
    let staying = seeking.staying;
    let mut found = found;
    let Some(start) = keeping_of(question, seeking.areas, &found, effort)? else {
        return Ok(found);
    };
    if let Some(keeping) = settled(question, staying, start, seeking.rounds, effort)?
        && let Some(mut proofs) = kept_proofs(question, staying, sides, &keeping, effort)?
    {
        found.proofs.append(&mut proofs)?;
        found.stages.areas = keeping.areas;
    }
    Ok(found)
}
