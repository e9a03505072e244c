// Choices of a step where ranks fall over every step.

use crate::areas::area::place_among;
use crate::areas::entering::{Entry, entries_from};
use crate::areas::passage::Effect;
use crate::areas::ranks::push_fall_over;
use crate::areas::stages::Stages;
use crate::areas::taking::{Move, Taken, push_choice};
use crate::formulas::until_by_ranks::Ranked;
use crate::strategies::link::effect_of_way;
use std::alloc::AllocError;
use tv_cert::Proof;
use tv_linear::{Row, copies};
use tv_walks::{Effort, Question, way_of};

/// The number of the rank that falls over the passage by the case between the areas at these places.
fn fall_between(ranked: &Ranked, from: usize, number: u32, to: usize) -> Option<u32> {
    for passage in &ranked.passages {
        if passage.from == from && passage.to == to && passage.number == number as usize {
            return Some(passage.fall);
        }
    }
    None
}

/// The effect of the case of the entry with its draws; `None` where a row is too wide.
fn effect_of_entry(question: &Question, entry: &Entry) -> Result<Option<Effect>, AllocError> {
    let alloc = question.alloc;
    let columns = question.about.variables() as usize;
    let Some(case) = question.about.list().get(entry.number as usize) else {
        return Ok(None);
    };
    let draws = copies(alloc, &entry.draws)?;
    match way_of(alloc, columns, entry.number, case, draws)? {
        None => Ok(None),
        Some(way) => Ok(Some(effect_of_way(alloc, columns, &way)?)),
    }
}

/// The rows of what is entered from the area at this place, and those of the fall of this rank; `None` where one is too wide.
fn rows_with_fall(
    question: &Question,
    ranked: &Ranked,
    place: usize,
    entry: &Entry,
    fall: u32,
) -> Result<Option<Vec<Row>>, AllocError> {
    let (Some(old), Some(new)) = (
        ranked.ranks.rows.get(place),
        ranked.ranks.rows.get(entry.to),
    ) else {
        return Ok(None);
    };
    let Some(effect) = effect_of_entry(question, entry)? else {
        return Ok(None);
    };
    let mut rows = copies(question.alloc, &entry.rows)?;
    if push_fall_over(question, &effect, fall as usize, old, new, &mut rows)? {
        Ok(Some(rows))
    } else {
        Ok(None)
    }
}

/// The move from the area at this place by the entry; `None` where no rank is known to fall.
fn move_by(
    question: &Question,
    stages: &Stages,
    place: usize,
    ranked: &Ranked,
    entry: &Entry,
) -> Result<Option<Move>, AllocError> {
    let alloc = question.alloc;
    let fall = if entry.to < stages.done {
        Some(0)
    } else {
        fall_between(ranked, place, entry.number, entry.to)
    };
    let Some(fall) = fall else {
        return Ok(None);
    };
    let rows = if fall == 0 {
        Some(copies(alloc, &entry.rows)?)
    } else {
        rows_with_fall(question, ranked, place, entry, fall)?
    };
    let Some(rows) = rows else {
        return Ok(None);
    };
    let taken = Some(Taken {
        number: entry.number,
        draws: copies(alloc, &entry.draws)?,
        target: place_among(&stages.areas, entry.to),
        fall,
    });
    Ok(Some(Move { rows, taken }))
}

/// Puts the choice of a step over which a rank falls, or that leads to the end, at the end of the list; whether there is one.
pub(crate) fn push_falling_choice(
    question: &Question,
    stages: &Stages,
    place: usize,
    ranked: &Ranked,
    effort: &mut Effort,
    proofs: &mut Vec<Proof>,
) -> Result<bool, AllocError> {
    let Some(area) = stages.areas.get(place) else {
        return Ok(false);
    };
    let mut moves = Vec::new(question.alloc);
    for entry in entries_from(question, area.location, &stages.areas, 0)? {
        if let Some(made) = move_by(question, stages, place, ranked, &entry)? {
            moves.push(made)?;
        }
    }
    push_choice(question, area, &moves, effort, proofs)
}
