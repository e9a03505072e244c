// Rows that are lost over a turn of a loop, but not for ever, since the turn must stop before: one of its guards is lost over it too. In
// place of the row one is asked that the turn keeps: the row after the turn less a multiple of the guard.

use crate::areas::area::{Area, both, copy_of};
use crate::areas::changes::growth;
use crate::areas::cutting::is_inside_any;
use crate::areas::passage::Effect;
use crate::limits::{STOPPING_ROUNDS, TURNS};
use crate::strategies::link::distinct_ways;
use std::alloc::AllocError;
use tv_cases::is_number;
use tv_linear::{Row, copies, push_copies};
use tv_walks::{
    Effort, Question, Way, closed_walks, is_known, put_in, rows_of_walk, terms_of_walk,
    with_multiples,
};

/// A closed walk, read at its beginning.
#[derive(Drop)]
struct Turn {
    location: u32,
    guards: Vec<Row>,
    effect: Effect,
}

/// The turn that the walk is; `None` where a row is too wide.
fn turn_of(question: &Question, ways: &[Way], walk: &[usize]) -> Result<Option<Turn>, AllocError> {
    let alloc = question.alloc;
    let width = question.about.variables() as usize;
    let Some(way) = walk.first().and_then(|place| ways.get(*place)) else {
        return Ok(None);
    };
    let Some(guards) = rows_of_walk(alloc, width, ways, walk, &[])? else {
        return Ok(None);
    };
    match terms_of_walk(alloc, width, ways, walk)? {
        None => Ok(None),
        Some(terms) => Ok(Some(Turn {
            location: way.from,
            guards,
            effect: Effect { width, terms },
        })),
    }
}

/// The turns of the program, the shortest first.
fn turns_of(question: &Question) -> Result<Vec<Turn>, AllocError> {
    let ways = distinct_ways(question)?;
    let mut turns = Vec::new(question.alloc);
    for walk in closed_walks(question.alloc, &ways)? {
        if turns.len() < TURNS
            && let Some(turn) = turn_of(question, &ways, &walk)?
        {
            turns.push(turn)?;
        }
    }
    Ok(turns)
}

/// By how much the value of the row grows over the turn, as far as that is the same everywhere; 0 where it is not, or does not grow.
fn steady_growth(question: &Question, turn: &Turn, row: &Row) -> Result<i128, AllocError> {
    match growth(question, &turn.effect, row, row)? {
        Some(more) if is_number(&more) && more.constant() > 0 => Ok(more.constant()),
        _ => Ok(0),
    }
}

/// The row after a turn over which it grows by a number, less the multiple of the guard that grows as much; `None` where the guard does not
/// grow.
fn row_against(
    question: &Question,
    turn: &Turn,
    row: &Row,
    grown: i128,
    guard: &Row,
) -> Result<Option<Row>, AllocError> {
    let alloc = question.alloc;
    let columns = question.about.variables() as usize;
    let guarded = steady_growth(question, turn, guard)?;
    if guarded == 0 {
        return Ok(None);
    }
    let Some(after) = put_in(alloc, columns, row, &turn.effect.terms)? else {
        return Ok(None);
    };
    let fallen = guard.opposite(alloc)?;
    with_multiples(alloc, columns, (&after, guarded), (&fallen, grown))
}

/// The first row that the turn keeps in place of one that grows over it; `None` where there is none, or the row does not grow.
fn row_in_turn(question: &Question, turn: &Turn, row: &Row) -> Result<Option<Row>, AllocError> {
    let grown = steady_growth(question, turn, row)?;
    if grown == 0 {
        return Ok(None);
    }
    for guard in &turn.guards {
        if let Some(kept) = row_against(question, turn, row, grown, guard)? {
            return Ok(Some(kept));
        }
    }
    Ok(None)
}

/// The same for the first of the turns from the location that has one.
fn next_row(
    question: &Question,
    turns: &[Turn],
    location: u32,
    row: &Row,
) -> Result<Option<Row>, AllocError> {
    for turn in turns {
        if turn.location == location
            && let Some(kept) = row_in_turn(question, turn, row)?
        {
            return Ok(Some(kept));
        }
    }
    Ok(None)
}

/// Whether the row may be lost over the turn from the area.
fn is_lost(
    question: &Question,
    turn: &Turn,
    area: &Area,
    row: &Row,
    effort: &mut Effort,
) -> Result<bool, AllocError> {
    let alloc = question.alloc;
    let columns = question.about.variables() as usize;
    let Some(after) = put_in(alloc, columns, row, &turn.effect.terms)? else {
        return Ok(true);
    };
    let mut known = copies(alloc, &area.rows)?;
    push_copies(alloc, &turn.guards, &mut known)?;
    known.push(row.copy(alloc)?)?;
    Ok(!is_known(alloc, &known, &after, columns, effort)?)
}

/// Whether no turn from the area loses the row.
fn is_kept(
    question: &Question,
    turns: &[Turn],
    area: &Area,
    row: &Row,
    effort: &mut Effort,
) -> Result<bool, AllocError> {
    for turn in turns {
        if turn.location == area.location && is_lost(question, turn, area, row, effort)? {
            return Ok(false);
        }
    }
    Ok(true)
}

/// The row that is asked in the area in place of one of its rows; `None` where no turn loses that one, or no other is found.
fn row_asked(
    question: &Question,
    turns: &[Turn],
    area: &Area,
    row: &Row,
    effort: &mut Effort,
) -> Result<Option<Row>, AllocError> {
    let Some(mut asked) = next_row(question, turns, area.location, row)? else {
        return Ok(None);
    };
    for _ in 0..STOPPING_ROUNDS {
        match next_row(question, turns, area.location, &asked)? {
            None => break,
            Some(next) => asked = next,
        }
    }
    if is_kept(question, turns, area, &asked, effort)? {
        Ok(Some(asked))
    } else {
        Ok(None)
    }
}

/// The area with the rows that are asked in it besides; `None` where there are none, or no point meets them.
fn area_asked(
    question: &Question,
    turns: &[Turn],
    area: &Area,
    effort: &mut Effort,
) -> Result<Option<Area>, AllocError> {
    let columns = question.about.variables() as usize;
    let mut asked = Vec::new(question.alloc);
    for row in &area.rows {
        if let Some(more) = row_asked(question, turns, area, row, effort)? {
            asked.push(more)?;
        }
    }
    if asked.is_empty() {
        return Ok(None);
    }
    match both(question.alloc, columns, &area.rows, &asked, effort)? {
        None => Ok(None),
        Some(rows) => Ok(Some(Area {
            location: area.location,
            rows,
        })),
    }
}

/// The areas, with the rows that are asked in those besides that lie inside none of the known ones; `None` where none are asked.
pub(crate) fn areas_asked(
    question: &Question,
    areas: &[Area],
    known: &[Area],
    effort: &mut Effort,
) -> Result<Option<Vec<Area>>, AllocError> {
    let columns = question.about.variables() as usize;
    let turns = turns_of(question)?;
    let mut list = Vec::new(question.alloc);
    let mut are_asked = false;
    for area in areas {
        if !is_inside_any(question.alloc, columns, area, known, effort)?
            && let Some(more) = area_asked(question, &turns, area, effort)?
        {
            are_asked = true;
            list.push(more)?;
        } else {
            list.push(copy_of(question.alloc, area)?)?;
        }
    }
    Ok(if are_asked { Some(list) } else { None })
}
