// What holds after a step.

use crate::areas::area::{Area, place_among};
use crate::areas::cutting::{is_inside_any, push_strongest};
use crate::areas::entering::{Entry, entries_from};
use crate::areas::known::known_at;
use crate::areas::leaving::parts_staying;
use crate::areas::taking::{Move, Taken, push_choice};
use crate::formulas::region_part::{Part, Shown, plain_part, push_steps_into};
use crate::limits::AREAS;
use std::alloc::{AllocError, Global};
use tv_linear::Row;
use tv_walks::{Effort, Question, may_have_point};

/// The parts of the location, as far as it is known, from which every step leads into the areas; the whole of it where there are too many.
fn parts_before(
    question: &Question,
    location: u32,
    areas: &[Area],
    effort: &mut Effort,
) -> Result<Vec<Vec<Row>>, AllocError> {
    let rows = known_at(question, location)?;
    let whole = Area { location, rows };
    match parts_staying(question, &whole, areas, effort)? {
        Some(parts) => Ok(parts),
        None => {
            let mut lists = Vec::new(question.alloc);
            lists.push(whole.rows)?;
            Ok(lists)
        }
    }
}

/// Adds the part of the location, where every step from it is shown to lead into the areas.
fn add_every(
    question: &Question,
    area: Area,
    inner: &[Area],
    effort: &mut Effort,
    shown: &mut Shown,
) -> Result<(), AllocError> {
    let columns = question.about.variables() as usize;
    if is_inside_any(question.alloc, columns, &area, &shown.areas, effort)? {
        return Ok(());
    }
    let mut own = Vec::new(question.alloc);
    if push_steps_into(question, &area, inner, effort, &mut own)? {
        shown.areas.push(area)?;
        shown.proofs.append(&mut own)?;
    }
    Ok(())
}

/// The part of what holds after every step.
pub(crate) fn after_each(
    question: &Question,
    inner: Part,
    effort: &mut Effort,
) -> Result<Option<Part>, AllocError> {
    let mut shown = Shown::new(question.alloc);
    for location in 0..question.about.locations() {
        for rows in parts_before(question, location, &inner.areas, effort)? {
            let area = Area { location, rows };
            add_every(question, area, &inner.areas, effort, &mut shown)?;
        }
    }
    part_after(question, inner, shown)
}

/// The part of the areas before a step into another part.
fn part_after(question: &Question, inner: Part, shown: Shown) -> Result<Option<Part>, AllocError> {
    let Shown { areas, proofs } = shown;
    if areas.len() > AREAS {
        return Ok(None);
    }
    let mut children = Vec::new(question.alloc);
    children.push(inner.node)?;
    plain_part(question, areas, children, proofs)
}

/// Adds the states from which a step into the areas is taken in this way, where they lie in no area before.
fn add_entry(
    question: &Question,
    location: u32,
    entry: Entry,
    inner: &[Area],
    effort: &mut Effort,
    shown: &mut Shown,
) -> Result<(), AllocError> {
    let Some(area) = area_outside(question, location, &entry.rows, &shown.areas, effort)? else {
        return Ok(());
    };
    let moves = one_move(question.alloc, inner, entry)?;
    if push_choice(question, &area, &moves, effort, &mut shown.proofs)? {
        shown.areas.push(area)?;
    }
    Ok(())
}

/// The area of the rows at the location; `None` where no point meets them, or it lies inside one of the areas.
fn area_outside(
    question: &Question,
    location: u32,
    rows: &[Row],
    areas: &[Area],
    effort: &mut Effort,
) -> Result<Option<Area>, AllocError> {
    let columns = question.about.variables() as usize;
    let Some(rows) = strongest_rows(question, rows, effort)? else {
        return Ok(None);
    };
    let area = Area { location, rows };
    if is_inside_any(question.alloc, columns, &area, areas, effort)? {
        Ok(None)
    } else {
        Ok(Some(area))
    }
}

/// The rows, tightened, the strongest of those with the same coefficients; `None` where no point meets them all.
fn strongest_rows(
    question: &Question,
    rows: &[Row],
    effort: &mut Effort,
) -> Result<Option<Vec<Row>>, AllocError> {
    let columns = question.about.variables() as usize;
    let mut strongest = Vec::new(question.alloc);
    if push_strongest(question.alloc, rows, &mut strongest)?
        && may_have_point(question.alloc, &strongest, columns, effort)?
    {
        Ok(Some(strongest))
    } else {
        Ok(None)
    }
}

/// The move by the entry into one of the areas, alone.
fn one_move(alloc: Global, inner: &[Area], entry: Entry) -> Result<Vec<Move>, AllocError> {
    let taken = Some(Taken {
        number: entry.number,
        draws: entry.draws,
        target: place_among(inner, entry.to),
        fall: 0,
    });
    let rows = entry.rows;
    let mut moves = Vec::new(alloc);
    moves.push(Move { rows, taken })?;
    Ok(moves)
}

/// The part of what holds after some step.
pub(crate) fn after_some(
    question: &Question,
    inner: Part,
    effort: &mut Effort,
) -> Result<Option<Part>, AllocError> {
    let mut shown = Shown::new(question.alloc);
    for location in 0..question.about.locations() {
        for entry in entries_from(question, location, &inner.areas, 0)? {
            add_entry(question, location, entry, &inner.areas, effort, &mut shown)?;
        }
    }
    part_after(question, inner, shown)
}
