// Areas between which no rank falls, split by a row: a loop may count up where a variable has one value and down where it has another, or
// fall only once what it falls by has one sign.

use crate::areas::area::{Area, copy_of};
use crate::areas::changes::{falling_row, is_steady};
use crate::areas::cutting::halves_of;
use crate::areas::passage::Passage;
use crate::areas::stages::Stages;
use crate::areas::terms::terms_of;
use crate::limits::AREAS;
use std::alloc::AllocError;
use tv_linear::Row;
use tv_walks::{Effort, Question, is_without_draws};

/// Areas between which no rank falls.
#[derive(Drop)]
pub(crate) struct Stuck {
    /// Their places; none where nothing is known of one.
    pub places: Vec<usize>,
    /// The passages between areas.
    pub passages: Vec<Passage>,
}

impl Stuck {
    /// Whether the passage is between the areas.
    fn has(&self, passage: &Passage) -> bool {
        self.places.contains(&passage.from) && self.places.contains(&passage.to)
    }

    /// Whether one of the areas is at the location.
    fn is_at(&self, stages: &Stages, location: u32) -> bool {
        for place in &self.places {
            if let Some(area) = stages.areas.get(*place)
                && area.location == location
            {
                return true;
            }
        }
        false
    }

    /// Whether no passage between the areas changes the value of the row.
    fn keeps(&self, question: &Question, row: &Row) -> Result<bool, AllocError> {
        for passage in &self.passages {
            if self.has(passage) && !is_steady(question, &passage.effect, row)? {
                return Ok(false);
            }
        }
        Ok(true)
    }
}

/// The guards over the variables alone by which the areas are left.
fn guards_at(question: &Question, stages: &Stages, stuck: &Stuck) -> Result<Vec<Row>, AllocError> {
    let columns = question.about.variables() as usize;
    let mut rows = Vec::new(question.alloc);
    for case in question.about.list() {
        if stuck.is_at(stages, case.from) {
            push_over_variables(question, &case.guards.rows, columns, &mut rows)?;
        }
    }
    Ok(rows)
}

/// Puts those of the rows that speak of the variables alone at the end of the list.
fn push_over_variables(
    question: &Question,
    guards: &[Row],
    columns: usize,
    rows: &mut Vec<Row>,
) -> Result<(), AllocError> {
    for guard in guards {
        if is_without_draws(guard, columns) {
            rows.push(guard.copy(question.alloc)?)?;
        }
    }
    Ok(())
}

/// Those of the rows whose value no passage between the areas changes.
fn kept_rows(question: &Question, stuck: &Stuck, guards: &[Row]) -> Result<Vec<Row>, AllocError> {
    let mut rows = Vec::new(question.alloc);
    for guard in guards {
        if stuck.keeps(question, guard)? {
            rows.push(guard.copy(question.alloc)?)?;
        }
    }
    Ok(rows)
}

/// Puts the row that is met where the term falls over a passage at the end of the list, for each passage between the areas.
fn push_falls(
    question: &Question,
    stuck: &Stuck,
    term: &Row,
    rows: &mut Vec<Row>,
) -> Result<(), AllocError> {
    let columns = question.about.variables() as usize;
    for passage in &stuck.passages {
        if stuck.has(passage)
            && passage.effect.width == columns
            && let Some(row) = falling_row(question, &passage.effect, term)?
        {
            rows.push(row)?;
        }
    }
    Ok(())
}

/// The rows that are met where a term falls over a passage between the areas.
fn falls_at(question: &Question, stages: &Stages, stuck: &Stuck) -> Result<Vec<Row>, AllocError> {
    let mut rows = Vec::new(question.alloc);
    for term in terms_of(question, &stages.areas)? {
        push_falls(question, stuck, &term, &mut rows)?;
    }
    Ok(rows)
}

/// Puts an area, or its halves where the row splits it, at the end; whether it is split.
fn push_halves(
    question: &Question,
    area: &Area,
    row: Option<&Row>,
    areas: &mut Vec<Area>,
    effort: &mut Effort,
) -> Result<bool, AllocError> {
    let location = area.location;
    let halves = match row {
        None => None,
        Some(row) => halves_of(question, area, row, effort)?,
    };
    match halves {
        None => {
            areas.push(copy_of(question.alloc, area)?)?;
            Ok(false)
        }
        Some((rows, other)) => {
            areas.push(Area { location, rows })?;
            let rows = other;
            areas.push(Area { location, rows })?;
            Ok(true)
        }
    }
}

/// The stages in which the areas at these places are split by the row; `None` where it splits none, or there are too many.
fn split_by(
    question: &Question,
    stages: &Stages,
    places: &[usize],
    row: &Row,
    effort: &mut Effort,
) -> Result<Option<Stages>, AllocError> {
    let mut areas = Vec::new(question.alloc);
    let mut is_split = false;
    for (place, area) in stages.areas.iter().enumerate() {
        let splitting = if places.contains(&place) {
            Some(row)
        } else {
            None
        };
        if push_halves(question, area, splitting, &mut areas, effort)? {
            is_split = true;
        }
    }
    let done = stages.done;
    Ok(if is_split && areas.len() <= AREAS {
        Some(Stages { done, areas })
    } else {
        None
    })
}

/// The stages in which the areas at these places are split by the first of the rows that splits one.
fn split_by_first(
    question: &Question,
    stages: &Stages,
    places: &[usize],
    rows: &[Row],
    effort: &mut Effort,
) -> Result<Option<Stages>, AllocError> {
    for row in rows {
        if let Some(split) = split_by(question, stages, places, row, effort)? {
            return Ok(Some(split));
        }
    }
    Ok(None)
}

/// The stages in which the areas between which no rank falls are split by a guard: one that none of their passages changes, or else another.
/// `None` where none splits them.
pub(crate) fn split_by_guards(
    question: &Question,
    stages: &Stages,
    stuck: &Stuck,
    effort: &mut Effort,
) -> Result<Option<Stages>, AllocError> {
    let guards = guards_at(question, stages, stuck)?;
    if let Some(split) = split_by_kept(question, stages, stuck, &guards, effort)? {
        return Ok(Some(split));
    }
    split_by_first(question, stages, &stuck.places, &guards, effort)
}

/// The stages in which the areas between which no rank falls are split: by a guard that none of their passages changes, or else by where a
/// term falls over one of them, or else by another guard. `None` where nothing splits them.
pub(crate) fn split_at(
    question: &Question,
    stages: &Stages,
    stuck: &Stuck,
    effort: &mut Effort,
) -> Result<Option<Stages>, AllocError> {
    let guards = guards_at(question, stages, stuck)?;
    if let Some(split) = split_by_kept(question, stages, stuck, &guards, effort)? {
        return Ok(Some(split));
    }
    if let Some(split) = split_by_falls(question, stages, stuck, effort)? {
        return Ok(Some(split));
    }
    split_by_first(question, stages, &stuck.places, &guards, effort)
}

/// The same by the first of the guards that none of the passages changes.
fn split_by_kept(
    question: &Question,
    stages: &Stages,
    stuck: &Stuck,
    guards: &[Row],
    effort: &mut Effort,
) -> Result<Option<Stages>, AllocError> {
    let kept = kept_rows(question, stuck, guards)?;
    split_by_first(question, stages, &stuck.places, &kept, effort)
}

/// The same by the first row that says where a term falls over one of the passages.
fn split_by_falls(
    question: &Question,
    stages: &Stages,
    stuck: &Stuck,
    effort: &mut Effort,
) -> Result<Option<Stages>, AllocError> {
    let falls = falls_at(question, stages, stuck)?;
    split_by_first(question, stages, &stuck.places, &falls, effort)
}
