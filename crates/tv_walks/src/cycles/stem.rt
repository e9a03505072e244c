use crate::cycles::walking::longer_walk;
use crate::cycles::way::Way;
use crate::limits::{LONGEST_STEM, STEMS};
use crate::question::Question;
use crate::rows::combining::{all_put_in, push_all_tight, unit_rows};
use crate::rows::solving::{Effort, may_have_point, whole_point};
use std::alloc::{AllocError, Global};
use tv_linear::{Row, copies, push_copies};

/// A path from the start: the values there that can take it, and what they become.
#[derive(Drop)]
pub(crate) struct Stem {
    /// Where the path leads.
    pub location: u32,
    /// The places of the ways that are taken.
    pub walk: Vec<usize>,
    /// What the values at the start have to meet.
    pub guards: Vec<Row>,
    /// The terms of the variables at the end, over those at the start.
    pub terms: Vec<Row>,
}

/// The path without a step.
fn first_stem(question: &Question) -> Result<Option<Stem>, AllocError> {
    let columns = question.about.variables() as usize;
    let Some(terms) = unit_rows(question.alloc, columns)? else {
        return Ok(None);
    };
    Ok(Some(Stem {
        location: question.about.start(),
        walk: Vec::new(question.alloc),
        guards: Vec::new(question.alloc),
        terms,
    }))
}

/// What the values at the start have to meet, so that these rows are met at the end of the path as well; `None` where nothing meets them.
fn guards_with(
    alloc: Global,
    columns: usize,
    stem: &Stem,
    rows: &[Row],
) -> Result<Option<Vec<Row>>, AllocError> {
    let Some(more) = all_put_in(alloc, columns, rows, &stem.terms)? else {
        return Ok(None);
    };
    let mut guards = copies(alloc, &stem.guards)?;
    if push_all_tight(alloc, &more, &mut guards)? {
        Ok(Some(guards))
    } else {
        Ok(None)
    }
}

/// The path with the way at this place after it; `None` where no values at the start can take it.
fn longer(
    alloc: Global,
    columns: usize,
    stem: &Stem,
    place: usize,
    way: &Way,
    effort: &mut Effort,
) -> Result<Option<Stem>, AllocError> {
    let Some(guards) = guards_through(alloc, columns, stem, way, effort)? else {
        return Ok(None);
    };
    let Some(terms) = all_put_in(alloc, columns, &way.terms, &stem.terms)? else {
        return Ok(None);
    };
    Ok(Some(Stem {
        location: way.to,
        walk: longer_walk(alloc, &stem.walk, place)?,
        guards,
        terms,
    }))
}

/// What the values at the start have to meet, so that the way can be taken at the end of the path; `None` where none can.
fn guards_through(
    alloc: Global,
    columns: usize,
    stem: &Stem,
    way: &Way,
    effort: &mut Effort,
) -> Result<Option<Vec<Row>>, AllocError> {
    let mut asked = copies(alloc, &way.guards)?;
    push_copies(alloc, &way.conditions, &mut asked)?;
    if let Some(guards) = guards_with(alloc, columns, stem, &asked)?
        && may_have_point(alloc, &guards, columns, effort)?
    {
        return Ok(Some(guards));
    }
    Ok(None)
}

/// Puts the paths that are one way longer at the end of the list.
fn push_longer(
    alloc: Global,
    columns: usize,
    ways: &[Way],
    stem: &Stem,
    effort: &mut Effort,
    list: &mut Vec<Stem>,
) -> Result<(), AllocError> {
    for (place, way) in ways.iter().enumerate() {
        if way.from == stem.location
            && list.len() < STEMS
            && let Some(next) = longer(alloc, columns, stem, place, way, effort)?
        {
            list.push(next)?;
        }
    }
    Ok(())
}

/// A copy of the path.
fn copy_of(alloc: Global, stem: &Stem) -> Result<Stem, AllocError> {
    let mut guards = Vec::new(alloc);
    push_copies(alloc, &stem.guards, &mut guards)?;
    Ok(Stem {
        location: stem.location,
        walk: Vec::from_slice(alloc, &stem.walk)?,
        guards,
        terms: copies(alloc, &stem.terms)?,
    })
}

/// The paths from the start that some values can take, the shortest first.
pub(crate) fn stems(
    question: &Question,
    ways: &[Way],
    effort: &mut Effort,
) -> Result<Vec<Stem>, AllocError> {
    let mut list = Vec::new(question.alloc);
    if let Some(first) = first_stem(question)? {
        list.push(first)?;
    }
    for place in 0..STEMS {
        if place < list.len() {
            push_longer_at(question, ways, place, effort, &mut list)?;
        }
    }
    Ok(list)
}

/// Puts the paths that are one way longer than that at this place at the end of the list, unless it is long.
fn push_longer_at(
    question: &Question,
    ways: &[Way],
    place: usize,
    effort: &mut Effort,
    list: &mut Vec<Stem>,
) -> Result<(), AllocError> {
    let columns = question.about.variables() as usize;
    if let Some(next) = list.get(place)
        && next.walk.len() < LONGEST_STEM
    {
        let stem = copy_of(question.alloc, next)?;
        push_longer(question.alloc, columns, ways, &stem, effort, list)?;
    }
    Ok(())
}

/// Values at the start from which the path leads to where the rows are met.
pub(crate) fn values_into(
    alloc: Global,
    columns: usize,
    stem: &Stem,
    rows: &[Row],
    effort: &mut Effort,
) -> Result<Option<Vec<i64>>, AllocError> {
    match guards_with(alloc, columns, stem, rows)? {
        None => Ok(None),
        Some(guards) => whole_point(alloc, &guards, columns, effort),
    }
}
