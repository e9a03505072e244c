use crate::cycles::closing::closed;
use crate::cycles::lasso::{push_regions, push_states};
use crate::cycles::stem::{Stem, stems, values_into};
use crate::cycles::walking::closed_walks;
use crate::cycles::way::{Way, ways_under};
use crate::graphs::explicit::attempt_with;
use crate::graphs::graph::Graph;
use crate::limits::{ENTRIES, MANY_VARIABLES};
use crate::question::Question;
use crate::rows::conditions::push_kept;
use crate::rows::solving::Effort;
use crate::search::{Attempt, Name, Search};
use std::alloc::AllocError;
use tv_cert::Aim;
use tv_linear::Row;

/// Closed walks that can be gone through again and again from some state that is reached, and on which what is to be kept to holds.
#[derive(Drop)]
pub struct ClosedCycles;

/// What is known while walks are closed.
#[derive(Drop)]
struct Known<'a> {
    ways: &'a [Way],
    stems: &'a [Stem],
}

/// The graph that enters the walk from these values, by the path; `None` where a number is too large.
fn graph_of(
    question: &Question,
    known: &Known,
    stem: &Stem,
    walk: &[usize],
    rows: &[Row],
    values: &[i64],
) -> Result<Option<Graph>, AllocError> {
    let mut graph = Graph::new(question.alloc, question.about.variables() as usize);
    if !push_states(question.alloc, &mut graph, known.ways, &stem.walk, values)? {
        return Ok(None);
    }
    if push_regions(question.alloc, &mut graph, known.ways, walk, rows)? {
        Ok(Some(graph))
    } else {
        Ok(None)
    }
}

/// The attempt that enters the walk from these values, by the path.
fn attempt_from(
    question: &Question,
    known: &Known,
    stem: &Stem,
    walk: &[usize],
    rows: &[Row],
    values: &[i64],
) -> Result<Option<Attempt>, AllocError> {
    match graph_of(question, known, stem, walk, rows, values)? {
        None => Ok(None),
        Some(graph) => attempt_with(question, &graph, values),
    }
}

/// The first way of the walk.
fn first_way<'a>(ways: &'a [Way], walk: &[usize]) -> Option<&'a Way> {
    let first = walk.first()?;
    ways.get(*first)
}

/// The attempt of the first path that leads to where the rows are met.
fn attempt_by(
    question: &Question,
    known: &Known,
    walk: &[usize],
    rows: &[Row],
    effort: &mut Effort,
) -> Result<Option<Attempt>, AllocError> {
    let Some(way) = first_way(known.ways, walk) else {
        return Ok(None);
    };
    let columns = question.about.variables() as usize;
    let mut left = ENTRIES;
    for stem in known.stems {
        if stem.location == way.from
            && left > 0
            && let Some(values) = values_into(question.alloc, columns, stem, rows, effort)?
        {
            left -= 1;
            if let Some(attempt) = attempt_from(question, known, stem, walk, rows, &values)? {
                return Ok(Some(attempt));
            }
        }
    }
    Ok(None)
}

/// The attempt of the first of the walks that is closed and reached.
fn attempt_at(
    question: &Question,
    known: &Known,
    walks: &[Vec<usize>],
    effort: &mut Effort,
) -> Result<Option<Attempt>, AllocError> {
    let columns = question.about.variables() as usize;
    for walk in walks {
        if effort.left == 0 {
            return Ok(None);
        }
        if let Some(rows) = closed(question.alloc, columns, known.ways, walk, effort)?
            && let Some(attempt) = attempt_by(question, known, walk, &rows, effort)?
        {
            return Ok(Some(attempt));
        }
    }
    Ok(None)
}

/// The attempt of a run that keeps to the formula for ever, or that never ends where there is none.
fn attempt_under(
    question: &Question,
    kept: Option<&Aim>,
    effort: &mut Effort,
) -> Result<Option<Attempt>, AllocError> {
    let ways = ways_under(question, kept)?;
    let walks = closed_walks(question.alloc, &ways)?;
    let ways = with_others(question, kept, ways)?;
    let stems = stems(question, &ways, effort)?;
    let known = Known {
        ways: &ways,
        stems: &stems,
    };
    attempt_at(question, &known, &walks, effort)
}

/// The ways, and then those on which nothing is kept to, where the first ones keep to a formula.
fn with_others(
    question: &Question,
    kept: Option<&Aim>,
    ways: Vec<Way>,
) -> Result<Vec<Way>, AllocError> {
    let mut ways = ways;
    if kept.is_some() {
        let mut others = ways_under(question, None)?;
        ways.append(&mut others)?;
    }
    Ok(ways)
}

impl Search for ClosedCycles {
    fn name(&self) -> Name {
        Name::ClosedCycles
    }

    fn attempt(
        &self,
        question: &Question,
        effort: &mut Effort,
    ) -> Result<Option<Attempt>, AllocError> {
        if question.about.variables() as usize > MANY_VARIABLES {
            return Ok(None);
        }
        let mut list = Vec::new(question.alloc);
        push_kept(question.denied, &mut list)?;
        for kept in list {
            if let Some(attempt) = attempt_under(question, kept, effort)? {
                return Ok(Some(attempt));
            }
        }
        Ok(None)
    }
}
