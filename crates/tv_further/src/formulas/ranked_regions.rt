use crate::areas::area::lists_at;
use crate::areas::covers::cover_into;
use crate::formulas::formula_part::part_of;
use crate::formulas::region_part::Part;
use crate::limits::AREAS;
use std::alloc::AllocError;
use tv_cert::Verdict;
use tv_linear::widened;
use tv_walks::{Attempt, Effort, MANY_VARIABLES, Name, Question, Search, whole_point};

/// A region where the formula holds, made of regions where its parts do.
#[derive(Drop)]
pub(crate) struct RankedRegions;

/// The attempt that the formula holds at every initial state.
fn proving(
    question: &Question,
    part: Part,
    effort: &mut Effort,
) -> Result<Option<Attempt>, AllocError> {
    let columns = question.about.variables() as usize;
    let start = question.about.start();
    match cover_into(question.alloc, columns, &[], &part.areas, start, effort)? {
        None => Ok(None),
        Some(cover) => {
            let verdict = Verdict::Proved(cover);
            let root = part.node;
            Ok(Some(Attempt { verdict, root }))
        }
    }
}

/// The attempt that the formula fails at an initial state in one of the areas where its negation holds.
fn refuting(
    question: &Question,
    part: Part,
    effort: &mut Effort,
) -> Result<Option<Attempt>, AllocError> {
    let columns = question.about.variables() as usize;
    let mut piece: u32 = 0;
    for rows in lists_at(question.alloc, &part.areas, question.about.start())? {
        if let Some(values) = whole_point(question.alloc, &rows, columns, effort)? {
            let values = widened(question.alloc, &values)?;
            let verdict = Verdict::Disproved { piece, values };
            let root = part.node;
            return Ok(Some(Attempt { verdict, root }));
        }
        piece = piece.saturating_add(1);
    }
    Ok(None)
}

impl Search for RankedRegions {
    fn name(&self) -> Name {
        Name::RankedRegions
    }

    fn attempt(
        &self,
        question: &Question,
        effort: &mut Effort,
    ) -> Result<Option<Attempt>, AllocError> {
        if question.about.locations() as usize > AREAS {
            return Ok(None);
        }
        if question.about.variables() as usize > MANY_VARIABLES {
            return Ok(None);
        }
        if let Some(part) = part_of(question, question.proved, effort)?
            && let Some(attempt) = proving(question, part, effort)?
        {
            return Ok(Some(attempt));
        }
        match part_of(question, question.denied, effort)? {
            None => Ok(None),
            Some(part) => refuting(question, part, effort),
        }
    }
}
