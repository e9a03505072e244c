// The arguments of a fixpoint.

use crate::areas::area::{Area, each_with_each, lists_at, push_areas};
use crate::formulas::region_part::push_into;
use std::alloc::AllocError;
use tv_cert::Proof;
use tv_linear::Row;
use tv_walks::{Effort, Question};

/// The areas of the two arguments of a fixpoint.
#[derive(Drop)]
pub(crate) struct Sides<'a> {
    /// Where it may go on.
    pub hold: &'a [Area],
    /// Whether a proof is owed that it may go on where it does. For endless runs none is.
    pub owes_hold: bool,
    /// Where it is at the end.
    pub end: &'a [Area],
    /// The first argument, where it is to hold at the end too.
    pub first: Option<&'a [Area]>,
    /// The second argument, which holds at the end.
    pub second: &'a [Area],
}

impl Sides<'_> {
    /// Puts the proofs that the area is at the end at the end of the list; whether they were found.
    pub(crate) fn push_done(
        &self,
        question: &Question,
        area: &Area,
        effort: &mut Effort,
        proofs: &mut Vec<Proof>,
    ) -> Result<bool, AllocError> {
        if let Some(first) = self.first
            && !push_into(question, area, first, effort, proofs)?
        {
            return Ok(false);
        }
        push_into(question, area, self.second, effort, proofs)
    }

    /// Puts the proof that it may go on in the area at the end of the list, where one is owed; whether it was found.
    pub(crate) fn push_hold(
        &self,
        question: &Question,
        area: &Area,
        effort: &mut Effort,
        proofs: &mut Vec<Proof>,
    ) -> Result<bool, AllocError> {
        if !self.owes_hold {
            return Ok(true);
        }
        push_into(question, area, self.hold, effort, proofs)
    }
}

/// Lists of rows: one of the lists is met where both arguments hold at the location; `None` where there are too many.
fn common_lists(
    question: &Question,
    first: &[Area],
    second: &[Area],
    location: u32,
    effort: &mut Effort,
) -> Result<Option<Vec<Vec<Row>>>, AllocError> {
    let columns = question.about.variables() as usize;
    let firsts = lists_at(question.alloc, first, location)?;
    let seconds = lists_at(question.alloc, second, location)?;
    each_with_each(question.alloc, columns, &firsts, &seconds, effort)
}

/// The areas where both arguments hold; `None` where there are too many.
pub(crate) fn common_areas(
    question: &Question,
    first: &[Area],
    second: &[Area],
    effort: &mut Effort,
) -> Result<Option<Vec<Area>>, AllocError> {
    let mut areas = Vec::new(question.alloc);
    for location in 0..question.about.locations() {
        match common_lists(question, first, second, location, effort)? {
            None => return Ok(None),
            Some(lists) => push_areas(&mut areas, location, lists)?,
        }
    }
    Ok(Some(areas))
}
