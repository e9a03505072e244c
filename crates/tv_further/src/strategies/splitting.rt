// By which row areas are split where no term helps.

use crate::strategies::strategy_draft::Draft;
use crate::strategies::strategy_order::Field;
use std::alloc::AllocError;
use tv_linear::Row;
use tv_walks::Effort;

/// Areas at which a term was favoured, and did not help.
#[derive(Drop)]
pub(crate) struct Attempted {
    /// The number of the term, from 1; 0 where none was favoured.
    pub term: usize,
    pub places: Vec<usize>,
}

/// Areas that are split by a row.
#[derive(Drop)]
pub(crate) struct Splitting {
    pub places: Vec<usize>,
    pub row: Row,
}

/// How the areas at these places are split by where the term is not below 0; `None` where it splits none of them.
fn splitting_by(
    field: &Field,
    draft: &Draft,
    term: usize,
    places: &[usize],
    effort: &mut Effort,
) -> Result<Option<Splitting>, AllocError> {
    let alloc = field.question.alloc;
    let Some(term) = term.checked_sub(1).and_then(|place| field.terms.get(place)) else {
        return Ok(None);
    };
    let row = term.opposite(alloc)?;
    if draft.are_split(field.question, places, &row, effort)? {
        let places = Vec::from_slice(alloc, places)?;
        Ok(Some(Splitting { places, row }))
    } else {
        Ok(None)
    }
}

/// How the areas at these places are split by the first of the terms that splits one.
fn splitting_of(
    field: &Field,
    draft: &Draft,
    tried: &[Attempted],
    places: &[usize],
    effort: &mut Effort,
) -> Result<Option<Splitting>, AllocError> {
    for attempted in tried {
        if let Some(split) = splitting_by(field, draft, attempted.term, places, effort)? {
            return Ok(Some(split));
        }
    }
    Ok(None)
}

/// How areas at which a term did not help are split by it: the first of them that are.
fn splitting_before(
    field: &Field,
    draft: &Draft,
    tried: &[Attempted],
    effort: &mut Effort,
) -> Result<Option<Splitting>, AllocError> {
    for attempted in tried {
        let places = &attempted.places;
        if let Some(split) = splitting_by(field, draft, attempted.term, places, effort)? {
            return Ok(Some(split));
        }
    }
    Ok(None)
}

/// How the areas at these places, where no term is left, are split by one that was tried, or else those at which one did not help before.
pub(crate) fn splitting_at(
    field: &Field,
    draft: &Draft,
    tried: &[Attempted],
    places: &[usize],
    effort: &mut Effort,
) -> Result<Option<Splitting>, AllocError> {
    match splitting_of(field, draft, tried, places, effort)? {
        Some(split) => Ok(Some(split)),
        None => splitting_before(field, draft, tried, effort),
    }
}
