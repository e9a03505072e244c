// Which term is favoured next: one that need not grow at any of some areas, and falls at one.

use crate::areas::changes::Change;
use crate::strategies::strategy_draft::Draft;
use crate::strategies::strategy_order::Field;
use std::alloc::AllocError;
use tv_walks::Effort;

/// Whether a link from the area does not let the term grow, and whether it falls over one between the areas at these places.
fn outlook(
    field: &mut Field,
    term: usize,
    area: usize,
    places: &[usize],
    effort: &mut Effort,
) -> Result<(bool, bool), AllocError> {
    let links = field.links;
    let mut goes_on = false;
    let mut falls = false;
    for (place, link) in links.iter().enumerate() {
        if link.passage.from == area {
            if !places.contains(&link.passage.to) {
                goes_on = true;
            } else {
                match field.change(term, place, effort)? {
                    Change::Grows => {}
                    Change::Stays => goes_on = true,
                    Change::Falls => {
                        goes_on = true;
                        falls = true;
                    }
                }
            }
        }
    }
    Ok((goes_on, falls))
}

/// Whether each of the areas at these places may go on so that the term does not grow, and falls over some link.
fn is_promising(
    field: &mut Field,
    term: usize,
    places: &[usize],
    effort: &mut Effort,
) -> Result<bool, AllocError> {
    let mut falls = false;
    for area in places {
        let (goes_on, fallen) = outlook(field, term, *area, places, effort)?;
        if !goes_on {
            return Ok(false);
        }
        falls = falls || fallen;
    }
    Ok(falls)
}

/// The next term after a known one to favour at the areas at these places.
fn next_term(
    field: &mut Field,
    known: usize,
    places: &[usize],
    effort: &mut Effort,
) -> Result<Option<usize>, AllocError> {
    for term in known.saturating_add(1)..field.terms.len().saturating_add(1) {
        if is_promising(field, term, places, effort)? {
            return Ok(Some(term));
        }
    }
    Ok(None)
}

/// The places of the areas that go on and are joined over the links with one of those at these places.
fn joined_with(field: &Field, draft: &Draft, places: &[usize]) -> Result<Vec<usize>, AllocError> {
    let count = draft.stages.areas.len();
    let reach = field.reach(count)?;
    let mut joined = Vec::new(field.question.alloc);
    for area in draft.stages.done..count {
        if places.iter().any(|place| reach.are_joined(*place, area)) {
            joined.push(area)?;
        }
    }
    Ok(joined)
}

/// Favours the next term at the areas at these places, or else at all that are joined with them, where those count that are favoured at some
/// of them alone; whether there is one.
pub(crate) fn favour_next(
    field: &mut Field,
    draft: &mut Draft,
    places: &[usize],
    effort: &mut Effort,
) -> Result<bool, AllocError> {
    let greatest = draft.greatest_at(places);
    if let Some(term) = next_term(field, greatest, places, effort)? {
        draft.favour(places, term);
        return Ok(true);
    }
    let joined = joined_with(field, draft, places)?;
    if joined.len() <= places.len() {
        return Ok(false);
    }
    match next_term(field, draft.least_at(&joined), &joined, effort)? {
        None => Ok(false),
        Some(term) => {
            draft.favour(&joined, term);
            Ok(true)
        }
    }
}
