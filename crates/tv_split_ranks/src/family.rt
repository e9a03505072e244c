// Terms for the places of a part, by a ranking system.

use crate::budget::Spending;
use crate::effect::Steps;
use crate::limits::SYSTEM_PIVOTS;
use crate::passage::Passage;
use crate::system::Asked;
use std::alloc::{AllocError, Global};
use tv_linear::Row;
use tv_linear::held::difference;
use tv_simplex::{Answer, SolveFault, solve};
use tv_walks::coefficient_at;

/// A part of the places, which reach one another.
#[derive(Drop)]
pub(crate) struct Part {
    /// Where its places stand.
    pub places: Vec<usize>,
    /// The passages inside it.
    pub passages: Vec<Passage>,
}

/// A term of a place of the part.
#[derive(Drop)]
pub(crate) struct LocalTerm {
    /// Where the place stands.
    pub place: usize,
    pub row: Row,
}

/// Whether one of the rows has a coefficient at the variable.
fn has_variable(rows: &[Row], variable: usize) -> bool {
    rows.iter().any(|row| coefficient_at(row, variable) != 0)
}

/// Whether the new value of one of the variables that are known depends on this one over a passage.
fn is_read(steps: &Steps, passage: &Passage, known: &[bool], variable: usize) -> bool {
    let Some(effect) = steps.effects.get(passage.number) else {
        return false;
    };
    effect.terms.iter().zip(known).any(|(term, is_known)| *is_known
        && coefficient_at(term, variable) != 0)
}

/// Whether the variable stands in a row of a passage, or in a term of a variable that is known.
fn is_of_use(steps: &Steps, part: &Part, known: &[bool], variable: usize) -> bool {
    part.passages.iter().any(|passage| {
        has_variable(&passage.rows, variable) || is_read(steps, passage, known, variable)
    })
}

/// Notes each variable that is of use; whether one was noted that was not before.
fn note_used(steps: &Steps, part: &Part, known: &mut [bool]) -> bool {
    let mut is_more = false;
    for variable in 0..steps.columns {
        if !known.get(variable).copied().unwrap_or(true)
            && is_of_use(steps, part, known, variable)
            && let Some(flag) = known.get_mut(variable)
        {
            *flag = true;
            is_more = true;
        }
    }
    is_more
}

/// The variables that terms of the part may have: those of the rows, and those on which new values of such variables depend. Others are 0 in
/// each term, since no row speaks of them.
fn variables_of(steps: &Steps, part: &Part) -> Result<Vec<usize>, AllocError> {
    let mut known = vec![in steps.alloc; false; steps.columns]?;
    for _ in 0..steps.columns {
        if !note_used(steps, part, &mut known) {
            break;
        }
    }
    let mut variables = Vec::new(steps.alloc);
    for (variable, is_known) in known.iter().enumerate() {
        if *is_known {
            variables.push(variable)?;
        }
    }
    Ok(variables)
}

/// The number whose two unknowns stand from a place on.
fn number_from(values: &[i128], place: usize) -> Option<i128> {
    let more = values.get(place)?;
    let less = values.get(place.saturating_add(1))?;
    difference(*more, *less)
}

/// The term of a place; `None` where a number is too large.
fn term_of(
    alloc: Global,
    asked: &Asked,
    values: &[i128],
    place: usize,
) -> Result<Option<Row>, AllocError> {
    let mut coefficients = vec![in alloc; 0; asked.steps.columns]?;
    let mut unknown = asked.place_at(place);
    for variable in &asked.variables {
        if let Some(number) = number_from(values, unknown)
            && let Some(slot) = coefficients.get_mut(*variable)
        {
            *slot = number;
        }
        unknown = unknown.saturating_add(2);
    }
    if coefficients.len() >= 1 << 31 {
        return Ok(None);
    }
    match number_from(values, unknown) {
        None => Ok(None),
        Some(constant) => Row::new(alloc, &coefficients, constant),
    }
}

/// The terms that a solution gives; `None` where a number is too large.
fn terms_of(
    alloc: Global,
    asked: &Asked,
    values: &[i128],
) -> Result<Option<Vec<LocalTerm>>, AllocError> {
    let mut terms = Vec::new(alloc);
    for place in &asked.part.places {
        match term_of(alloc, asked, values, *place)? {
            None => return Ok(None),
            Some(row) => terms.push(LocalTerm { place: *place, row })?,
        }
    }
    Ok(Some(terms))
}

/// Terms that fall as is asked; `None` where none were found.
fn terms_asked(
    asked: &Asked,
    spending: &mut Spending,
) -> Result<Option<Vec<LocalTerm>>, AllocError> {
    let alloc = asked.steps.alloc;
    if !spending.takes_system(asked.rows(), asked.columns()) {
        return Ok(None);
    }
    let Some(system) = asked.system()? else {
        return Ok(None);
    };
    match solve(alloc, &system, SYSTEM_PIVOTS) {
        Ok(Answer::Solution { values, scale: _ }) => terms_of(alloc, asked, &values),
        Ok(Answer::Barrier { y: _ }) => Ok(None),
        Err(SolveFault::Memory) => Err(AllocError),
        Err(_) => Ok(None),
    }
}

/// A term for each place of the part, which grow over none of its passages and fall over one; `None` where none were found.
pub(crate) fn family_of(
    steps: &Steps,
    part: &Part,
    spending: &mut Spending,
) -> Result<Option<Vec<LocalTerm>>, AllocError> {
    let mut asked = Asked {
        steps,
        part,
        variables: variables_of(steps, part)?,
        falling: 0,
    };
    for falling in 0..part.passages.len() {
        asked.falling = falling;
        if let Some(terms) = terms_asked(&asked, spending)? {
            return Ok(Some(terms));
        }
    }
    Ok(None)
}
