// Where steps are possible. Each draw of a case is at a bound that a guard sets it, or at 0.

use crate::budget::Spending;
use crate::effect::{Effect, Steps};
use crate::lists::outside;
use std::alloc::{AllocError, Global};
use tv_linear::{Row, copies};
use tv_walks::{all_put_in, coefficient_at, is_without_draws, less, number_row, put_in, unit_rows};

/// A way to take a case.
#[derive(Drop)]
pub(crate) struct Way {
    /// The number of the case.
    pub number: usize,
    /// A term for each draw.
    pub draws: Vec<Row>,
    /// The guards, with the terms put in.
    pub rows: Vec<Row>,
}

/// The term at which the row is 0 whose coefficient at the column is 1 or -1, over `width` columns.
fn term_at_bound(
    alloc: Global,
    width: usize,
    row: &Row,
    column: usize,
) -> Result<Option<Row>, AllocError> {
    let Some(mut terms) = unit_rows(alloc, width)? else {
        return Ok(None);
    };
    if let Some(slot) = terms.get_mut(column)
        && let Some(zero) = number_row(alloc, width, 0)?
    {
        *slot = zero;
    }
    let Some(rest) = put_in(alloc, width, row, &terms)? else {
        return Ok(None);
    };
    if coefficient_at(row, column) == 1 {
        Ok(Some(rest.opposite(alloc)?))
    } else {
        Ok(Some(rest))
    }
}

/// The term for the draw of this column: the bound that the first of the guards sets it that has no later draw, or 0.
fn term_for(steps: &Steps, effect: &Effect, column: usize) -> Result<Option<Row>, AllocError> {
    for guard in &effect.guards {
        let number = coefficient_at(guard, column);
        if (number == 1 || number == -1)
            && is_without_draws(guard, column.saturating_add(1))
            && let Some(term) = term_at_bound(steps.alloc, effect.width, guard, column)?
        {
            return Ok(Some(term));
        }
    }
    number_row(steps.alloc, effect.width, 0)
}

/// The variables, and then a term over the variables for each draw of the case.
fn inputs_of(steps: &Steps, effect: &Effect) -> Result<Option<Vec<Row>>, AllocError> {
    let Some(mut inputs) = unit_rows(steps.alloc, steps.columns)? else {
        return Ok(None);
    };
    for column in steps.columns..effect.width {
        let Some(term) = term_for(steps, effect, column)? else {
            return Ok(None);
        };
        match put_in(steps.alloc, steps.columns, &term, &inputs)? {
            None => return Ok(None),
            Some(term) => inputs.push(term)?,
        }
    }
    Ok(Some(inputs))
}

/// The way to take the case of this number; `None` where a row is too wide.
fn way_of(steps: &Steps, number: usize, effect: &Effect) -> Result<Option<Way>, AllocError> {
    let alloc = steps.alloc;
    let Some(inputs) = inputs_of(steps, effect)? else {
        return Ok(None);
    };
    let Some(rows) = all_put_in(alloc, steps.columns, &effect.guards, &inputs)? else {
        return Ok(None);
    };
    match inputs.split_at_checked(steps.columns) {
        None => Ok(None),
        Some((_, draws)) => Ok(Some(Way {
            number,
            draws: copies(alloc, draws)?,
            rows,
        })),
    }
}

/// The ways to take each case from the location.
pub(crate) fn ways_from(steps: &Steps, location: u32) -> Result<Vec<Way>, AllocError> {
    let mut ways = Vec::new(steps.alloc);
    for (number, effect) in steps.effects.iter().enumerate() {
        if effect.from == location
            && let Some(way) = way_of(steps, number, effect)?
        {
            ways.push(way)?;
        }
    }
    Ok(ways)
}

/// The guards of the case that have no draws.
fn plain_guards(steps: &Steps, effect: &Effect) -> Result<Vec<Row>, AllocError> {
    let alloc = steps.alloc;
    let mut rows = Vec::new(alloc);
    for guard in &effect.guards {
        if is_without_draws(guard, steps.columns)
            && let Some(zero) = number_row(alloc, steps.columns, 0)?
            && let Some(row) = less(alloc, steps.columns, guard, &zero)?
        {
            rows.push(row)?;
        }
    }
    Ok(rows)
}

/// Lists of rows: where one is met, a guard of each case from the location is denied; `None` where there are too many.
pub(crate) fn stops_at(
    steps: &Steps,
    location: u32,
    spending: &mut Spending,
) -> Result<Option<Vec<Vec<Row>>>, AllocError> {
    let mut lists = Vec::new(steps.alloc);
    for effect in &steps.effects {
        if effect.from == location {
            lists.push(plain_guards(steps, effect)?)?;
        }
    }
    outside(steps, &lists, spending)
}
