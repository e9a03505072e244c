// Whether terms fall over passages.

use crate::budget::Spending;
use crate::effect::Steps;
use crate::passage::Passage;
use std::alloc::AllocError;
use tv_linear::Row;
use tv_walks::is_known;

/// Whether a row is shown where the passage is taken.
fn is_shown(
    steps: &Steps,
    passage: &Passage,
    width: usize,
    row: Option<Row>,
    spending: &mut Spending,
) -> Result<bool, AllocError> {
    match row {
        None => Ok(false),
        Some(row) => is_known(
            steps.alloc,
            &passage.rows,
            &row,
            width,
            &mut spending.effort,
        ),
    }
}

/// Whether the term falls over the passage to another one after it, from a value that is not below 0.
pub(crate) fn falls_over(
    steps: &Steps,
    passage: &Passage,
    before: &Row,
    after: &Row,
    spending: &mut Spending,
) -> Result<bool, AllocError> {
    let Some(effect) = steps.effects.get(passage.number) else {
        return Ok(false);
    };
    let fall = effect.fall(steps.alloc, before, after)?;
    if !is_shown(steps, passage, effect.width, fall, spending)? {
        return Ok(false);
    }
    let bound = effect.not_below(steps.alloc, before)?;
    is_shown(steps, passage, effect.width, bound, spending)
}
