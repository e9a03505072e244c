use crate::budget::Spending;
use crate::effect::{Effect, Steps};
use crate::limits::{PASSAGES, POINT_SPLITS};
use crate::place::Place;
use crate::strongest::push_all_strongest;
use std::alloc::{AllocError, Global};
use tv_cover::{Emptied, empty};
use tv_farkas::{Budget, CoverFault};
use tv_linear::{Row, copies, have_columns};
use tv_walks::PIVOTS;

/// A case that may be taken from one place into another.
#[derive(Drop)]
pub(crate) struct Passage {
    /// Where the place that is left stands.
    pub from: usize,
    /// The number of the case.
    pub number: usize,
    /// Where the place that is entered stands.
    pub to: usize,
    /// What is met where it is taken: the rows of the place that is left, the guards, and the rows of the place that is entered.
    pub rows: Vec<Row>,
}

impl Passage {
    /// A copy of the passage.
    pub(crate) fn copy(&self, alloc: Global) -> Result<Passage, AllocError> {
        Ok(Passage {
            from: self.from,
            number: self.number,
            to: self.to,
            rows: copies(alloc, &self.rows)?,
        })
    }
}

/// Whether the rows may have a whole point.
fn may_have_whole_point(
    alloc: Global,
    rows: &[Row],
    width: usize,
    spending: &mut Spending,
) -> Result<bool, AllocError> {
    if width >= 1 << 31 || !spending.effort.spend() {
        return Ok(true);
    }
    let columns = width as u32;
    if !have_columns(rows, columns) {
        return Ok(true);
    }
    let budget = Budget {
        pivots: PIVOTS,
        splits: POINT_SPLITS,
        disjuncts: 0,
    };
    match empty(alloc, rows, columns, &budget) {
        Ok(Emptied::Tree(_)) => Ok(false),
        Ok(Emptied::Whole(_)) => Ok(true),
        Err(CoverFault::Memory) => Err(AllocError),
        Err(_) => Ok(true),
    }
}

/// The rows that are met where the step is taken from states of the first rows to states of the others, read before it; `None` where it is
/// never taken, or a row is too wide.
fn rows_between(
    alloc: Global,
    effect: &Effect,
    left: &[Row],
    entered: &[Row],
    spending: &mut Spending,
) -> Result<Option<Vec<Row>>, AllocError> {
    let mut rows = Vec::new(alloc);
    let Some(after) = effect.all_after(alloc, entered)? else {
        return Ok(None);
    };
    if !push_all_before(alloc, effect, left, &mut rows)?
        || !push_all_strongest(alloc, &effect.guards, &mut rows)?
        || !push_all_strongest(alloc, &after, &mut rows)?
        || !may_have_whole_point(alloc, &rows, effect.width, spending)?
    {
        return Ok(None);
    }
    Ok(Some(rows))
}

/// Whether the step may be taken from states of the first rows to states of the others.
pub(crate) fn may_enter(
    alloc: Global,
    effect: &Effect,
    left: &[Row],
    entered: &[Row],
    spending: &mut Spending,
) -> Result<bool, AllocError> {
    Ok(rows_between(alloc, effect, left, entered, spending)?.is_some())
}

/// Puts the rows over the variables, read before the step, into the list; whether some point may meet each.
fn push_all_before(
    alloc: Global,
    effect: &Effect,
    rows: &[Row],
    list: &mut Vec<Row>,
) -> Result<bool, AllocError> {
    let mut before = Vec::new(alloc);
    for row in rows {
        if let Some(row) = effect.before(alloc, row)? {
            before.push(row)?;
        }
    }
    push_all_strongest(alloc, &before, list)
}

/// The passage by the case of this number between two of the places, where there is one.
pub(crate) fn passage_between(
    steps: &Steps,
    places: &[Place],
    from: usize,
    number: usize,
    to: usize,
    spending: &mut Spending,
) -> Result<Option<Passage>, AllocError> {
    let (Some(left), Some(effect), Some(entered)) = (
        places.get(from),
        steps.effects.get(number),
        places.get(to),
    ) else {
        return Ok(None);
    };
    if left.location != effect.from
        || entered.location != effect.to
        || !entered.is_entered_by(number)
    {
        return Ok(None);
    }
    match rows_between(steps.alloc, effect, &left.rows, &entered.rows, spending)? {
        None => Ok(None),
        Some(rows) => Ok(Some(Passage {
            from,
            number,
            to,
            rows,
        })),
    }
}

/// Puts the passages by each case between two of the places at the end of the list.
fn push_between(
    steps: &Steps,
    places: &[Place],
    from: usize,
    to: usize,
    spending: &mut Spending,
    list: &mut Vec<Passage>,
) -> Result<(), AllocError> {
    for number in 0..steps.effects.len() {
        if let Some(passage) = passage_between(steps, places, from, number, to, spending)? {
            list.push(passage)?;
        }
    }
    Ok(())
}

/// The passages between the places; `None` where there are too many.
pub(crate) fn passages(
    steps: &Steps,
    places: &[Place],
    spending: &mut Spending,
) -> Result<Option<Vec<Passage>>, AllocError> {
    let mut list = Vec::new(steps.alloc);
    for from in 0..places.len() {
        for to in 0..places.len() {
            push_between(steps, places, from, to, spending, &mut list)?;
        }
    }
    Ok(if list.len() > PASSAGES {
        None
    } else {
        Some(list)
    })
}
