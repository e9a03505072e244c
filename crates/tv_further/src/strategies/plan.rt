// What is done at the states of an area: one link for each of them.

use crate::areas::area::both;
use crate::strategies::link::Link;
use std::alloc::{AllocError, Global};
use tv_linear::{Row, copies};
use tv_walks::{Effort, denied, is_known};

/// What is done at some states.
#[derive(Drop)]
pub(crate) enum Plan {
    /// One plan where the row is met, and one where it is not.
    Split(Row, Box<Plan>, Box<Plan>),
    /// The link of the leaf at this place is taken.
    Take(usize),
}

/// Where a link is taken.
#[derive(Drop)]
pub(crate) struct Leaf {
    /// The place of the link.
    pub link: usize,
    /// What is met there: the rows of the area, and those of the splits above.
    pub known: Vec<Row>,
}

/// The links that are tried from an area, those first that are to be taken wherever they can be.
#[derive(Drop)]
pub(crate) struct Planner<'a> {
    pub alloc: Global,
    pub columns: usize,
    pub links: &'a [Link],
    /// The places of the links that are tried, in their order.
    pub options: &'a [usize],
}

/// Which option is looked at.
#[derive(Clone, Copy)]
struct Turn {
    option: usize,
    /// Whether it is known that it can be taken at some of the states.
    entered: bool,
}

impl Turn {
    /// The option, which can be taken at some of the states.
    fn entered(option: usize) -> Turn {
        Turn {
            option,
            entered: true,
        }
    }

    /// The option after this one.
    fn after(option: usize) -> Turn {
        Turn {
            option: option.saturating_add(1),
            entered: false,
        }
    }
}

/// What is done next.
#[derive(Drop)]
enum Next {
    /// No option is left.
    Hole,
    /// The link of the leaf is taken.
    Take(Leaf),
    /// The row of an option is met by some of the states, and by others it is not known to be.
    Split(Split),
}

/// Some states in two parts.
#[derive(Drop)]
struct Split {
    /// The option that the row belongs to.
    option: usize,
    row: Row,
    /// What is met where the row is, and what is met where it is not.
    met: Vec<Row>,
    other: Vec<Row>,
}

impl Planner<'_> {
    /// The link of an option, and its place.
    fn link_at(&self, option: usize) -> Option<(usize, &Link)> {
        let place = *self.options.get(option)?;
        Some((place, self.links.get(place)?))
    }

    /// The first option, from one on, that can be taken at some of the states.
    fn first_possible(
        &self,
        known: &[Row],
        from: usize,
        effort: &mut Effort,
    ) -> Result<Option<usize>, AllocError> {
        for option in from..self.options.len() {
            if let Some((_, link)) = self.link_at(option)
                && both(self.alloc, self.columns, known, &link.owed, effort)?.is_some()
            {
                return Ok(Some(option));
            }
        }
        Ok(None)
    }

    /// The first of the rows that is not known.
    fn first_open(
        &self,
        known: &[Row],
        rows: &[Row],
        effort: &mut Effort,
    ) -> Result<Option<Row>, AllocError> {
        for row in rows {
            if !is_known(self.alloc, known, row, self.columns, effort)? {
                return Ok(Some(row.copy(self.alloc)?));
            }
        }
        Ok(None)
    }

    /// The option of this turn that can be taken at some of the states.
    fn option_at(
        &self,
        known: &[Row],
        turn: Turn,
        effort: &mut Effort,
    ) -> Result<Option<usize>, AllocError> {
        if turn.entered {
            Ok(Some(turn.option))
        } else {
            self.first_possible(known, turn.option, effort)
        }
    }

    /// The states that meet these rows in two parts by a row of the option; there is nothing to do where its denial is too wide.
    fn split(&self, known: &[Row], option: usize, row: Row) -> Result<Next, AllocError> {
        let Some(denial) = denied(self.alloc, &row)? else {
            return Ok(Next::Hole);
        };
        let met = and_row(self.alloc, known, &row)?;
        let other = and_row(self.alloc, known, &denial)?;
        Ok(Next::Split(Split {
            option,
            row,
            met,
            other,
        }))
    }

    /// What is done next at the states that meet these rows.
    fn next(&self, known: Vec<Row>, turn: Turn, effort: &mut Effort) -> Result<Next, AllocError> {
        let Some(option) = self.option_at(&known, turn, effort)? else {
            return Ok(Next::Hole);
        };
        let Some((place, link)) = self.link_at(option) else {
            return Ok(Next::Hole);
        };
        match self.first_open(&known, &link.owed, effort)? {
            None => Ok(Next::Take(Leaf { link: place, known })),
            Some(row) => self.split(&known, option, row),
        }
    }
}

/// The rows and one more.
fn and_row(alloc: Global, rows: &[Row], row: &Row) -> Result<Vec<Row>, AllocError> {
    let mut more = copies(alloc, rows)?;
    more.push(row.copy(alloc)?)?;
    Ok(more)
}

/// The plan that takes the link of the leaf, which is put at the end of the list.
fn take_at(leaves: &mut Vec<Leaf>, leaf: Leaf) -> Result<Plan, AllocError> {
    let place = leaves.len();
    leaves.push(leaf)?;
    Ok(Plan::Take(place))
}

/// The plan of both parts.
fn split_by(alloc: Global, row: Row, holds: Plan, fails: Plan) -> Result<Plan, AllocError> {
    let holds = Box::new(alloc, holds)?;
    let fails = Box::new(alloc, fails)?;
    Ok(Plan::Split(row, holds, fails))
}

/// The plan at the states that meet these rows, with at most `left` splits on a path; `None` where some of them have no link.
fn plan_at(
    planner: &Planner,
    known: Vec<Row>,
    turn: Turn,
    left: u32,
    leaves: &mut Vec<Leaf>,
    effort: &mut Effort,
) -> Result<Option<Plan>, AllocError> {
    let Split {
        option,
        row,
        met,
        other,
    } = match planner.next(known, turn, effort)? {
        Next::Hole => return Ok(None),
        Next::Take(leaf) => return Ok(Some(take_at(leaves, leaf)?)),
        Next::Split(split) => split,
    };
    if left == 0 {
        return Ok(None);
    }
    let entered = Turn::entered(option);
    let Some(holds) = plan_at(planner, met, entered, left - 1, leaves, effort)? else {
        return Ok(None);
    };
    let after = Turn::after(option);
    match plan_at(planner, other, after, left - 1, leaves, effort)? {
        None => Ok(None),
        Some(fails) => Ok(Some(split_by(planner.alloc, row, holds, fails)?)),
    }
}

/// The plan of an area with these rows, whose leaves are put at the end of the list; `None` where some of its states have no link.
pub(crate) fn plan_of(
    planner: &Planner,
    rows: &[Row],
    splits: u32,
    leaves: &mut Vec<Leaf>,
    effort: &mut Effort,
) -> Result<Option<Plan>, AllocError> {
    let known = copies(planner.alloc, rows)?;
    plan_at(planner, known, Turn::entered(0), splits, leaves, effort)
}
