// Bounds of the variables as candidates.

ghost use Rattle.std.specs.Prelude.{◌≡◌, ◌<◌, ◌^◌, ◌-◌, Some, take, IfOk};
ghost use Rattle.tv_linear.specs.Linear.{IsWithin};
ghost use Rattle.tv_cases.specs.LinearCases.{CaseSystem};
ghost use Rattle.tv_propose.specs.BoundLists.{upper_bound, lower_bound, bound_table, bound_candidates};
ghost use Rattle.tv_propose.specs.Told.{told_constants};
ghost use Rattle.tv_propose.specs.Walks.{rest_of};

use crate::constants::Constants;
use crate::proposer::Proposer;
use crate::table::Table;
use crate::walk::Walk;
use std::alloc::{AllocError, Global};
use tv_candidates::Candidate;
use tv_cases::Cases;
use tv_linear::Row;

/// The row `x - bound` of a column.
fn upper_bound(alloc: Global, columns: u32, x: u32, bound: i128) -> Result<Row, AllocError>
    requires bounded { columns < 2 ^ 32 - 1 }
    requires x { x < columns }
    requires narrow { IsWithin 62 bound }
    ensures { IfOk result (λ r. r ≡ upper_bound columns x bound) }
{
    Row::column(alloc, columns, x)?.with_constant(alloc, -bound)
}

/// The row `-x + bound` of a column.
fn lower_bound(alloc: Global, columns: u32, x: u32, bound: i128) -> Result<Row, AllocError>
    requires bounded { columns < 2 ^ 32 - 1 }
    requires x { x < columns }
    requires narrow { IsWithin 62 bound }
    ensures { IfOk result (λ r. r ≡ lower_bound columns x bound) }
{
    Row::column(alloc, columns, x)?
        .opposite(alloc)?
        .with_constant(alloc, bound)
}

/// The bounds: a group for each variable, and a place for each constant.
#[derive(Drop)]
struct BoundTable<'a> {
    constants: &'a Constants,
}

impl Table for BoundTable<'_> {
    ghost rows = { λ s about. bound_table about s.constants.now.numbers.items };

    fn groups(&self, about: &Cases) -> usize {
        about.variables() as usize
    }

    fn places(&self, _about: &Cases, _group: usize) -> usize {
        self.constants.numbers.len()
    }

    fn row(&self, alloc: Global, about: &Cases, at: &Walk) -> Result<Option<Row>, AllocError> {
        let columns = about.variables();
        let variable = at.group as u32;
        let bound = self.constants.numbers[at.place];
        match at.row {
            0 => Ok(Some(upper_bound(alloc, columns, variable, bound)?)),
            1 => Ok(Some(lower_bound(alloc, columns, variable, bound)?)),
            _ => Ok(None),
        }
    }
}

/// Offers `x - c` and `-x + c` for each variable and each c of 0, the constants of guards and updates and their negatives, at each
/// location.
#[derive(Drop)]
pub struct Bounds {
    walk: Walk,
    /// The constants, once they were asked for.
    constants: Option<Constants>,
}

impl Bounds {
    /// Offers at most `limit` candidates.
    pub fn new(limit: u64) -> Bounds
        ensures left { ⟦<Bounds as Proposer>⟧.left result ≡ limit }
        ensures rest { (about : CaseSystem) →
            ⟦<Bounds as Proposer>⟧.rest result about ≡ Some (take limit (bound_candidates about)) }
    {
        Bounds {
            walk: Walk::new(limit),
            constants: None,
        }
    }
}

impl Proposer for Bounds {
    ghost left = { λ s. s.walk.left };

    ghost rest = { λ s about. rest_of about (bound_table about (told_constants s.constants about)) s.walk };

    fn left(&self) -> u64 {
        self.walk.left
    }

    fn next(&mut self, alloc: Global, about: &Cases) -> Result<Option<Candidate>, AllocError> {
        if self.walk.left == 0 {
            return Ok(None);
        }
        let constants = match self.constants.take() {
            Some(constants) => constants,
            None => Constants::new(alloc, about)?,
        };
        let table = BoundTable {
            constants: &constants,
        };
        let found = self.walk.next(alloc, about, &table);
        self.constants = Some(constants);
        found
    }
}
