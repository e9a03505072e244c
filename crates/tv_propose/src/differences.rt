// Differences of two variables as candidates.

ghost use Rattle.std.specs.Prelude.{◌≡◌, ◌<◌, ◌^◌, ◌-◌, Some, take, IfOk};
ghost use Rattle.tv_linear.specs.Linear.{IsWithin};
ghost use Rattle.tv_cases.specs.LinearCases.{CaseSystem};
ghost use Rattle.tv_propose.specs.DifferenceLists.{difference, difference_table, difference_candidates};
ghost use Rattle.tv_propose.specs.Walks.{rest_of};

use crate::proposer::Proposer;
use crate::table::Table;
use crate::walk::Walk;
use std::alloc::{AllocError, Global};
use tv_candidates::Candidate;
use tv_cases::Cases;
use tv_linear::Row;

/// The row `x - y + more` of two columns.
fn difference(alloc: Global, columns: u32, x: u32, y: u32, more: i64) -> Result<Row, AllocError>
    requires bounded { columns < 2 ^ 32 - 1 }
    requires x { x < columns }
    requires y { y < columns }
    requires different { x ≡ y → ⊥ }
    requires narrow { IsWithin 62 more }
    ensures { IfOk result (λ r. r ≡ difference columns x y more) }
{
    let first = Row::column(alloc, columns, x)?;
    let mut coefficients = Vec::from_slice(alloc, first.coefficients())?;
    coefficients[y as usize] = -1;
    Ok(Row::from_narrow(coefficients, more))
}

/// The differences: a group for each variable, and a place in it for each variable that is taken from it.
#[derive(Drop)]
struct DifferenceTable;

impl Table for DifferenceTable {
    ghost rows = { λ _ about. difference_table about };

    fn groups(&self, about: &Cases) -> usize {
        about.variables() as usize
    }

    fn places(&self, about: &Cases, _group: usize) -> usize {
        about.variables() as usize
    }

    fn row(&self, alloc: Global, about: &Cases, at: &Walk) -> Result<Option<Row>, AllocError> {
        if at.group == at.place || at.row > 2 {
            return Ok(None);
        }
        let more = i64::from(at.row) - 1;
        let columns = about.variables();
        let row = difference(alloc, columns, at.group as u32, at.place as u32, more)?;
        Ok(Some(row))
    }
}

/// Offers `x - y + c` for each ordered pair of different variables and each c of -1, 0 and 1, at each location.
#[derive(Drop)]
pub struct Differences {
    walk: Walk,
}

impl Differences {
    /// Offers at most `limit` candidates.
    pub fn new(limit: u64) -> Differences
        ensures left { ⟦<Differences as Proposer>⟧.left result ≡ limit }
        ensures rest { (about : CaseSystem) →
            ⟦<Differences as Proposer>⟧.rest result about ≡ Some (take limit (difference_candidates about)) }
    {
        Differences {
            walk: Walk::new(limit),
        }
    }
}

impl Proposer for Differences {
    ghost left = { λ s. s.walk.left };

    ghost rest = { λ s about. rest_of about (difference_table about) s.walk };

    fn left(&self) -> u64 {
        self.walk.left
    }

    fn next(&mut self, alloc: Global, about: &Cases) -> Result<Option<Candidate>, AllocError> {
        self.walk.next(alloc, about, &DifferenceTable)
    }
}
