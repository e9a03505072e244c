// The guards of the cases as candidates.

ghost use Rattle.std.specs.Prelude.{◌≡◌, ◌≤◌, Some, take, drop, map, IfOk};
ghost use Rattle.tv_linear.specs.Linear.{columns as width};
ghost use Rattle.tv_cases.specs.LinearCases.{CaseSystem};
ghost use Rattle.tv_propose.specs.GuardLists.{has_no_draw, over_variables, guard_at, denial_at, guard_table, guard_candidates};
ghost use Rattle.tv_propose.specs.Walks.{rest_of};

use crate::proposer::Proposer;
use crate::table::Table;
use crate::walk::Walk;
use std::alloc::{AllocError, Global};
use tv_candidates::Candidate;
use tv_cases::{Cases, is_zero};
use tv_linear::{Row, is_narrow};

/// Whether each coefficient after those of the variables is 0.
fn has_no_draw(row: &Row, variables: u32) -> bool
    requires { variables ≤ width row.now }
    ensures { result ≡ has_no_draw variables row.now }
{
    let (_, draws) = row.coefficients().split_at(variables as usize);
    draws.iter().all(|number| is_zero(i128::from(*number)))
}

/// The row without the coefficients after those of the variables.
fn over_variables(alloc: Global, row: &Row, variables: u32) -> Result<Row, AllocError>
    requires { variables ≤ width row.now }
    ensures { IfOk result (λ r. r ≡ over_variables variables row.now) }
{
    let (coefficients, _) = row.coefficients().split_at(variables as usize);
    Row::from_narrow(Vec::from_slice(alloc, coefficients)?, 0).with_constant(alloc, row.constant())
}

/// The guard, where it has no draw.
fn guard_at(alloc: Global, row: &Row, variables: u32) -> Result<Option<Row>, AllocError>
    requires { variables ≤ width row.now }
    ensures { IfOk result (λ r. r ≡ guard_at variables row.now) }
{
    if !has_no_draw(row, variables) {
        return Ok(None);
    }
    Ok(Some(over_variables(alloc, row, variables)?))
}

/// The denial of the guard, where it has no draw and the denial is narrow.
fn denial_at(alloc: Global, row: &Row, variables: u32) -> Result<Option<Row>, AllocError>
    requires { variables ≤ width row.now }
    ensures { IfOk result (λ r. r ≡ denial_at variables row.now) }
{
    let constant = 1 - row.constant();
    if !has_no_draw(row, variables) || !is_narrow(constant) {
        return Ok(None);
    }
    let opposite = over_variables(alloc, row, variables)?.opposite(alloc)?;
    Ok(Some(opposite.with_constant(alloc, constant)?))
}

/// The guards of the cases: a group for each case, and a place for each guard.
#[derive(Drop)]
struct GuardTable;

impl Table for GuardTable {
    ghost rows = { λ _ about. guard_table about };

    fn groups(&self, about: &Cases) -> usize {
        about.list().len()
    }

    fn places(&self, about: &Cases, group: usize) -> usize {
        about.list()[group].guards.rows.len()
    }

    fn row(&self, alloc: Global, about: &Cases, at: &Walk) -> Result<Option<Row>, AllocError> {
        let variables = about.variables();
        let guards: &[Row] = &about.list()[at.group].guards.rows;
        let guard = &guards[at.place];
        match at.row {
            0 => guard_at(alloc, guard, variables),
            1 => denial_at(alloc, guard, variables),
            _ => Ok(None),
        }
    }
}

/// Offers each guard of a case that has no draw, and its denial where that is narrow, at each location.
#[derive(Drop)]
pub struct GuardRows {
    walk: Walk,
}

impl GuardRows {
    /// Offers at most `limit` candidates.
    pub fn new(limit: u64) -> GuardRows
        ensures left { ⟦<GuardRows as Proposer>⟧.left result ≡ limit }
        ensures rest { (about : CaseSystem) →
            ⟦<GuardRows as Proposer>⟧.rest result about ≡ Some (take limit (guard_candidates about)) }
    {
        GuardRows {
            walk: Walk::new(limit),
        }
    }
}

impl Proposer for GuardRows {
    ghost left = { λ s. s.walk.left };

    ghost rest = { λ s about. rest_of about (guard_table about) s.walk };

    fn left(&self) -> u64 {
        self.walk.left
    }

    fn next(&mut self, alloc: Global, about: &Cases) -> Result<Option<Candidate>, AllocError> {
        self.walk.next(alloc, about, &GuardTable)
    }
}
