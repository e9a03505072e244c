// The covers of steps into pieces by signs, and of the start by them.

ghost use Rattle.std.specs.Prelude.{◌≡◌, ◌+◌, ◌-◌, ◌^◌, ◌<◌, ◌≤◌, All, length, IfOk};
ghost use Rattle.std.specs.Result.{IfErr};
ghost use Rattle.tv_linear.specs.Linear.{columns as width};
ghost use Rattle.tv_cases.specs.Before.{AreRowsBefore};
ghost use Rattle.tv_cases.specs.Views.{case_view};
ghost use Rattle.tv_lexrank.specs.declared.shown.CaseShown.TheVariants.{Falls};
ghost use Rattle.tv_nested.specs.Steps.{ShowsSignStep, IsSignStart, RefusesSignStep};

use crate::NestFault;
use crate::splitting::split_tree;
use std::alloc::{AllocError, Global};
use tv_cases::{Case, all_before};
use tv_farkas::CoverFault;
use tv_lexrank::{CaseShown, Fall};
use tv_linear::{CoverTree, Row, RowFault};

/// The signs, read over the values before a case.
fn signs_before(
    alloc: Global,
    signs: &[Row],
    case: &Case,
    variables: u32,
) -> Result<Vec<Row>, NestFault>
    requires bounded { variables + case.now.draws < 2 ^ 32 - 1 }
    requires terms { All (λ u. width u.term ≡ variables + case.now.draws) (case_view case.now).updates }
    requires even { All (λ r. width r ≡ variables) signs.now }
    ensures rows { IfOk result (λ v. AreRowsBefore (case_view case.now) signs.now v.items) }
    ensures refusals { IfErr result (RefusesSignStep (case_view case.now) signs.now) }
{
    match all_before(alloc, signs, case, variables) {
        Ok(all) => Ok(all),
        Err(RowFault::Wide { column }) => Err(NestFault::Cover {
            fault: CoverFault::Wide { column },
        }),
        Err(RowFault::Memory) => Err(NestFault::Memory),
    }
}

/// The cover of a step over a case by which the ranks fall so.
fn falling_tree(
    alloc: Global,
    case: &Case,
    variables: u32,
    signs: &[Row],
    before: usize,
    fall: &Fall,
) -> Result<CoverTree, NestFault>
    requires bounded { variables + case.now.draws < 2 ^ 32 - 1 }
    requires terms { All (λ u. width u.term ≡ variables + case.now.draws) (case_view case.now).updates }
    requires even { All (λ r. width r ≡ variables) signs.now }
    requires few { length signs.now ≤ 4 }
    requires small { before ≤ 4 }
    ensures shows { IfOk result (ShowsSignStep variables (case_view case.now) signs.now before (Falls fall.now)) }
    ensures refusals { IfErr result (RefusesSignStep (case_view case.now) signs.now) }
{
    let rows = match signs_before(alloc, signs, case, variables) {
        Ok(rows) => rows,
        Err(fault) => return Err(fault),
    };
    let guards: &[Row] = &case.guards.rows;
    match split_tree(alloc, &rows, before + guards.len(), fall) {
        Ok(tree) => Ok(tree),
        Err(_) => Err(NestFault::Memory),
    }
}

/// The cover of a step over a case into the pieces by these signs, by what shows the case where `before` rows are known.
pub fn step_tree(
    alloc: Global,
    case: &Case,
    variables: u32,
    signs: &[Row],
    before: usize,
    shown: &CaseShown,
) -> Result<CoverTree, NestFault>
    requires bounded { variables + case.now.draws < 2 ^ 32 - 1 }
    requires terms { All (λ u. width u.term ≡ variables + case.now.draws) (case_view case.now).updates }
    requires even { All (λ r. width r ≡ variables) signs.now }
    requires few { length signs.now ≤ 4 }
    requires small { before ≤ 4 }
    ensures shows { IfOk result (ShowsSignStep variables (case_view case.now) signs.now before shown.now) }
    ensures refusals { IfErr result (RefusesSignStep (case_view case.now) signs.now) }
{
    match shown {
        CaseShown::Untaken(multipliers) => {
            let refuted = Vec::from_slice(alloc, multipliers)?;
            Ok(CoverTree::Empty(refuted))
        }
        CaseShown::Falls(fall) => falling_tree(alloc, case, variables, signs, before, fall),
    }
}

/// A cover of all values by the pieces by these signs, into which no fall is owed.
pub fn start_tree(alloc: Global, variables: u32, signs: &[Row]) -> Result<CoverTree, AllocError>
    requires even { All (λ r. width r ≡ variables) signs.now }
    requires few { length signs.now ≤ 4 }
    ensures { IfOk result (IsSignStart variables signs.now) }
{
    let _variables = variables;
    let none = Fall {
        number: 0,
        lines: Vec::new(alloc),
    };
    let tree = split_tree(alloc, signs, 0, &none)?;
    Ok(tree)
}
