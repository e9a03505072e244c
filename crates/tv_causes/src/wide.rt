//! Comparisons of formulas that are too wide.

ghost use Rattle.std.specs.Prelude.{◌++◌, ◌<◌, ◌-◌, ◌^◌, IfOk};
ghost use Rattle.tv_formula.specs.Formulas.{property_of};
ghost use Rattle.tv_formula.specs.Views.{property, properties};
ghost use Rattle.tv_known.specs.Subformulas.{subformulas, all_subformulas};
ghost use Rattle.tv_causes.specs.Widths.{IsLinear, AreLinear, TellsRows};
ghost use Rattle.tv_causes.specs.Walks.{TellsBoth};

use crate::wide_comparison::wide_comparison;
use std::alloc::{AllocError, Global};
use tv_formula::{Formula, Tree};

/// The first column that is too wide, of the comparisons among the subformulas of a formula.
#[cycle(comparisons)]
fn wide_in(alloc: Global, tree: &Tree, variables: u32) -> Result<Option<u32>, AllocError>
    requires bounded { variables < 2 ^ 32 - 1 }
    requires linear { IsLinear (property tree.now) }
    ensures { IfOk result (TellsBoth variables (subformulas (property tree.now))) }
{
    match tree {
        Tree::Truth(_) => Ok(None),
        Tree::Compare(relation, left, right) => {
            wide_comparison(alloc, *relation, left, right, variables)
        }
        Tree::At(_) => Ok(None),
        Tree::Term => Ok(None),
        Tree::Not(_) => Ok(None),
        Tree::And(parts) => wide_in_all(alloc, parts, variables),
        Tree::Or(parts) => wide_in_all(alloc, parts, variables),
        Tree::Next(_, inner) => wide_in(alloc, inner, variables),
        Tree::Fix(_, _, first, second) => match wide_in(alloc, first, variables)? {
            Some(column) => Ok(Some(column)),
            None => wide_in(alloc, second, variables),
        },
    }
}

/// The same of some formulas, in order.
#[cycle(comparisons)]
fn wide_in_all(alloc: Global, trees: &[Tree], variables: u32) -> Result<Option<u32>, AllocError>
    requires bounded { variables < 2 ^ 32 - 1 }
    requires linear { AreLinear (properties trees.now) }
    ensures { IfOk result (TellsBoth variables (all_subformulas (properties trees.now))) }
{
    'trees: for tree in trees {
        match wide_in(alloc, tree, variables)? {
            Some(column) => return Ok(Some(column)),
            None => {}
        }
    }
    Ok(None)
}

/// The first column that is too wide, of the comparisons of a property's normal form and of its negation over some variables: of the
/// linear form of a part, each part after its own parts, or of a row before it is tightened. The constant has the column after those of
/// the variables. `None` where each comparison has rows.
pub fn wide_column(
    alloc: Global,
    proved: &Formula,
    denied: &Formula,
    variables: u32,
) -> Result<Option<u32>, AllocError>
    requires { variables < 2 ^ 32 - 1 }
    ensures { let fs = subformulas (property_of proved.now) ++ subformulas (property_of denied.now) in IfOk result (TellsRows variables fs) }
{
    match wide_in(alloc, proved.tree(), variables)? {
        Some(column) => Ok(Some(column)),
        None => wide_in(alloc, denied.tree(), variables),
    }
}
