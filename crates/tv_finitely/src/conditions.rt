//! A property of one state as a condition.

ghost use Rattle.std.specs.Prelude.{◌≡◌, IfOk};
ghost use Rattle.tv_program.specs.Views.{condition, conditions};
ghost use Rattle.tv_formula.specs.Views.{property, properties};
ghost use Rattle.tv_finitely.specs.Doubling.{condition_at, conditions_at};

use crate::copies::copy_of;
use std::alloc::{AllocError, Global};
use tv_formula::Tree;
use tv_program::Cond;

/// A property of one state as a condition at a location.
#[cycle(placing)]
pub(crate) fn condition_at(alloc: Global, location: u32, tree: &Tree) -> Result<Cond, AllocError>
    ensures { IfOk result (λ cond. condition cond ≡ condition_at location (property tree.now)) }
{
    match tree {
        Tree::Truth(holds) => Ok(Cond::Truth(*holds)),
        Tree::Compare(relation, left, right) => {
            let left = copy_of(alloc, left)?;
            let right = copy_of(alloc, right)?;
            Ok(Cond::Compare(*relation, left, right))
        }
        Tree::At(place) => Ok(Cond::Truth(location == *place)),
        Tree::Term => Ok(Cond::Truth(false)),
        Tree::Not(inner) => {
            let inner = condition_at(alloc, location, inner)?;
            Ok(Cond::Not(Box::new(alloc, inner)?))
        }
        Tree::And(parts) => Ok(Cond::And(conditions_at(alloc, location, parts)?)),
        Tree::Or(parts) => Ok(Cond::Or(conditions_at(alloc, location, parts)?)),
        Tree::Next(_, _) => Ok(Cond::Truth(false)),
        Tree::Fix(_, _, _, _) => Ok(Cond::Truth(false)),
    }
}

#[cycle(placing)]
fn conditions_at(alloc: Global, location: u32, parts: &[Tree]) -> Result<Vec<Cond>, AllocError>
    ensures { IfOk result (λ all. conditions all.items ≡ conditions_at location (properties parts.now)) }
{
    let mut all = Vec::new(alloc);
    for part in parts {
        all.push(condition_at(alloc, location, part)?)?;
    }
    Ok(all)
}
