ghost use Rattle.std.specs.Prelude.{◌≡◌, ◌∷◌, ◌++◌, [], IfOk, map};
ghost use Rattle.tv_program.specs.Trees.{negated, compare, all_of, some_of};
ghost use Rattle.tv_program.specs.Views.{expression, condition};
ghost use Rattle.tv_language.specs.Conditions.{joined};

use crate::trees::Made;
use std::alloc::{AllocError, AllocFailed, Global};
use tv_program::{Cond, Relation};

/// A sum without a relation after it, or a part of a condition.
#[derive(Drop)]
pub enum Piece {
    Value(Made),
    Test(Cond),
}

pub fn comparison(relation: Relation, left: Made, right: Made) -> Cond
    ensures { condition result ≡ compare relation (expression left.expr) (expression right.expr) }
{
    Cond::Compare(relation, left.expr, right.expr)
}

pub fn negation(alloc: Global, cond: Cond) -> Result<Cond, AllocError>
    ensures { IfOk result (λ c. condition c ≡ negated (condition cond)) }
{
    Ok(Cond::Not(Box::new(alloc, cond)?))
}

pub fn conds_of(alloc: Global, cond: Cond) -> Result<Vec<Cond>, AllocFailed<Cond>>
    ensures { IfOk result (λ cs. map condition cs.items ≡ condition cond ∷ []) }
{
    let mut conds = Vec::new(alloc);
    conds.push(cond)?;
    Ok(conds)
}

pub fn add_cond(conds: Vec<Cond>, cond: Cond) -> Result<Vec<Cond>, AllocFailed<Cond>>
    ensures { IfOk result (λ cs. map condition cs.items ≡ map condition conds.items ++ condition cond ∷ []) }
{
    let mut conds = conds;
    conds.push(cond)?;
    Ok(conds)
}

pub fn all_of(conds: Vec<Cond>) -> Cond
    ensures { condition result ≡ joined all_of (map condition conds.items) }
{
    let mut conds = conds;
    if conds.len() == 1 {
        if let Some(cond) = conds.pop() {
            return cond;
        }
    }
    Cond::And(conds)
}

pub fn some_of(conds: Vec<Cond>) -> Cond
    ensures { condition result ≡ joined some_of (map condition conds.items) }
{
    let mut conds = conds;
    if conds.len() == 1 {
        if let Some(cond) = conds.pop() {
            return cond;
        }
    }
    Cond::Or(conds)
}
