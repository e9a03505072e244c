// The comparisons of a formula that have no rows.

ghost use Rattle.std.specs.Prelude.{ℕ, ◌-◌, ◌^◌, ◌<◌, ◌&&◌, List, [], ◌∷◌, ◌++◌, IsTrue, IfOk};
ghost use Rattle.tv_formula.specs.Properties.{Property, compare};
ghost use Rattle.tv_formula.specs.Views.{property, properties};
ghost use Rattle.tv_program.specs.Views.{expression};
ghost use Rattle.tv_cases.specs.Linearity.{is_linear};
ghost use Rattle.tv_known.specs.Subformulas.{subformulas, all_subformulas};
ghost use Rattle.tv_pre.specs.Wide.{IsLinear, AreLinear, AreTold};

use crate::gap::added;
use std::alloc::{AllocError, Global};
use tv_cases::comparison_lists;
use tv_formula::Tree;
use tv_program::{Expr, Relation};

/// What the comparisons among some subformulas are.
#[derive(Drop)]
pub(crate) enum Comparisons {
    /// Each has rows. `size` is the number of the subformulas.
    HaveRows { size: u32 },
    /// The first one that has none, since a number of its parts or rows is too wide, is the subformula with this number.
    Wide { place: u32 },
}

/// The comparisons among subformulas and those after them.
fn joined(front: Comparisons, back: Comparisons) -> Result<Comparisons, AllocError>
    ensures { (n : ℕ) (xs ys : List Property) → AreTold n xs front → AreTold n ys back → IfOk result (AreTold n (xs ++ ys)) }
{
    let count = match front {
        Comparisons::Wide { place } => return Ok(Comparisons::Wide { place }),
        Comparisons::HaveRows { size } => size,
    };
    match back {
        Comparisons::HaveRows { size } => {
            let size = added(count, size)?;
            Ok(Comparisons::HaveRows { size })
        }
        Comparisons::Wide { place } => {
            let place = added(count, place)?;
            Ok(Comparisons::Wide { place })
        }
    }
}

/// Whether the comparison has rows.
fn of_comparison(
    alloc: Global,
    relation: Relation,
    left: &Expr,
    right: &Expr,
    variables: u32,
) -> Result<Comparisons, AllocError>
    requires bounded { variables < 2 ^ 32 - 1 }
    requires linear { IsTrue (is_linear (expression left.now) && is_linear (expression right.now)) }
    ensures { let f = compare relation (expression left.now) (expression right.now) in
        IfOk result (AreTold variables (f ∷ [])) }
{
    let lists = comparison_lists(alloc, relation, left, right, variables)?;
    if lists.is_empty() {
        Ok(Comparisons::Wide { place: 0 })
    } else {
        Ok(Comparisons::HaveRows { size: 1 })
    }
}

/// The comparisons among the subformulas of a formula.
#[cycle(comparisons)]
pub(crate) fn comparisons_of(
    alloc: Global,
    tree: &Tree,
    variables: u32,
) -> Result<Comparisons, AllocError>
    requires bounded { variables < 2 ^ 32 - 1 }
    requires linear { IsLinear (property tree.now) }
    ensures { IfOk result (AreTold variables (subformulas (property tree.now))) }
{
    let itself = Comparisons::HaveRows { size: 1 };
    match tree {
        Tree::Truth(_) => Ok(itself),
        Tree::Compare(relation, left, right) => {
            of_comparison(alloc, *relation, left, right, variables)
        }
        Tree::At(_) => Ok(itself),
        Tree::Term => Ok(itself),
        Tree::Not(_) => Ok(itself),
        Tree::And(parts) => joined(itself, comparisons_of_all(alloc, parts, variables)?),
        Tree::Or(parts) => joined(itself, comparisons_of_all(alloc, parts, variables)?),
        Tree::Next(_, inner) => joined(itself, comparisons_of(alloc, inner, variables)?),
        Tree::Fix(_, _, first, second) => {
            let first = comparisons_of(alloc, first, variables)?;
            let second = comparisons_of(alloc, second, variables)?;
            joined(itself, joined(first, second)?)
        }
    }
}

/// The comparisons among the subformulas of some formulas, in order.
#[cycle(comparisons)]
fn comparisons_of_all(
    alloc: Global,
    trees: &[Tree],
    variables: u32,
) -> Result<Comparisons, AllocError>
    requires bounded { variables < 2 ^ 32 - 1 }
    requires linear { AreLinear (properties trees.now) }
    ensures { IfOk result (AreTold variables (all_subformulas (properties trees.now))) }
{
    let mut told = Comparisons::HaveRows { size: 0 };
    'trees: for tree in trees {
        let more = comparisons_of(alloc, tree, variables)?;
        told = joined(told, more)?;
    }
    Ok(told)
}
