ghost use Rattle.std.specs.Prelude.{◌≡◌, ◌∷◌, ◌++◌, [], IfOk, map};
ghost use Rattle.tv_program.specs.Views.{expression};
ghost use Rattle.tv_formula.specs.Properties.{compare, negated, all_of, some_of, fix};
ghost use Rattle.tv_formula.specs.Views.{property};
ghost use Rattle.tv_formula_reader.specs.FormulaTexts.{joined};
ghost use Rattle.tv_formula_reader.specs.Operators.{applied};

use crate::operators::Single;
use std::alloc::{AllocError, AllocFailed, Global};
use tv_formula::{Path, Shape, Tree};
use tv_program::{Expr, Relation};

pub fn compared(relation: Relation, left: Expr, right: Expr) -> Tree
    ensures { property result ≡ compare relation (expression left) (expression right) }
{
    Tree::Compare(relation, left, right)
}

pub fn negation(alloc: Global, tree: Tree) -> Result<Tree, AllocError>
    ensures { IfOk result (λ t. property t ≡ negated (property tree)) }
{
    Ok(Tree::Not(Box::new(alloc, tree)?))
}

pub fn fixed_point(
    alloc: Global,
    path: Path,
    shape: Shape,
    first: Tree,
    second: Tree,
) -> Result<Tree, AllocError>
    ensures { IfOk result (λ t. property t ≡ fix path shape (property first) (property second)) }
{
    let first = Box::new(alloc, first)?;
    let second = Box::new(alloc, second)?;
    Ok(Tree::Fix(path, shape, first, second))
}

/// An operator of one argument; `F` and `G` are short for operators of two.
pub fn applied(alloc: Global, path: Path, single: Single, tree: Tree) -> Result<Tree, AllocError>
    ensures { IfOk result (λ t. property t ≡ applied path single (property tree)) }
{
    match single {
        Single::Successor => Ok(Tree::Next(path, Box::new(alloc, tree)?)),
        Single::Finally => fixed_point(alloc, path, Shape::Until, Tree::Truth(true), tree),
        Single::Globally => fixed_point(alloc, path, Shape::Weak, tree, Tree::Truth(false)),
    }
}

pub fn trees_of(alloc: Global, tree: Tree) -> Result<Vec<Tree>, AllocFailed<Tree>>
    ensures { IfOk result (λ ts. map property ts.items ≡ property tree ∷ []) }
{
    let mut trees = Vec::new(alloc);
    trees.push(tree)?;
    Ok(trees)
}

pub fn add_tree(trees: Vec<Tree>, tree: Tree) -> Result<Vec<Tree>, AllocFailed<Tree>>
    ensures { IfOk result (λ ts. map property ts.items ≡ map property trees.items ++ property tree ∷ []) }
{
    let mut trees = trees;
    trees.push(tree)?;
    Ok(trees)
}

pub fn all_of(trees: Vec<Tree>) -> Tree
    ensures { property result ≡ joined all_of (map property trees.items) }
{
    let mut trees = trees;
    if trees.len() == 1 {
        if let Some(tree) = trees.pop() {
            return tree;
        }
    }
    Tree::And(trees)
}

pub fn some_of(trees: Vec<Tree>) -> Tree
    ensures { property result ≡ joined some_of (map property trees.items) }
{
    let mut trees = trees;
    if trees.len() == 1 {
        if let Some(tree) = trees.pop() {
            return tree;
        }
    }
    Tree::Or(trees)
}
