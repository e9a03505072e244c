ghost use Rattle.std.specs.Prelude.{◌≡◌, ◌<◌, IfOk, IsTrue};
ghost use Rattle.tv_program.specs.Trees.{Expression};
ghost use Rattle.tv_program.specs.Views.{expression};
ghost use Rattle.tv_formula.specs.Forms.{is_normal};
ghost use Rattle.tv_formula.specs.Formulas.{property_of, variables_of, locations_of};
ghost use Rattle.tv_formula.specs.Normal.{opposite, other_path, other_shape, normal, negation, normals, negations};
ghost use Rattle.tv_formula.specs.Properties.{compare, negated, next, fix};
ghost use Rattle.tv_formula.specs.Views.{property, properties};

use crate::copies::copy_of;
use crate::formula::Formula;
use crate::tree::{Path, Shape, Tree};
use std::alloc::{AllocError, Global};
use tv_program::{Expr, Relation};

/// The relation that holds where the given one does not.
fn opposite(relation: Relation) -> Relation
    ensures { result ≡ opposite relation }
{
    match relation {
        Relation::Less => Relation::GreaterEqual,
        Relation::LessEqual => Relation::Greater,
        Relation::Greater => Relation::LessEqual,
        Relation::GreaterEqual => Relation::Less,
        Relation::Equal => Relation::NotEqual,
        Relation::NotEqual => Relation::Equal,
    }
}

fn other_path(path: Path) -> Path
    ensures { result ≡ other_path path }
{
    match path {
        Path::Every => Path::Any,
        Path::Any => Path::Every,
    }
}

/// The shape of the negation.
fn other_shape(shape: Shape) -> Shape
    ensures { result ≡ other_shape shape }
{
    match shape {
        Shape::Until => Shape::Release,
        Shape::Release => Shape::Until,
        Shape::Weak => Shape::Strong,
        Shape::Strong => Shape::Weak,
    }
}

/// A comparison of the same expressions.
fn compared(
    alloc: Global,
    relation: Relation,
    left: &Expr,
    right: &Expr,
) -> Result<Tree, AllocError>
    ensures { IfOk result (λ t. property t ≡ compare relation (expression left.now) (expression right.now)) }
{
    let left = copy_of(alloc, left)?;
    let right = copy_of(alloc, right)?;
    Ok(Tree::Compare(relation, left, right))
}

fn denied(alloc: Global, tree: Tree) -> Result<Tree, AllocError>
    ensures { IfOk result (λ t. property t ≡ negated (property tree)) }
{
    Ok(Tree::Not(Box::new(alloc, tree)?))
}

fn next(alloc: Global, path: Path, tree: Tree) -> Result<Tree, AllocError>
    ensures { IfOk result (λ t. property t ≡ next path (property tree)) }
{
    Ok(Tree::Next(path, Box::new(alloc, tree)?))
}

fn fixed_point(
    alloc: Global,
    path: Path,
    shape: Shape,
    first: Tree,
    second: Tree,
) -> Result<Tree, AllocError>
    ensures { IfOk result (λ t. property t ≡ fix path shape (property first) (property second)) }
{
    let first = Box::new(alloc, first)?;
    let second = Box::new(alloc, second)?;
    Ok(Tree::Fix(path, shape, first, second))
}

/// The negation of a tree, in normal form.
#[cycle(normal_forms)]
fn negation_of(alloc: Global, tree: &Tree) -> Result<Tree, AllocError>
    ensures { IfOk result (λ t. property t ≡ negation (property tree.now)) }
{
    match tree {
        Tree::Truth(holds) => Ok(Tree::Truth(!*holds)),
        Tree::Compare(relation, left, right) => compared(alloc, opposite(*relation), left, right),
        Tree::At(location) => denied(alloc, Tree::At(*location)),
        Tree::Term => denied(alloc, Tree::Term),
        Tree::Not(inner) => normal_of(alloc, inner),
        Tree::And(parts) => Ok(Tree::Or(negations_of(alloc, parts)?)),
        Tree::Or(parts) => Ok(Tree::And(negations_of(alloc, parts)?)),
        Tree::Next(path, inner) => {
            let inner = negation_of(alloc, inner)?;
            next(alloc, other_path(*path), inner)
        }
        Tree::Fix(path, shape, first, second) => {
            let first = negation_of(alloc, first)?;
            let second = negation_of(alloc, second)?;
            fixed_point(alloc, other_path(*path), other_shape(*shape), first, second)
        }
    }
}

#[cycle(normal_forms)]
fn negations_of(alloc: Global, parts: &[Tree]) -> Result<Vec<Tree>, AllocError>
    ensures { IfOk result (λ ts. properties ts.items ≡ negations (properties parts.now)) }
{
    let mut all = Vec::new(alloc);
    for part in parts {
        all.push(negation_of(alloc, part)?)?;
    }
    Ok(all)
}

/// The normal form of a tree.
#[cycle(normal_forms)]
fn normal_of(alloc: Global, tree: &Tree) -> Result<Tree, AllocError>
    ensures { IfOk result (λ t. property t ≡ normal (property tree.now)) }
{
    match tree {
        Tree::Truth(holds) => Ok(Tree::Truth(*holds)),
        Tree::Compare(relation, left, right) => compared(alloc, *relation, left, right),
        Tree::At(location) => Ok(Tree::At(*location)),
        Tree::Term => Ok(Tree::Term),
        Tree::Not(inner) => negation_of(alloc, inner),
        Tree::And(parts) => Ok(Tree::And(normals_of(alloc, parts)?)),
        Tree::Or(parts) => Ok(Tree::Or(normals_of(alloc, parts)?)),
        Tree::Next(path, inner) => {
            let inner = normal_of(alloc, inner)?;
            next(alloc, *path, inner)
        }
        Tree::Fix(path, shape, first, second) => {
            let first = normal_of(alloc, first)?;
            let second = normal_of(alloc, second)?;
            fixed_point(alloc, *path, *shape, first, second)
        }
    }
}

#[cycle(normal_forms)]
fn normals_of(alloc: Global, parts: &[Tree]) -> Result<Vec<Tree>, AllocError>
    ensures { IfOk result (λ ts. properties ts.items ≡ normals (properties parts.now)) }
{
    let mut all = Vec::new(alloc);
    for part in parts {
        all.push(normal_of(alloc, part)?)?;
    }
    Ok(all)
}

/// The normal form: `!` is pushed inwards, up to location tests and `term`.
///
/// Where it holds, the formula holds (`tv_meaning::normal_implies`).
pub fn normal(alloc: Global, formula: &Formula) -> Result<Formula, AllocError>
    ensures gives { IfOk result (λ f. property_of f ≡ normal (property_of formula.now)) }
    ensures is_normal { IfOk result (λ f. IsTrue (is_normal (property_of f))) }
    ensures variables { IfOk result (λ f. variables_of f ≡ variables_of formula.now) }
    ensures locations { IfOk result (λ f. locations_of f ≡ locations_of formula.now) }
{
    let tree = normal_of(alloc, formula.tree())?;
    Ok(Formula::new(tree, formula.variables(), formula.locations()))
}

/// The negation, in normal form.
///
/// It holds at no state at which the formula holds (`tv_meaning::negation_excludes`).
pub fn negate(alloc: Global, formula: &Formula) -> Result<Formula, AllocError>
    ensures gives { IfOk result (λ f. property_of f ≡ negation (property_of formula.now)) }
    ensures is_normal { IfOk result (λ f. IsTrue (is_normal (property_of f))) }
    ensures variables { IfOk result (λ f. variables_of f ≡ variables_of formula.now) }
    ensures locations { IfOk result (λ f. locations_of f ≡ locations_of formula.now) }
{
    let tree = negation_of(alloc, formula.tree())?;
    Ok(Formula::new(tree, formula.variables(), formula.locations()))
}
