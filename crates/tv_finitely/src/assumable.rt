//! Whether a property can be assumed after an edge: it speaks of one state, and is not too deep.

ghost use Rattle.std.specs.Prelude.{◌≡◌, nat_le};
ghost use Rattle.tv_program.specs.Limits.{expression_depth, expressions_depth, condition_depth, conditions_depth};
ghost use Rattle.tv_program.specs.Views.{expression, expressions};
ghost use Rattle.tv_formula.specs.Forms.{is_local, are_local};
ghost use Rattle.tv_formula.specs.Views.{property, properties};
ghost use Rattle.tv_finitely.specs.Doubling.{condition_at, conditions_at};

use tv_formula::Tree;
use tv_program::Expr;

/// Whether the property speaks of one state.
#[cycle(local)]
pub(crate) fn is_local(tree: &Tree) -> bool
    ensures { result ≡ is_local (property tree.now) }
{
    match tree {
        Tree::Truth(_) => true,
        Tree::Compare(_, _, _) => true,
        Tree::At(_) => true,
        Tree::Term => false,
        Tree::Not(inner) => is_local(inner),
        Tree::And(parts) => are_local(parts),
        Tree::Or(parts) => are_local(parts),
        Tree::Next(_, _) => false,
        Tree::Fix(_, _, _, _) => false,
    }
}

#[cycle(local)]
fn are_local(parts: &[Tree]) -> bool
    ensures { result ≡ are_local (properties parts.now) }
{
    for part in parts {
        if !is_local(part) {
            return false;
        }
    }
    true
}

/// Whether the expression has at most `room` nodes on a path.
#[cycle(expression_room)]
fn is_expression_within(expr: &Expr, room: u32) -> bool
    ensures { result ≡ nat_le (expression_depth (expression expr.now)) room }
{
    if room == 0 {
        return false;
    }
    match expr {
        Expr::Number(_) => true,
        Expr::Variable(_) => true,
        Expr::Draw(_) => true,
        Expr::Minus(inner) => is_expression_within(inner, room - 1),
        Expr::Sum(parts) => are_expressions_within(parts, room - 1),
        Expr::Product(parts) => are_expressions_within(parts, room - 1),
    }
}

#[cycle(expression_room)]
fn are_expressions_within(parts: &[Expr], room: u32) -> bool
    ensures { result ≡ nat_le (expressions_depth (expressions parts.now)) room }
{
    for part in parts {
        if !is_expression_within(part, room) {
            return false;
        }
    }
    true
}

/// Whether the property has at most `room` nodes on a path, as a condition.
#[cycle(room)]
pub(crate) fn is_within(tree: &Tree, room: u32) -> bool
    ensures { result ≡ nat_le (condition_depth (condition_at 0 (property tree.now))) room }
{
    if room == 0 {
        return false;
    }
    match tree {
        Tree::Truth(_) => true,
        Tree::Compare(_, left, right) => {
            is_expression_within(left, room - 1) && is_expression_within(right, room - 1)
        }
        Tree::At(_) => true,
        Tree::Term => true,
        Tree::Not(inner) => is_within(inner, room - 1),
        Tree::And(parts) => are_within(parts, room - 1),
        Tree::Or(parts) => are_within(parts, room - 1),
        Tree::Next(_, _) => true,
        Tree::Fix(_, _, _, _) => true,
    }
}

#[cycle(room)]
fn are_within(parts: &[Tree], room: u32) -> bool
    ensures { result ≡ nat_le (conditions_depth (conditions_at 0 (properties parts.now))) room }
{
    for part in parts {
        if !is_within(part, room) {
            return false;
        }
    }
    true
}
