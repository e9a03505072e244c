//! The rows of a comparison that are too wide.

ghost use Rattle.std.specs.Prelude.{◌≡◌, ◌∷◌, [], ◌<◌, ◌-◌, ◌^◌, ◌&&◌, true, IfOk, IsTrue};
ghost use Rattle.tv_formula.specs.Properties.{compare};
ghost use Rattle.tv_linear.specs.Linear.{columns, IsWithin};
ghost use Rattle.tv_program.specs.Views.{expression};
ghost use Rattle.tv_cases.specs.Comparisons.{own_form, has_form};
ghost use Rattle.tv_cases.specs.Linearity.{is_linear};
ghost use Rattle.tv_cases.specs.Lists.{difference};
ghost use Rattle.tv_causes.specs.Walks.{TellsBoth};
ghost use Rattle.tv_causes.specs.Widths.{differences, TellsWide};

use crate::wide_part::{form_of, wide_part};
use std::alloc::{AllocError, Global};
use tv_linear::{Row, RowFault};
use tv_program::{Expr, Relation};

/// The first column at which the row of `left - right + less` is too wide before it is tightened.
fn wide_difference(
    alloc: Global,
    less: i128,
    left: &Row,
    right: &Row,
) -> Result<Option<u32>, AllocError>
    requires even { columns left.now ≡ columns right.now }
    requires small { IsWithin 62 less }
    ensures { IfOk result (TellsWide (difference less left.now right.now ∷ [])) }
{
    match Row::at_most(alloc, less, left, right) {
        Ok(_) => Ok(None),
        Err(RowFault::Wide { column }) => Ok(Some(column)),
        Err(RowFault::Memory) => Err(AllocError),
    }
}

/// The same of this row, and of the one with the sides exchanged.
fn wide_in_either(
    alloc: Global,
    less: i128,
    left: &Row,
    right: &Row,
) -> Result<Option<u32>, AllocError>
    requires even { columns left.now ≡ columns right.now }
    requires small { IsWithin 62 less }
    ensures { IfOk result (TellsWide (difference less left.now right.now ∷ difference less right.now left.now ∷ [])) }
{
    match wide_difference(alloc, less, left, right)? {
        Some(column) => Ok(Some(column)),
        None => wide_difference(alloc, less, right, left),
    }
}

/// The first column at which a row of a comparison of two terms is too wide before it is tightened.
fn wide_row(
    alloc: Global,
    relation: Relation,
    left: &Row,
    right: &Row,
) -> Result<Option<u32>, AllocError>
    requires { columns left.now ≡ columns right.now }
    ensures { IfOk result (TellsWide (differences relation left.now right.now)) }
{
    match relation {
        Relation::Less => wide_difference(alloc, 1, left, right),
        Relation::LessEqual => wide_difference(alloc, 0, left, right),
        Relation::Greater => wide_difference(alloc, 1, right, left),
        Relation::GreaterEqual => wide_difference(alloc, 0, right, left),
        Relation::Equal => wide_in_either(alloc, 0, left, right),
        Relation::NotEqual => wide_in_either(alloc, 1, left, right),
    }
}

/// The first column at which a row of a comparison is too wide, where no part of its sides is.
fn wide_between(
    alloc: Global,
    relation: Relation,
    left: &Expr,
    right: &Expr,
    variables: u32,
) -> Result<Option<u32>, AllocError>
    requires bounded { variables < 2 ^ 32 - 1 }
    requires linear { IsTrue (is_linear (expression left.now) && is_linear (expression right.now)) }
    requires left { has_form variables (expression left.now) ≡ true }
    requires right { has_form variables (expression right.now) ≡ true }
    ensures { let a = own_form variables (expression left.now) in
        let b = own_form variables (expression right.now) in
        IfOk result (TellsWide (differences relation a b)) }
{
    let left = form_of(alloc, left, variables)?;
    let right = form_of(alloc, right, variables)?;
    wide_row(alloc, relation, &left, &right)
}

/// The first column at which a part of a comparison, or a row of it before it is tightened, is too wide.
pub(crate) fn wide_comparison(
    alloc: Global,
    relation: Relation,
    left: &Expr,
    right: &Expr,
    variables: u32,
) -> Result<Option<u32>, AllocError>
    requires bounded { variables < 2 ^ 32 - 1 }
    requires linear { IsTrue (is_linear (expression left.now) && is_linear (expression right.now)) }
    ensures { let f = compare relation (expression left.now) (expression right.now) in IfOk result (TellsBoth variables (f ∷ [])) }
{
    match wide_part(alloc, left, variables)? {
        Some(column) => return Ok(Some(column)),
        None => {}
    }
    match wide_part(alloc, right, variables)? {
        Some(column) => return Ok(Some(column)),
        None => {}
    }
    wide_between(alloc, relation, left, right, variables)
}
