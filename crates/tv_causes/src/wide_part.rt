//! The parts of an expression that are too wide.

ghost use Rattle.std.specs.Prelude.{◌≡◌, ◌∷◌, [], ◌<◌, ◌-◌, ◌^◌, All, map, true, IfOk, IsTrue};
ghost use Rattle.tv_linear.specs.Arithmetic.{constant_row};
ghost use Rattle.tv_linear.specs.Linear.{columns};
ghost use Rattle.tv_program.specs.Views.{expression, expressions};
ghost use Rattle.tv_cases.specs.Comparisons.{own_form, has_form};
ghost use Rattle.tv_cases.specs.Linearity.{is_linear, are_linear};
ghost use Rattle.tv_causes.specs.Walks.{have_forms, all_forms, joined};
ghost use Rattle.tv_causes.specs.Widths.{parts, parts_of_all, TellsWide};

use crate::join::{Join, wide_join};
use std::alloc::{AllocError, Global};
use tv_cases::expression_form;
use tv_linear::{Row, is_narrow, push_item};
use tv_program::Expr;

/// The linear form of an expression that has one.
pub(crate) fn form_of(alloc: Global, expr: &Expr, variables: u32) -> Result<Row, AllocError>
    requires bounded { variables < 2 ^ 32 - 1 }
    requires linear { IsTrue (is_linear (expression expr.now)) }
    requires narrow { has_form variables (expression expr.now) ≡ true }
    ensures exact { IfOk result (λ row. row ≡ own_form variables (expression expr.now)) }
    ensures even { IfOk result (λ row. columns row ≡ variables) }
{
    match expression_form(alloc, expr, variables)? {
        Some(row) => Ok(row),
        None => unreachable!(),
    }
}

/// The linear forms of expressions that have them.
fn forms_of(alloc: Global, exprs: &[Expr], variables: u32) -> Result<Vec<Row>, AllocError>
    requires bounded { variables < 2 ^ 32 - 1 }
    requires linear { IsTrue (are_linear (expressions exprs.now)) }
    requires narrow { have_forms variables (expressions exprs.now) ≡ true }
    ensures exact { IfOk result (λ v. v.items ≡ all_forms variables exprs.now) }
    ensures even { IfOk result (λ v. All (λ r. columns r ≡ variables) v.items) }
{
    let mut rows = Vec::with_capacity(alloc, exprs.len())?;
    'exprs: for expr in exprs {
        let row = form_of(alloc, expr, variables)?;
        push_item(&mut rows, row)?;
    }
    Ok(rows)
}

/// The column of a number that is too wide: that of the constant.
fn wide_number(number: i128, variables: u32) -> Option<u32>
    ensures { TellsWide (constant_row variables number ∷ []) result }
{
    if is_narrow(number) {
        None
    } else {
        Some(variables)
    }
}

/// The first column at which the sum or product of expressions that have linear forms is too wide.
fn wide_whole(
    alloc: Global,
    join: Join,
    exprs: &[Expr],
    variables: u32,
) -> Result<Option<u32>, AllocError>
    requires bounded { variables < 2 ^ 32 - 1 }
    requires linear { IsTrue (are_linear (expressions exprs.now)) }
    requires narrow { have_forms variables (expressions exprs.now) ≡ true }
    ensures { IfOk result (TellsWide (joined join variables (all_forms variables exprs.now) ∷ [])) }
{
    let rows = forms_of(alloc, exprs, variables)?;
    Ok(wide_join(join, &rows, variables))
}

/// The first column at which the linear form of a part of an expression is too wide, each part after its own parts.
#[cycle(parts)]
pub(crate) fn wide_part(
    alloc: Global,
    expr: &Expr,
    variables: u32,
) -> Result<Option<u32>, AllocError>
    requires bounded { variables < 2 ^ 32 - 1 }
    requires linear { IsTrue (is_linear (expression expr.now)) }
    ensures { IfOk result (TellsWide (map (own_form variables) (parts (expression expr.now)))) }
{
    match expr {
        Expr::Number(number) => Ok(wide_number(*number, variables)),
        Expr::Variable(_) => Ok(None),
        Expr::Draw(_) => Ok(None),
        Expr::Minus(inner) => wide_part(alloc, inner, variables),
        Expr::Sum(exprs) => match wide_part_of(alloc, exprs, variables)? {
            Some(column) => Ok(Some(column)),
            None => wide_whole(alloc, Join::Sum, exprs, variables),
        },
        Expr::Product(exprs) => match wide_part_of(alloc, exprs, variables)? {
            Some(column) => Ok(Some(column)),
            None => wide_whole(alloc, Join::Product, exprs, variables),
        },
    }
}

/// The same of some expressions, in order.
#[cycle(parts)]
fn wide_part_of(alloc: Global, exprs: &[Expr], variables: u32) -> Result<Option<u32>, AllocError>
    requires bounded { variables < 2 ^ 32 - 1 }
    requires linear { IsTrue (are_linear (expressions exprs.now)) }
    ensures { IfOk result (TellsWide (map (own_form variables) (parts_of_all (expressions exprs.now)))) }
{
    'exprs: for expr in exprs {
        match wide_part(alloc, expr, variables)? {
            Some(column) => return Ok(Some(column)),
            None => {}
        }
    }
    Ok(None)
}
