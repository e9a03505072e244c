//! Linear forms of expressions.

ghost use Rattle.std.specs.Prelude.{◌≡◌, ◌+◌, ◌-◌, ◌^◌, ◌<◌, ◌≤◌, ◌&&◌, All, length, slice_index_or, pos, IfOk, IsTrue};
ghost use Rattle.tv_linear.specs.Linear.{Linear, columns};
ghost use Rattle.tv_program.specs.Trees.{sum, product};
ghost use Rattle.tv_program.specs.Views.{expression, expressions};
ghost use Rattle.tv_linear.specs.Arithmetic.{column_row, constant_row};
ghost use Rattle.tv_cases.specs.Forms.{form, form_is_narrow, is_narrow};
ghost use Rattle.tv_cases.specs.Given.{Gives};
ghost use Rattle.tv_cases.specs.Linearity.{is_linear};

use crate::fault::PartFault;
use crate::products::{Partial, multiplied};
use crate::rows::{column_row, known, number_row, one_row, opposite_row, sum_row};
use crate::terms::Terms;
use std::alloc::Global;
use tv_linear::{Row, Total};
use tv_program::Expr;

/// The linear form of an expression over the terms of the variables; the draws are the columns after the variables.
#[cycle(forms)]
pub(crate) fn form_of(
    alloc: Global,
    expr: &Expr,
    terms: &Terms,
    width: u32,
) -> Result<Row, PartFault>
    requires bounded { width < 2 ^ 32 - 1 }
    requires even { All (λ t. columns t ≡ width) terms.now }
    requires linear { IsTrue (is_linear (expression expr.now)) }
    ensures exact { let n = length terms.now in
        let e = expression expr.now in
        Gives (form_is_narrow n width terms.now e) (form n width terms.now e) result }
    ensures even { IfOk result (λ row. columns row ≡ width) }
{
    match expr {
        Expr::Number(number) => number_row(alloc, width, *number),
        Expr::Variable(variable) => variable_row(alloc, terms, *variable, width),
        Expr::Draw(draw) => draw_row(alloc, terms.len() as usize, *draw, width),
        Expr::Minus(inner) => match form_of(alloc, inner, terms, width) {
            Ok(row) => opposite_row(alloc, &row),
            Err(fault) => Err(fault),
        },
        Expr::Sum(parts) => sum_of(alloc, parts, terms, width),
        Expr::Product(parts) => product_of(alloc, parts, terms, width),
    }
}

#[cycle(forms)]
fn sum_of(alloc: Global, parts: &[Expr], terms: &Terms, width: u32) -> Result<Row, PartFault>
    requires bounded { width < 2 ^ 32 - 1 }
    requires even { All (λ t. columns t ≡ width) terms.now }
    requires linear { IsTrue (is_linear (sum (expressions parts.now))) }
    ensures exact { let n = length terms.now in
        let e = sum (expressions parts.now) in
        Gives (form_is_narrow n width terms.now e) (form n width terms.now e) result }
    ensures even { IfOk result (λ row. columns row ≡ width) }
{
    let mut total = Total::new(alloc, width)?;
    for part in parts {
        let row = match form_of(alloc, part, terms, width) {
            Ok(row) => row,
            Err(fault) => return Err(fault),
        };
        total.add(&row);
    }
    match sum_row(alloc, total)? {
        Some(row) => Ok(row),
        None => Err(PartFault::Wide),
    }
}

#[cycle(forms)]
fn product_of(alloc: Global, parts: &[Expr], terms: &Terms, width: u32) -> Result<Row, PartFault>
    requires bounded { width < 2 ^ 32 - 1 }
    requires even { All (λ t. columns t ≡ width) terms.now }
    requires linear { IsTrue (is_linear (product (expressions parts.now))) }
    ensures exact { let n = length terms.now in
        let e = product (expressions parts.now) in
        Gives (form_is_narrow n width terms.now e) (form n width terms.now e) result }
    ensures even { IfOk result (λ row. columns row ≡ width) }
{
    let mut total = match one_row(alloc, width) {
        Ok(row) => Partial::Narrow(row),
        Err(fault) => return Err(fault),
    };
    for part in parts {
        let row = match form_of(alloc, part, terms, width) {
            Ok(row) => row,
            Err(fault) => return Err(fault),
        };
        total = multiplied(alloc, total, &row)?;
    }
    match total {
        Partial::Narrow(row) => Ok(row),
        Partial::Wide(_) => Err(PartFault::Wide),
    }
}

/// The term of a variable, 0 where it is none of them.
fn variable_row(alloc: Global, terms: &Terms, variable: u32, width: u32) -> Result<Row, PartFault>
    requires bounded { width < 2 ^ 32 - 1 }
    requires even { All (λ t. columns t ≡ width) terms.now }
    ensures exact { let term = slice_index_or terms.now variable (constant_row width (pos 0)) in Gives (is_narrow term) term result }
    ensures even { IfOk result (λ row. columns row ≡ width) }
{
    match terms.get(alloc, variable)? {
        Some(term) => known(term),
        None => number_row(alloc, width, 0),
    }
}

/// The column of a draw, after the columns of the variables.
fn draw_row(alloc: Global, variables: usize, draw: u32, width: u32) -> Result<Row, PartFault>
    requires bounded { width < 2 ^ 32 - 1 }
    requires short { variables < 2 ^ 63 }
    ensures exact { Gives (is_narrow (column_row width (variables + draw))) (column_row width (variables + draw)) result }
    ensures even { IfOk result (λ row. columns row ≡ width) }
{
    let column = variables + draw as usize;
    if column < width as usize {
        column_row(alloc, width, column as u32)
    } else {
        number_row(alloc, width, 0)
    }
}
