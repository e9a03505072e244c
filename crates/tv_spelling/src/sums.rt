//! Expressions.

ghost use Rattle.std.specs.Prelude.{◌≡◌, ◌++◌, ◌≤◌, true, IfOk, OnOk, IsTrue, length};
ghost use Rattle.tv_program.specs.Limits.{expression_depth};
ghost use Rattle.tv_program.specs.Views.{expression, expressions};
ghost use Rattle.tv_spelling.specs.Named.{are_named};
ghost use Rattle.tv_spelling.specs.ReadAgain.{IsSumAgain, IsSumReadAgain};
ghost use Rattle.tv_spelling.specs.Sums.{in_brackets, is_sum, is_product, as_part, as_factor, expression_text, sum_text, product_text, further_part_text, further_factors_text};

use crate::writing::{append_name, append_number, append_text};
use std::alloc::{AllocError, Global};
use tv_program::{Expr, Names};

fn is_sum(expr: &Expr) -> bool
    ensures { result ≡ is_sum (expression expr.now) }
{
    matches!(expr, Expr::Sum(_))
}

fn is_product(expr: &Expr) -> bool
    ensures { result ≡ is_product (expression expr.now) }
{
    matches!(expr, Expr::Product(_))
}

/// The text of an expression is added, without brackets round the whole.
///
/// A draw is written as `nondet()`, a negative number with its sign. Where memory runs out, a prefix of it may have been added.
#[cycle(sums)]
pub fn append_sum(
    alloc: Global,
    out: &mut Vec<u8>,
    expr: &Expr,
    names: &Names,
) -> Result<(), AllocError>
    ensures { OnOk result (out.new.items ≡ out.old.items ++ expression_text names.now (expression expr.now)) }
{
    match expr {
        Expr::Number(number) => append_number(alloc, out, *number),
        Expr::Variable(variable) => append_name(out, names, *variable),
        Expr::Draw(_) => append_text(out, b"nondet()"),
        Expr::Minus(inner) => {
            append_text(out, b"-")?;
            append_factor(alloc, out, inner, names)
        }
        Expr::Sum(parts) => append_parts(alloc, out, parts, names),
        Expr::Product(factors) => append_factors(alloc, out, factors, names),
    }
}

/// The same, in brackets or not.
#[cycle(sums)]
fn append_in_brackets(
    alloc: Global,
    out: &mut Vec<u8>,
    has_brackets: bool,
    expr: &Expr,
    names: &Names,
) -> Result<(), AllocError>
    ensures { OnOk result (out.new.items ≡ out.old.items ++ in_brackets has_brackets (expression_text names.now (expression expr.now))) }
{
    if !has_brackets {
        return append_sum(alloc, out, expr, names);
    }
    append_text(out, b"(")?;
    append_sum(alloc, out, expr, names)?;
    append_text(out, b")")
}

#[cycle(sums)]
fn append_part(
    alloc: Global,
    out: &mut Vec<u8>,
    part: &Expr,
    names: &Names,
) -> Result<(), AllocError>
    ensures { let e = expression part.now in
        OnOk result (out.new.items ≡ out.old.items ++ as_part e (expression_text names.now e)) }
{
    append_in_brackets(alloc, out, is_sum(part), part, names)
}

#[cycle(sums)]
fn append_factor(
    alloc: Global,
    out: &mut Vec<u8>,
    factor: &Expr,
    names: &Names,
) -> Result<(), AllocError>
    ensures { let e = expression factor.now in
        OnOk result (out.new.items ≡ out.old.items ++ as_factor e (expression_text names.now e)) }
{
    append_in_brackets(
        alloc,
        out,
        is_sum(factor) || is_product(factor),
        factor,
        names,
    )
}

/// A part after the first, with its sign.
#[cycle(sums)]
fn append_further_part(
    alloc: Global,
    out: &mut Vec<u8>,
    part: &Expr,
    names: &Names,
) -> Result<(), AllocError>
    ensures { OnOk result (out.new.items ≡ out.old.items ++ further_part_text names.now (expression part.now)) }
{
    match part {
        Expr::Minus(inner) => {
            append_text(out, b" - ")?;
            append_part(alloc, out, inner, names)
        }
        other => {
            append_text(out, b" + ")?;
            append_part(alloc, out, other, names)
        }
    }
}

#[cycle(sums)]
fn append_parts(
    alloc: Global,
    out: &mut Vec<u8>,
    parts: &[Expr],
    names: &Names,
) -> Result<(), AllocError>
    ensures { OnOk result (out.new.items ≡ out.old.items ++ sum_text names.now (expressions parts.now)) }
{
    match parts {
        [] => Ok(()),
        [first, others @ ..] => {
            append_part(alloc, out, first, names)?;
            for part in others {
                append_further_part(alloc, out, part, names)?;
            }
            Ok(())
        }
    }
}

#[cycle(sums)]
fn append_factors(
    alloc: Global,
    out: &mut Vec<u8>,
    factors: &[Expr],
    names: &Names,
) -> Result<(), AllocError>
    ensures { OnOk result (out.new.items ≡ out.old.items ++ product_text names.now (expressions factors.now)) }
{
    match factors {
        [] => Ok(()),
        [first, others @ ..] => {
            append_factor(alloc, out, first, names)?;
            for factor in others {
                append_text(out, b" * ")?;
                append_factor(alloc, out, factor, names)?;
            }
            Ok(())
        }
    }
}

/// The text of an expression, without brackets round the whole.
pub fn write_sum(alloc: Global, expr: &Expr, names: &Names) -> Result<Vec<u8>, AllocError>
    requires named { IsTrue (are_named (length names.now) (expression expr.now)) }
    requires shallow { expression_depth (expression expr.now) ≤ 400 }
    ensures spelled { IfOk result (λ text. text.items ≡ expression_text names.now (expression expr.now)) }
    // Where some text stands for the expression, this one does.
    ensures again { IfOk result (λ text. IsSumAgain names.now (expression expr.now) text.items) }
    // What a reading with these names found is found again, with the end of the text after it.
    ensures read { IfOk result (λ text. IsSumReadAgain names.now (expression expr.now) text.items) }
{
    let mut text = Vec::new(alloc);
    append_sum(alloc, &mut text, expr, names)?;
    Ok(text)
}
