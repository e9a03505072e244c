ghost use Rattle.std.specs.Prelude.{◌≡◌, ◌||◌, ◌∷◌, ◌++◌, [], IfOk, pos, not, map};
ghost use Rattle.tv_program.specs.Trees.{number, variable, draw, minus, sum, product};
ghost use Rattle.tv_program.specs.Views.{expression, expressions};
ghost use Rattle.tv_program.specs.Limits.{is_constant, are_constant};
ghost use Rattle.tv_language.specs.Sums.{gathered};

use std::alloc::{AllocError, Global};
use tv_program::Expr;

/// An expression, and whether a variable or a draw stands in it.
#[derive(Drop)]
pub struct Made {
    pub expr: Expr,
    pub named: bool,
    pub ghost told: { is_constant (expression expr) ≡ not named },
}

/// The parts so far of a sum or a product.
#[derive(Drop)]
pub struct Run {
    pub parts: Vec<Expr>,
    pub named: bool,
    pub ghost told: { are_constant (expressions parts.items) ≡ not named },
}

#[inline(always)]
pub fn number_of(value: u64) -> Made
    ensures { expression result.expr ≡ number (pos value) }
{
    Made {
        expr: Expr::Number(value as i128),
        named: false,
    }
}

#[inline(always)]
pub fn variable_of(number: u32) -> Made
    ensures { expression result.expr ≡ variable number }
{
    Made {
        expr: Expr::Variable(number),
        named: true,
    }
}

pub fn draw_of(number: u32) -> Made
    ensures { expression result.expr ≡ draw number }
{
    Made {
        expr: Expr::Draw(number),
        named: true,
    }
}

pub fn minus_of(alloc: Global, made: Made) -> Result<Made, AllocError>
    ensures { IfOk result (λ r. expression r.expr ≡ minus (expression made.expr)) }
{
    let named = made.named;
    Ok(Made {
        expr: Expr::Minus(Box::new(alloc, made.expr)?),
        named,
    })
}

#[inline(always)]
pub fn run_of(alloc: Global, made: Made) -> Result<Run, AllocError>
    ensures { IfOk result (λ r. map expression r.parts.items ≡ expression made.expr ∷ []) }
{
    let mut parts = Vec::with_capacity(alloc, 2)?;
    let named = made.named;
    parts.push(made.expr)?;
    Ok(Run { parts, named })
}

#[inline(always)]
fn either(first: bool, second: bool) -> bool
    ensures { result ≡ (first || second) }
{
    first || second
}

#[inline(always)]
pub fn add(run: Run, made: Made) -> Result<Run, AllocError>
    ensures { IfOk result (λ r. map expression r.parts.items ≡ map expression run.parts.items ++ expression made.expr ∷ []) }
{
    let mut parts = run.parts;
    let named = either(run.named, made.named);
    parts.push(made.expr)?;
    Ok(Run { parts, named })
}

#[inline(always)]
pub fn product_of(run: Run) -> Made
    ensures { expression result.expr ≡ gathered product (map expression run.parts.items) }
{
    let named = run.named;
    let mut parts = run.parts;
    if parts.len() == 1 {
        if let Some(expr) = parts.pop() {
            return Made { expr, named };
        }
    }
    Made {
        expr: Expr::Product(parts),
        named,
    }
}

#[inline(always)]
pub fn sum_of(run: Run) -> Made
    ensures { expression result.expr ≡ gathered sum (map expression run.parts.items) }
{
    let named = run.named;
    let mut parts = run.parts;
    if parts.len() == 1 {
        if let Some(expr) = parts.pop() {
            return Made { expr, named };
        }
    }
    Made {
        expr: Expr::Sum(parts),
        named,
    }
}
