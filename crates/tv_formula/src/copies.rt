ghost use Rattle.std.specs.Prelude.{◌≡◌, IfOk};
ghost use Rattle.tv_program.specs.Views.{expression, expressions};

use std::alloc::{AllocError, Global};
use tv_program::Expr;

/// The same expression, in memory of its own.
#[cycle(copies)]
pub fn copy_of(alloc: Global, expr: &Expr) -> Result<Expr, AllocError>
    ensures { IfOk result (λ copy. expression copy ≡ expression expr.now) }
{
    match expr {
        Expr::Number(number) => Ok(Expr::Number(*number)),
        Expr::Variable(variable) => Ok(Expr::Variable(*variable)),
        Expr::Draw(draw) => Ok(Expr::Draw(*draw)),
        Expr::Minus(inner) => {
            let inner = copy_of(alloc, inner)?;
            Ok(Expr::Minus(Box::new(alloc, inner)?))
        }
        Expr::Sum(parts) => Ok(Expr::Sum(copies_of(alloc, parts)?)),
        Expr::Product(factors) => Ok(Expr::Product(copies_of(alloc, factors)?)),
    }
}

#[cycle(copies)]
fn copies_of(alloc: Global, parts: &[Expr]) -> Result<Vec<Expr>, AllocError>
    ensures { IfOk result (λ copies. expressions copies.items ≡ expressions parts.now) }
{
    let mut copies = Vec::new(alloc);
    for part in parts {
        copies.push(copy_of(alloc, part)?)?;
    }
    Ok(copies)
}
