//! Copies of the commands of an edge.

ghost use Rattle.std.specs.Prelude.{◌≡◌, IfOk, map};
ghost use Rattle.tv_program.specs.Views.{expression, expressions, condition, conditions, instruction};

use std::alloc::{AllocError, Global};
use tv_program::{Command, Cond, Expr};

/// The same expression, in memory of its own.
#[cycle(expression_copies)]
pub(crate) fn copy_of(alloc: Global, expr: &Expr) -> Result<Expr, AllocError>
    ensures { IfOk result (λ copy. expression copy ≡ expression expr.now) }
{
    match expr {
        Expr::Number(number) => Ok(Expr::Number(*number)),
        Expr::Variable(variable) => Ok(Expr::Variable(*variable)),
        Expr::Draw(draw) => Ok(Expr::Draw(*draw)),
        Expr::Minus(inner) => {
            let inner = copy_of(alloc, inner)?;
            Ok(Expr::Minus(Box::new(alloc, inner)?))
        }
        Expr::Sum(parts) => Ok(Expr::Sum(copies_of(alloc, parts)?)),
        Expr::Product(factors) => Ok(Expr::Product(copies_of(alloc, factors)?)),
    }
}

#[cycle(expression_copies)]
fn copies_of(alloc: Global, parts: &[Expr]) -> Result<Vec<Expr>, AllocError>
    ensures { IfOk result (λ copies. expressions copies.items ≡ expressions parts.now) }
{
    let mut copies = Vec::new(alloc);
    for part in parts {
        copies.push(copy_of(alloc, part)?)?;
    }
    Ok(copies)
}

/// The same condition, in memory of its own.
#[cycle(condition_copies)]
fn copy_of_condition(alloc: Global, cond: &Cond) -> Result<Cond, AllocError>
    ensures { IfOk result (λ copy. condition copy ≡ condition cond.now) }
{
    match cond {
        Cond::Truth(holds) => Ok(Cond::Truth(*holds)),
        Cond::Compare(relation, left, right) => {
            let left = copy_of(alloc, left)?;
            let right = copy_of(alloc, right)?;
            Ok(Cond::Compare(*relation, left, right))
        }
        Cond::Not(inner) => {
            let inner = copy_of_condition(alloc, inner)?;
            Ok(Cond::Not(Box::new(alloc, inner)?))
        }
        Cond::And(parts) => Ok(Cond::And(copies_of_conditions(alloc, parts)?)),
        Cond::Or(parts) => Ok(Cond::Or(copies_of_conditions(alloc, parts)?)),
    }
}

#[cycle(condition_copies)]
fn copies_of_conditions(alloc: Global, parts: &[Cond]) -> Result<Vec<Cond>, AllocError>
    ensures { IfOk result (λ copies. conditions copies.items ≡ conditions parts.now) }
{
    let mut copies = Vec::new(alloc);
    for part in parts {
        copies.push(copy_of_condition(alloc, part)?)?;
    }
    Ok(copies)
}

/// The same command, in memory of its own.
fn copy_of_command(alloc: Global, command: &Command) -> Result<Command, AllocError>
    ensures { IfOk result (λ copy. instruction copy ≡ instruction command.now) }
{
    match command {
        Command::Assume(cond) => Ok(Command::Assume(copy_of_condition(alloc, cond)?)),
        Command::Assign(variable, expr) => Ok(Command::Assign(*variable, copy_of(alloc, expr)?)),
    }
}

/// The same commands, in memory of their own.
pub(crate) fn copies_of_commands(
    alloc: Global,
    commands: &[Command],
) -> Result<Vec<Command>, AllocError>
    ensures { IfOk result (λ copies. map instruction copies.items ≡ map instruction commands.now) }
{
    let mut copies = Vec::new(alloc);
    for command in commands {
        copies.push(copy_of_command(alloc, command)?)?;
    }
    Ok(copies)
}
