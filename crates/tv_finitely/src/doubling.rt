//! The program with two copies of each edge.

ghost use Rattle.std.specs.Prelude.{◌≡◌, ◌≤◌, ◌++◌, ◌∷◌, [], IfOk, OnOk, length, map};
ghost use Rattle.std.specs.List.{flat_map};
ghost use Rattle.tv_program.specs.Programs.{system_of};
ghost use Rattle.tv_program.specs.Systems.{IsLimited};
ghost use Rattle.tv_program.specs.Trees as trees;
ghost use Rattle.tv_program.specs.Trees.{assume};
ghost use Rattle.tv_program.specs.Views.{condition, instruction, transition, transitions};
ghost use Rattle.tv_formula.specs.Views.{property};
ghost use Rattle.tv_finitely.specs.Doubling.{assuming, copies, doubled};

use crate::conditions::condition_at;
use crate::copies::copies_of_commands;
use std::alloc::{AllocError, Global};
use tv_formula::Tree;
use tv_program::{Command, Cond, Edge, Program};

/// A copy of the edge, with one assumption more after its commands.
fn assuming(alloc: Global, edge: &Edge, cond: Cond) -> Result<Edge, AllocError>
    ensures { IfOk result (λ copy. transition copy ≡ assuming (condition cond) (transition edge.now)) }
{
    let mut commands = copies_of_commands(alloc, &edge.commands)?;
    commands.push(Command::Assume(cond))?;
    Ok(Edge {
        from: edge.from,
        to: edge.to,
        draws: edge.draws,
        commands,
    })
}

fn denied(alloc: Global, cond: Cond) -> Result<Cond, AllocError>
    ensures { IfOk result (λ denied. condition denied ≡ trees.negated (condition cond)) }
{
    Ok(Cond::Not(Box::new(alloc, cond)?))
}

/// Adds the two copies of an edge: the one that is taken where the property holds after it, and the one where it does not.
fn add_copies(
    alloc: Global,
    edges: &mut Vec<Edge>,
    edge: &Edge,
    tree: &Tree,
) -> Result<(), AllocError>
    ensures { OnOk result (transitions edges.new.items ≡ transitions edges.old.items ++ copies (property tree.now) (transition edge.now)) }
{
    let holds = condition_at(alloc, edge.to, tree)?;
    let fails = denied(alloc, condition_at(alloc, edge.to, tree)?)?;
    edges.push(assuming(alloc, edge, holds)?)?;
    edges.push(assuming(alloc, edge, fails)?)?;
    Ok(())
}

/// The copies of each of the edges.
fn all_copies(alloc: Global, edges: &[Edge], tree: &Tree) -> Result<Vec<Edge>, AllocError>
    ensures { IfOk result (λ made. transitions made.items ≡ flat_map (copies (property tree.now)) (transitions edges.now)) }
{
    let mut made = Vec::new(alloc);
    for edge in edges {
        add_copies(alloc, &mut made, edge, tree)?;
    }
    Ok(made)
}

/// The program with two copies of each edge.
pub(crate) fn doubled(alloc: Global, program: &Program, tree: &Tree) -> Result<Program, AllocError>
    requires { IsLimited (doubled (property tree.now) (system_of program.now)) }
    ensures { IfOk result (λ made. system_of made ≡ doubled (property tree.now) (system_of program.now)) }
{
    let variables = program.variables().copy()?;
    let locations = program.locations().copy()?;
    let edges = all_copies(alloc, program.edges(), tree)?;
    Ok(Program::new(variables, locations, program.start(), edges))
}
