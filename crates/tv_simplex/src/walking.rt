// The walk along the chain of bases.

ghost use Rattle.std.specs.Prelude.{ℕ, ◌+◌, MatchOption, MatchResult};
ghost use Rattle.tv_simplex.specs.Systems.{IsWhole};
ghost use Rattle.tv_simplex.specs.Outcomes.{AreUnsettled};
ghost use Rattle.tv_simplex.specs.Views.{equations};
ghost use Rattle.tv_simplex.specs.Walking.{StandsAt, Stands, IsEntering, IsRight, IsStepStop, IsWalkStop};

use crate::answering::settle;
use crate::exchanging::enter;
use crate::leaving::leaving_row;
use crate::rows::Entry;
use crate::stop::Stop;
use crate::table::{Settled, Table, collect_column};
use crate::{Answer, System};
use std::alloc::Global;

/// Goes on to the next basis of the chain, where the column enters. After a refusal the basis is that next one. The
/// factors are a list to write to.
fn step(
    system: &System,
    table: &mut Table,
    column: usize,
    factors: &mut Vec<Entry>,
) -> Result<(), Stop>
    requires whole { IsWhole (equations system.now) }
    requires stands { Stands (equations system.now) table.old }
    requires entering { IsEntering (equations system.now) table.old column }
    ensures { MatchResult result
        (λ _. (n : ℕ) → StandsAt (equations system.now) n table.old → StandsAt (equations system.now) (n + 1) table.new)
        (λ stop. IsStepStop (equations system.now) table.new.basis.items stop) }
{
    collect_column(table, column, factors)?;
    match leaving_row(table, column, factors) {
        None => unreachable!(),
        Some(row) => enter(table, row, column, factors),
    }
}

/// Walks along the chain, for at most `pivots` bases, to the first that settles the system. After a refusal the basis
/// is the one that it speaks of.
pub fn walk(
    alloc: Global,
    system: &System,
    table: &mut Table,
    pivots: u64,
) -> Result<Option<Answer>, Stop>
    requires whole { IsWhole (equations system.now) }
    requires stands { StandsAt (equations system.now) 0 table.old }
    ensures { MatchResult result
        (λ found. MatchOption found (AreUnsettled (equations system.now) pivots) (λ a. IsRight (equations system.now) a))
        (λ stop. IsWalkStop (equations system.now) table.new.basis.items stop) }
{
    let mut factors = Vec::new(alloc);
    'bases: for _used in 0..pivots {
        match settle(alloc, system, table) {
            Err(stop) => return Err(stop),
            Ok(Settled::Done(answer)) => return Ok(Some(answer)),
            Ok(Settled::Enters(column)) => {
                if let Err(stop) = step(system, table, column, &mut factors) {
                    return Err(stop);
                }
            }
        }
    }
    Ok(None)
}
