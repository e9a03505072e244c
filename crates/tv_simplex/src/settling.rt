// Settling a system.

ghost use Rattle.std.specs.Prelude.{ℕ, ◌+◌, ◌≤◌, IfOk, MatchResult};
ghost use Rattle.std.specs.Result.{IfErr};
ghost use Rattle.tv_simplex.specs.Systems.{IsWhole};
ghost use Rattle.tv_simplex.specs.Choices.{choices};
ghost use Rattle.tv_simplex.specs.Outcomes.{IsFirstWide, IsNarrowSystem};
ghost use Rattle.tv_simplex.specs.Stops.{HasNumberedPlace, IsFaultAt};
ghost use Rattle.tv_simplex.specs.Views.{equations, IsAnswer, GivesAnswer, IsFault, IsFirstRefusal, IsNotSpent};

use crate::marks::first_marks;
use crate::numbers::first_wide;
use crate::starting::{artificial_basis, first_rows};
use crate::stop::Stop;
use crate::table::{Spare, Table};
use crate::walking::walk;
use crate::{Answer, SolveFault, System};
use std::alloc::Global;

/// The refusal that speaks of the basis.
fn fault_at(stop: Stop, basis: Vec<u32>) -> SolveFault
    requires { HasNumberedPlace stop }
    ensures { IsFaultAt stop basis.items result }
{
    match stop {
        Stop::Wide { row, column } => SolveFault::Width {
            basis,
            row: row as u32,
            column: column as u32,
        },
        Stop::Scale => SolveFault::Scale { basis },
        Stop::Memory => SolveFault::Memory,
    }
}

/// Looks for numbers of at least 0 that meet the equations, over a scale, or for a barrier.
///
/// The rows with a negative right side are multiplied by -1 first. The walk begins in the basis of one
/// artificial column for each row. The first column with a negative objective entry enters. Among the rows
/// with a positive entry there, the one leaves whose right side and artificial columns, divided by that entry,
/// are lexicographically least. The walk ends with the first basis that settles the system, and answers with
/// what that basis gives.
pub fn solve(alloc: Global, system: &System, pivots: u64) -> Result<Answer, SolveFault>
    requires { IsWhole (equations system.now) }
    ensures answers { IfOk result (λ a. IsAnswer (equations system.now) a) }
    ensures last { IfOk result (λ a. GivesAnswer (equations system.now) a) }
    ensures narrow { IfOk result (λ _. IsNarrowSystem (equations system.now)) }
    ensures refusals { IfErr result (λ e. IsFault (equations system.now) pivots e) }
    ensures first_wide { (row column : ℕ) → IsFirstWide (equations system.now) row column →
        MatchResult result (λ _. ⊥) (λ e. IsFirstRefusal (equations system.now) row column e) }
    ensures enough { choices (system.now.columns + system.now.rows) system.now.rows ≤ pivots → IfErr result IsNotSpent }
{
    let basis = match artificial_basis(alloc, system) {
        Ok(basis) => basis,
        Err(_) => return Err(SolveFault::Memory),
    };
    if let Some((row, column)) = first_wide(system) {
        return Err(SolveFault::Width { basis, row, column });
    }
    let rows = match first_rows(alloc, system) {
        Ok(rows) => rows,
        Err(stop) => return Err(fault_at(stop, basis)),
    };
    let marks = match first_marks(alloc, &rows, basis.len(), system.columns as usize) {
        Ok(marks) => marks,
        Err(_) => return Err(SolveFault::Memory),
    };
    let mut table = Table {
        rows,
        marks,
        basis,
        columns: system.columns as usize,
        spare: Spare {
            pivots: Vec::new(alloc),
            other: Vec::new(alloc),
        },
    };
    match walk(alloc, system, &mut table, pivots) {
        Ok(Some(answer)) => Ok(answer),
        Ok(None) => Err(SolveFault::Pivots { bases: pivots }),
        Err(stop) => Err(fault_at(stop, table.basis)),
    }
}
