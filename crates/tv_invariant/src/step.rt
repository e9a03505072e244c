// The candidates that one case keeps.

ghost use Rattle.std.specs.Prelude.{◌≡◌, ◌⊎◌, ℕ, ◌+◌, ◌≤◌, All, IfOk};
ghost use Rattle.std.specs.List.{Contains};
ghost use Rattle.std.specs.Result.{IfErr};
ghost use Rattle.tv_linear.specs.Linear.{columns as width};
ghost use Rattle.tv_cases.specs.LinearCases.{IsCase};
ghost use Rattle.tv_cases.specs.Views.{case_view};
ghost use Rattle.tv_candidates.specs.declared.candidate.Candidate.{Candidate};
ghost use Rattle.tv_farkas.specs.declared.fault.CoverFault.TheVariants.{Memory};
ghost use Rattle.tv_invariant.specs.Sieves.{Sieved};
ghost use Rattle.tv_invariant.specs.Judged.{Stays, Falls, RefusesSome};
ghost use Rattle.tv_invariant.specs.Seen.{IsSeen};
ghost use Rattle.tv_invariant.specs.Passes.{AreOver};
ghost use Rattle.tv_invariant.specs.Falling.{KeptBy, IsFallen, IsStepRefusal};

use crate::judge::Judge;
use crate::kept::Kept;
use crate::lists::padded_at;
use crate::pieces::rows_at;
use crate::rows::strongest;
use crate::seen::Seen;
use std::alloc::Global;
use tv_candidates::Candidate;
use tv_cases::Case;
use tv_farkas::{Budget, CoverFault};
use tv_linear::{Poly, push_copies, push_item};

/// Asks for the strongest of the rows where the case leads, so that what is found of them also says something of the others.
fn ask_strongest(
    alloc: Global,
    judge: &Judge,
    now: &[Candidate],
    memory: &mut Vec<Kept>,
) -> Result<Seen, CoverFault>
    requires { All (λ c. width c.row + judge.now.case.now.draws ≡ judge.now.ambient.now.columns) now.now }
    ensures seen { IfOk result (IsSeen judge.now.ambient.now.columns judge.now.ambient.now.rows.items) }
    ensures refusals { IfErr result (RefusesSome judge.now now.now) }
{
    let rows = strongest(alloc, rows_at(alloc, now, judge.case.to)?)?;
    let mut seen = Seen::new(alloc);
    'rows: for row in &rows {
        match judge.shows(alloc, row, &mut seen, memory) {
            Err(fault) => return Err(fault),
            Ok(_) => {}
        }
    }
    Ok(seen)
}

/// The candidates that stay, in order.
fn sieve(
    alloc: Global,
    judge: &Judge,
    now: Vec<Candidate>,
    memory: &mut Vec<Kept>,
) -> Result<Vec<Candidate>, CoverFault>
    requires { All (λ c. width c.row + judge.now.case.now.draws ≡ judge.now.ambient.now.columns) now.items }
    ensures sieved { IfOk result (λ v. Sieved (Stays judge.now) (Falls judge.now) now.items v.items) }
    ensures refusals { IfErr result (RefusesSome judge.now now.items) }
{
    let mut kept = Vec::new(alloc);
    let mut seen = match ask_strongest(alloc, judge, &now, memory) {
        Err(fault) => return Err(fault),
        Ok(seen) => seen,
    };
    'candidates: for candidate in now {
        match judge.keeps(alloc, &candidate, &mut seen, memory) {
            Err(fault) => return Err(fault),
            Ok(false) => {}
            Ok(true) => push_item(&mut kept, candidate)?,
        }
    }
    Ok(kept)
}

/// The candidates that the case keeps where the states before it meet all of them.
pub fn step(
    alloc: Global,
    case: &Case,
    variables: u32,
    now: Vec<Candidate>,
    memory: &mut Vec<Kept>,
    budget: &Budget,
) -> Result<Vec<Candidate>, CoverFault>
    requires over { AreOver variables now.items }
    requires bounded { variables ≤ 512 }
    requires case { (locations : ℕ) × IsCase variables locations (case_view case.now) }
    requires splits { budget.now.splits ≤ 128 }
    ensures sieved { let taken = case_view case.now in
        IfOk result (λ v. Sieved (KeptBy variables taken now.items) (IsFallen variables taken now.items) now.items v.items) }
    ensures refusals { let taken = case_view case.now in
        let refuses = IsStepRefusal variables taken now.items budget.now.pivots budget.now.splits in
        IfErr result (λ f. (f ≡ Memory) ⊎ ((c : Candidate) × Contains now.items c × refuses c f)) }
{
    let mut rows = padded_at(alloc, &now, case.from, case.draws)?;
    push_copies(alloc, &case.guards.rows, &mut rows)?;
    let ambient = Poly {
        columns: variables + case.draws,
        rows: strongest(alloc, rows)?,
    };
    let judge = Judge {
        case,
        ambient: &ambient,
        budget,
    };
    sieve(alloc, &judge, now, memory)
}
