// States that runs come to, and what they tell of candidates.

ghost use Rattle.std.specs.Prelude.{◌≡◌, All, IfOk, MatchBool};
ghost use Rattle.tv_linear.specs.Linear.{columns as width};
ghost use Rattle.tv_cases.specs.Systems.{cases_of};
ghost use Rattle.tv_invariant.specs.Passes.{AreOver};
ghost use Rattle.tv_invariant.specs.Reached.{IsReached, IsInNone};
ghost use Rattle.tv_invariant.specs.Sieves.{Sieved};

use std::alloc::{AllocError, Global};
use tv_candidates::Candidate;
use tv_cases::Cases;
use tv_linear::{RowView, push_item};
use tv_refute::meets;

/// A state that some run comes to.
#[derive(Drop)]
pub struct Reached {
    pub location: u32,
    /// The value of each variable.
    pub values: Vec<i128>,
}

/// Whether the states at the candidate's location meet its row.
fn is_met_at(about: &Cases, states: &[Reached], candidate: &Candidate) -> bool
    requires states { All (IsReached (cases_of about.now)) states.now }
    requires over { width candidate.now.row ≡ (cases_of about.now).variables }
    ensures { MatchBool result (Unit {0}) (IsInNone (cases_of about.now) candidate.now) }
{
    'states: for state in states {
        if state.location == candidate.location
            && !meets(&state.values, RowView::of(&candidate.row))
        {
            return false;
        }
    }
    true
}

/// The candidates that each of the states meets, in order.
pub fn met_at(
    alloc: Global,
    about: &Cases,
    states: &[Reached],
    candidates: Vec<Candidate>,
) -> Result<Vec<Candidate>, AllocError>
    requires states { All (IsReached (cases_of about.now)) states.now }
    requires over { AreOver (cases_of about.now).variables candidates.items }
    ensures { IfOk result (λ v. Sieved (λ c. Unit {0}) (IsInNone (cases_of about.now)) candidates.items v.items) }
{
    let mut kept = Vec::new(alloc);
    'candidates: for candidate in candidates {
        if is_met_at(about, states, &candidate) {
            push_item(&mut kept, candidate)?;
        }
    }
    Ok(kept)
}
