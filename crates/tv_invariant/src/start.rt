// Candidates at the start.

ghost use Rattle.std.specs.Prelude.{◌≡◌, ℤ, List, length, IfOk, MatchBool};
ghost use Rattle.tv_linear.specs.Linear.{columns as width, IsMet};
ghost use Rattle.tv_cases.specs.Systems.{cases_of};
ghost use Rattle.tv_invariant.specs.Sieves.{Sieved};
ghost use Rattle.tv_invariant.specs.Falling.{Begins, IsInNoPart};
ghost use Rattle.tv_invariant.specs.Passes.{AreOver};

use std::alloc::{AllocError, Global};
use tv_candidates::Candidate;
use tv_cases::{Cases, is_number};
use tv_linear::{Row, push_item};

/// Whether each list of numbers, one for each column, meets the row.
fn is_always_met(row: &Row) -> bool
    ensures { MatchBool result
        ((xs : List ℤ) → IsMet xs row.now)
        ((xs : List ℤ) × (length xs ≡ width row.now) × (IsMet xs row.now → ⊥)) }
{
    row.constant() <= 0 && is_number(row)
}

/// The candidates that each state at the start meets, and those at other locations.
pub fn begin(
    alloc: Global,
    about: &Cases,
    candidates: Vec<Candidate>,
) -> Result<Vec<Candidate>, AllocError>
    requires { AreOver (cases_of about.now).variables candidates.items }
    ensures { IfOk result (λ v. Sieved (Begins (cases_of about.now)) (IsInNoPart (cases_of about.now) candidates.items) candidates.items v.items) }
{
    let start = about.start();
    let mut kept = Vec::new(alloc);
    'candidates: for candidate in candidates {
        if candidate.location != start || is_always_met(&candidate.row) {
            push_item(&mut kept, candidate)?;
        }
    }
    Ok(kept)
}
