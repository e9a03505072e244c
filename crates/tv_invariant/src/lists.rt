// Rows at a location, over the columns of a case.

ghost use Rattle.std.specs.Prelude.{◌≡◌, ◌+◌, ◌-◌, ◌^◌, ◌<◌, All, map, IfOk};
ghost use Rattle.tv_linear.specs.Linear.{columns as width};
ghost use Rattle.tv_invariant.specs.Places.{rows_at};
ghost use Rattle.tv_linear.specs.Arithmetic.{padded_row};

use std::alloc::{AllocError, Global};
use tv_candidates::Candidate;
use tv_linear::{Row, push_item};

/// The rows at a location, with `more` more columns.
pub fn padded_at(
    alloc: Global,
    candidates: &[Candidate],
    location: u32,
    more: u32,
) -> Result<Vec<Row>, AllocError>
    requires { All (λ c. width c.row + more < 2 ^ 32 - 1) candidates.now }
    ensures { IfOk result (λ v. v.items ≡ map (padded_row more) (rows_at location candidates.now)) }
{
    let mut all = Vec::new(alloc);
    'candidates: for candidate in candidates {
        if candidate.location == location {
            push_item(&mut all, candidate.row.padded(alloc, more)?)?;
        }
    }
    Ok(all)
}
