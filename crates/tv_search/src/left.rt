// Integer points that rows at a location leave.

ghost use Rattle.std.specs.Prelude.{◌≡◌, ◌≤◌, IfOk};
ghost use Rattle.std.specs.Result.{IfErr};
ghost use Rattle.tv_cases.specs.Systems.{cases_of};
ghost use Rattle.tv_derived.specs.Faults.{IsRefusalOf};
ghost use Rattle.tv_derived.specs.Questions.{IsSpentOnRows};
ghost use Rattle.tv_invariant.specs.Places.{rows_at};
ghost use Rattle.tv_invariant.specs.Passes.{AreOver};
ghost use Rattle.tv_search.specs.Answers.{IsLeft, handed_rows};

use std::alloc::{AllocError, Global};
use tv_candidates::Candidate;
use tv_cases::Cases;
use tv_cover::{Emptied, empty};
use tv_farkas::{Budget, CoverFault};
use tv_linear::{Row, push_item};

/// The rows of the candidates at a location, in order.
fn rows_at(alloc: Global, list: &[Candidate], location: u32) -> Result<Vec<Row>, AllocError>
    ensures { IfOk result (λ v. v.items ≡ rows_at location list.now) }
{
    let mut rows = Vec::new(alloc);
    'candidates: for candidate in list {
        if candidate.location == location {
            push_item(&mut rows, candidate.row.copy(alloc)?)?;
        }
    }
    Ok(rows)
}

/// An integer point that meets the rows of the candidates at a location; `None` where there is none.
pub(crate) fn left_point(
    alloc: Global,
    about: &Cases,
    list: &[Candidate],
    location: u32,
    budget: &Budget,
) -> Result<Option<Vec<i128>>, CoverFault>
    requires over { AreOver (cases_of about.now).variables list.now }
    requires splits { budget.now.splits ≤ 128 }
    ensures left { IfOk result (IsLeft (cases_of about.now) location list.now) }
    ensures refusals { let spent = IsSpentOnRows (cases_of about.now) (handed_rows list.now) 8 budget.now.splits in
        IfErr result (IsRefusalOf (cases_of about.now) (handed_rows list.now) 8 budget.now.pivots spent) }
{
    let rows = rows_at(alloc, list, location)?;
    match empty(alloc, &rows, about.variables(), budget) {
        Err(fault) => Err(fault),
        Ok(Emptied::Tree(_)) => Ok(None),
        Ok(Emptied::Whole(point)) => Ok(Some(point)),
    }
}
