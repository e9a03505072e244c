// Loops whose guards hold again.

ghost use Rattle.std.specs.Prelude.{◌≡◌, ◌≤◌, IfOk, MatchOption, Some, slice_get};
ghost use Rattle.std.specs.Result.{IfErr};
ghost use Rattle.tv_cases.specs.Systems.{cases_of};
ghost use Rattle.tv_cases.specs.Views.{case_view};
ghost use Rattle.tv_known.specs.Recurrences.{IsKeptLoop};
ghost use Rattle.tv_recur.specs.Keeping.{IsKeptBy};
ghost use Rattle.tv_recur.specs.Refusing.{IsRefusal};

use crate::taking::{Search, Taking, leading};
use tv_cases::Case;
use tv_farkas::CoverFault;
use tv_linear::{Choice, Poly, push_copies};

/// The choice by which the case leads from its guards into them again; `None` where it is no such loop.
pub(crate) fn keep(search: &Search, case: &Case, number: u32) -> Result<Option<Choice>, CoverFault>
    requires splits { search.now.budget.now.splits ≤ 128 }
    requires found { slice_get (cases_of search.now.about.now).cases number ≡ Some (case_view case.now) }
    ensures found { let cases = cases_of search.now.about.now in
        let taken = case_view case.now in
        IfOk result (λ found. MatchOption found (IsKeptLoop cases taken → ⊥) (IsKeptBy cases taken)) }
    ensures refusals { IfErr result (IsRefusal (cases_of search.now.about.now) search.now.budget.now) }
{
    if case.from != case.to || case.draws != 0 {
        return Ok(None);
    }
    let mut rows = Vec::new(search.alloc);
    push_copies(search.alloc, &case.guards.rows, &mut rows)?;
    let from = Poly {
        columns: search.about.variables(),
        rows,
    };
    let taking = Taking {
        alloc: search.alloc,
        about: search.about,
        case,
        number,
        draws: &[],
        place: 0,
        budget: search.budget,
    };
    match leading(&taking, &from, &case.guards.rows) {
        Err(fault) => Err(fault),
        Ok(found) => Ok(found),
    }
}
