// The rows that a case owes on entering rows.

ghost use Rattle.std.specs.Prelude.{IfOk};
ghost use Rattle.std.specs.Result.{IfErr};
ghost use Rattle.tv_cases.specs.Systems.{cases_of};
ghost use Rattle.tv_cases.specs.Views.{case_view};
ghost use Rattle.tv_cover.specs.Targets.{AreEven};
ghost use Rattle.tv_derived.specs.Scopes.{at_location};
ghost use Rattle.tv_recur.specs.OwedRows.{AreOwed, IsTaking};
ghost use Rattle.tv_recur.specs.Refusing.{IsRefusal, AreFrom};

use crate::making::{drawn_terms, rows_before, rows_put};
use crate::taking::Taking;
use tv_farkas::CoverFault;
use tv_linear::Row;

/// The rows that the case owes on entering these, with the numbers put in for its draws.
pub(crate) fn owed_rows(taking: &Taking, into: &[Row]) -> Result<Vec<Row>, CoverFault>
    requires taking { IsTaking taking.now }
    requires even { AreEven (cases_of taking.now.about.now).variables into.now }
    requires entered { AreFrom (cases_of taking.now.about.now) (at_location (case_view taking.now.case.now).to) 1 into.now }
    ensures owed { let n = (cases_of taking.now.about.now).variables in
        IfOk result (λ v. AreOwed n (case_view taking.now.case.now) taking.now.draws.now into.now v.items) }
    ensures refusals { IfErr result (IsRefusal (cases_of taking.now.about.now) taking.now.budget.now) }
{
    let alloc = taking.alloc;
    let variables = taking.about.variables();
    let terms = drawn_terms(alloc, variables, taking.draws)?;
    let mut rows = match rows_put(alloc, &taking.case.guards.rows, &terms) {
        Ok(rows) => rows,
        Err(fault) => return Err(fault),
    };
    let before = match rows_before(alloc, into, taking.case, variables) {
        Ok(before) => before,
        Err(fault) => return Err(fault),
    };
    let mut entered = match rows_put(alloc, &before, &terms) {
        Ok(entered) => entered,
        Err(fault) => return Err(fault),
    };
    rows.append(&mut entered)?;
    Ok(rows)
}
