// Lists of rows.

ghost use Rattle.std.specs.Prelude.{◌≡◌, ◌+◌, ◌-◌, ◌^◌, ◌<◌, ◌∷◌, [], All, IfOk};
ghost use Rattle.std.specs.Result.{IfErr};
ghost use Rattle.tv_linear.specs.Linear.{columns as width};
ghost use Rattle.tv_cases.specs.Views.{case_view};
ghost use Rattle.tv_cases.specs.Before.{AreRowsBefore};
ghost use Rattle.tv_pre.specs.Targets.{IsUnmade};

use std::alloc::Global;
use tv_cases::{Case, all_before};
use tv_farkas::CoverFault;
use tv_linear::{Row, RowFault};

/// The rows that have before the case the values of these rows after it.
pub(crate) fn rows_before(
    alloc: Global,
    rows: &[Row],
    case: &Case,
    variables: u32,
) -> Result<Vec<Row>, CoverFault>
    requires bounded { variables + case.now.draws < 2 ^ 32 - 1 }
    requires terms { All (λ u. width u.term ≡ variables + case.now.draws) (case_view case.now).updates }
    requires even { All (λ r. width r ≡ variables) rows.now }
    ensures rows { IfOk result (λ v. AreRowsBefore (case_view case.now) rows.now v.items) }
    ensures refusals { IfErr result (IsUnmade (case_view case.now) (rows.now ∷ [])) }
{
    match all_before(alloc, rows, case, variables) {
        Ok(all) => Ok(all),
        Err(RowFault::Wide { column }) => Err(CoverFault::Wide { column }),
        Err(RowFault::Memory) => Err(CoverFault::Memory),
    }
}
