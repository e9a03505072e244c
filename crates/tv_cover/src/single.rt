// A cover into one target.

ghost use Rattle.std.specs.Prelude.{◌-◌, ◌^◌, ◌<◌, ◌≤◌, ◌∷◌, [], IfOk};
ghost use Rattle.std.specs.Result.{IfErr};
ghost use Rattle.tv_cover.specs.Covering.{IsCoverFault};
ghost use Rattle.tv_cover.specs.Single.{IsCoveredByOne};
ghost use Rattle.tv_cover.specs.Targets.{AreEven};

use crate::covered::Covered;
use crate::covering::cover;
use std::alloc::Global;
use tv_farkas::{Budget, CoverFault};
use tv_linear::{Poly, Row, push_item};

/// A cover of rows into one target, or a hole.
pub fn cover_one(
    alloc: Global,
    ambient: &Poly,
    target: Vec<Row>,
    budget: &Budget,
) -> Result<Covered, CoverFault>
    requires bounded { ambient.now.columns < 2 ^ 32 - 1 }
    requires even { AreEven ambient.now.columns ambient.now.rows.items }
    requires same { AreEven ambient.now.columns target.items }
    requires splits { budget.now.splits ≤ 128 }
    ensures answers { IfOk result (IsCoveredByOne ambient.now.columns ambient.now.rows.items target.items) }
    ensures refusals { let rows = ambient.now.rows.items in
        IfErr result (IsCoverFault ambient.now.columns (target.items ∷ []) rows budget.now.pivots budget.now.splits) }
{
    let mut targets = Vec::new(alloc);
    push_item(
        &mut targets,
        Poly {
            columns: ambient.columns,
            rows: target,
        },
    )?;
    match cover(alloc, ambient, &targets, budget) {
        Ok(covered) => Ok(covered),
        Err(fault) => Err(fault),
    }
}
