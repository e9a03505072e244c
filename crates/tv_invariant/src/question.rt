// Whether the integer points of rows meet a row.

ghost use Rattle.std.specs.Prelude.{◌≡◌, ◌-◌, ◌^◌, ◌<◌, ◌≤◌, ◌∷◌, [], IfOk};
ghost use Rattle.std.specs.Result.{IfErr};
ghost use Rattle.tv_linear.specs.Linear.{columns as width};
ghost use Rattle.tv_cover.specs.Targets.{AreEven};
ghost use Rattle.tv_cover.specs.Covering.{IsCoverFault};
ghost use Rattle.tv_invariant.specs.Seen.{IsSeen, IsSettled, IsAsked};

use crate::keeping::keep;
use crate::kept::{Kept, is_kept};
use crate::rows::is_implied;
use crate::seen::{Seen, fails_at};
use std::alloc::Global;
use tv_cover::{Covered, cover};
use tv_farkas::{Budget, CoverFault};
use tv_linear::{Poly, Row, push_item};

/// A proof that each integer point of the rows meets the row, or one that does not.
fn asked(alloc: Global, ambient: &Poly, row: Row, budget: &Budget) -> Result<Covered, CoverFault>
    requires bounded { ambient.now.columns < 2 ^ 32 - 1 }
    requires even { AreEven ambient.now.columns ambient.now.rows.items }
    requires same { width row ≡ ambient.now.columns }
    requires splits { budget.now.splits ≤ 128 }
    ensures asked { IfOk result (IsAsked ambient.now.columns ambient.now.rows.items row) }
    ensures refusals { let rows = ambient.now.rows.items in
        IfErr result (IsCoverFault ambient.now.columns ((row ∷ []) ∷ []) rows budget.now.pivots budget.now.splits) }
{
    let mut rows = Vec::new(alloc);
    push_item(&mut rows, row)?;
    let columns = ambient.columns;
    let mut targets = Vec::new(alloc);
    push_item(&mut targets, Poly { columns, rows })?;
    cover(alloc, ambient, &targets, budget)
}

/// Whether each integer point of the rows meets the row. What was seen or shown before is looked at first, and what is found is put to it.
pub fn is_met_by_all(
    alloc: Global,
    ambient: &Poly,
    row: Row,
    seen: &mut Seen,
    kept: &mut Vec<Kept>,
    budget: &Budget,
) -> Result<bool, CoverFault>
    requires bounded { ambient.now.columns < 2 ^ 32 - 1 }
    requires even { AreEven ambient.now.columns ambient.now.rows.items }
    requires same { width row ≡ ambient.now.columns }
    requires seen { IsSeen ambient.now.columns ambient.now.rows.items seen.old }
    requires splits { budget.now.splits ≤ 128 }
    ensures settled { IfOk result (IsSettled ambient.now.columns ambient.now.rows.items row) }
    ensures seen { IfOk result (λ _. IsSeen ambient.now.columns ambient.now.rows.items seen.new) }
    ensures refusals { let rows = ambient.now.rows.items in
        IfErr result (IsCoverFault ambient.now.columns ((row ∷ []) ∷ []) rows budget.now.pivots budget.now.splits) }
{
    if is_implied(&seen.shown, &row) {
        return Ok(true);
    }
    if fails_at(&seen.points, &row) {
        return Ok(false);
    }
    let columns = ambient.columns;
    if is_kept(kept, columns, &ambient.rows, &row) {
        push_item(&mut seen.shown, row)?;
        return Ok(true);
    }
    match asked(alloc, ambient, row.copy(alloc)?, budget) {
        Err(fault) => Err(fault),
        Ok(Covered::Tree(cover)) => {
            keep(alloc, columns, &ambient.rows, &row, cover.tree(), kept)?;
            push_item(&mut seen.shown, row)?;
            Ok(true)
        }
        Ok(Covered::Hole(point)) => {
            push_item(&mut seen.points, point)?;
            Ok(false)
        }
    }
}
