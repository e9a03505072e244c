// Integer points of rows.

ghost use Rattle.std.specs.Prelude.{◌-◌, ◌^◌, ◌<◌, ◌≤◌, IfOk};
ghost use Rattle.std.specs.Result.{IfErr};
ghost use Rattle.tv_farkas.specs.EmptyPaths.{IsEmptyFault};
ghost use Rattle.tv_cover.specs.Targets.{AreEven};
ghost use Rattle.tv_cover.specs.Emptying.{IsEmptied, HasNoWholePoint, IsShallow, HasEvenSplits, IsShortEmptied, GivesWhole};

use crate::covering::cover_of;
use crate::{Covered, Emptied};
use std::alloc::Global;
use tv_farkas::{Budget, CoverFault};
use tv_linear::Row;

/// A cover without targets, so that no integer point meets the rows, or an integer point that meets them.
///
/// It is the search of `cover`: it takes the point of the rows, each taken once. Where a coordinate is not whole, it
/// splits at the first such one, below and above it, and settles the lower side first.
pub fn empty(
    alloc: Global,
    rows: &[Row],
    columns: u32,
    budget: &Budget,
) -> Result<Emptied, CoverFault>
    requires bounded { columns < 2 ^ 32 - 1 }
    requires even { AreEven columns rows.now }
    requires splits { budget.now.splits ≤ 128 }
    ensures answers { IfOk result (IsEmptied columns rows.now) }
    ensures none { IfOk result (HasNoWholePoint columns rows.now) }
    ensures shallow { IfOk result (IsShallow budget.now.splits) }
    ensures split_rows { IfOk result (HasEvenSplits columns) }
    ensures short { IfOk result IsShortEmptied }
    ensures first { IfOk result (GivesWhole columns rows.now) }
    ensures refusals { IfErr result (IsEmptyFault columns rows.now budget.now.pivots budget.now.splits) }
{
    match cover_of(alloc, columns, rows, &[], budget) {
        Err(fault) => Err(fault),
        Ok(Covered::Tree(cover)) => Ok(Emptied::Tree(cover)),
        Ok(Covered::Hole(point)) => Ok(Emptied::Whole(point)),
    }
}
