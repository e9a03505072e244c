// How several rows are shown at a point.

ghost use Rattle.std.specs.Prelude.{◌∷◌, [], ◌-◌, ◌^◌, ◌<◌, length, map, All};
ghost use Rattle.tv_refute.specs.Built.{built, change_of};
ghost use Rattle.tv_linear.specs.Views.{row_seen, rows_seen};
ghost use Rattle.tv_points.specs.Lines.{IsShowable, GivesLines};

use crate::fault::PointFault;
use crate::line::multipliers_at;
use std::alloc::Global;
use tv_linear::{RowView, Rows, push_item};
use tv_refute::{Built, Change};

/// Puts the multipliers that show a row at the end of the list.
pub(crate) fn push_line(
    alloc: Global,
    point: &[i64],
    row: &Built,
    lists: &mut Vec<Vec<i64>>,
) -> Result<(), PointFault>
    requires bounded { length point.now < 2 ^ 32 - 1 }
    requires showable { IsShowable point.now (built row.now) }
    ensures { GivesLines point.now (built row.now ∷ []) lists.old.items lists.new.items result }
{
    match multipliers_at(alloc, point, row) {
        Err(fault) => Err(fault),
        Ok(multipliers) => {
            push_item(lists, multipliers)?;
            Ok(())
        }
    }
}

/// The same for a row that is changed.
fn push_changed(
    alloc: Global,
    point: &[i64],
    change: &Change,
    row: RowView,
    lists: &mut Vec<Vec<i64>>,
) -> Result<(), PointFault>
    requires bounded { length point.now < 2 ^ 32 - 1 }
    requires showable { IsShowable point.now (change_of change.now (row_seen row)) }
    ensures { GivesLines point.now (change_of change.now (row_seen row.entry) ∷ []) lists.old.items lists.new.items result }
{
    let first = Built::Given(row);
    match change {
        Change::Kept => push_line(alloc, point, &first, lists),
        Change::Once(terms) => push_line(alloc, point, &Built::Composed(&first, terms), lists),
        Change::Twice(inner, outer) => {
            let second = Built::Composed(&first, inner);
            push_line(alloc, point, &Built::Composed(&second, outer), lists)
        }
    }
}

/// The same for rows that are changed, one after another.
pub(crate) fn push_lines(
    alloc: Global,
    point: &[i64],
    change: &Change,
    rows: Rows,
    lists: &mut Vec<Vec<i64>>,
) -> Result<(), PointFault>
    requires bounded { length point.now < 2 ^ 32 - 1 }
    requires showable { All (IsShowable point.now) (map (change_of change.now) (rows_seen rows)) }
    ensures { GivesLines point.now (map (change_of change.now) (rows_seen rows.entry)) lists.old.items lists.new.items result }
{
    match rows.split_first() {
        None => Ok(()),
        Some((row, rest)) => match push_changed(alloc, point, change, row, lists) {
            Err(fault) => Err(fault),
            Ok(()) => push_lines(alloc, point, change, rest, lists),
        },
    }
}
