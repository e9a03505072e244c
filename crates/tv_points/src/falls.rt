// What is owed on entering a piece: its rows, and a fall of the ranks.

ghost use Rattle.std.specs.Prelude.{◌≡◌, ◌&&◌, ◌∷◌, [], ◌-◌, ◌^◌, ◌<◌, length, All, pos};
ghost use Rattle.tv_refute.specs.Built.{change_of};
ghost use Rattle.tv_linear.specs.Views.{row_seen};
ghost use Rattle.tv_cert.specs.Pieces.{goes};
ghost use Rattle.tv_points.specs.Lines.{IsShowable, GivesLines};
ghost use Rattle.tv_points.specs.Entering.{less_row, not_below_row, fall_rows, owed_falls, entering_rows};

use crate::fault::PointFault;
use crate::lines::{push_line, push_lines};
use std::alloc::Global;
use tv_cert::{Mark, Marked};
use tv_linear::RowView;
use tv_refute::{Built, Change};

/// The way from a piece into another: the rows and the ranks there are changed, and perhaps a fall of the ranks is owed.
#[derive(Drop)]
pub(crate) struct Entering<'a> {
    pub change: &'a Change<'a>,
    pub from: &'a Marked,
    pub into: &'a Marked,
    pub falls: bool,
}

/// Puts the line that the new rank, changed, is less than the old one at the end of the list.
fn push_less(
    alloc: Global,
    point: &[i64],
    change: &Change,
    old: RowView,
    new: RowView,
    lists: &mut Vec<Vec<i64>>,
) -> Result<(), PointFault>
    requires bounded { length point.now < 2 ^ 32 - 1 }
    requires showable { IsShowable point.now (less_row (change_of change.now) (row_seen old) (row_seen new)) }
    ensures { let row = less_row (change_of change.now) (row_seen old.entry) (row_seen new.entry) in
        GivesLines point.now (row ∷ []) lists.old.items lists.new.items result }
{
    let first = Built::Given(new);
    let from = Built::Given(old);
    match change {
        Change::Kept => push_line(alloc, point, &Built::Less(&first, &from, 1), lists),
        Change::Once(terms) => {
            let second = Built::Composed(&first, terms);
            push_line(alloc, point, &Built::Less(&second, &from, 1), lists)
        }
        Change::Twice(inner, outer) => {
            let second = Built::Composed(&first, inner);
            let third = Built::Composed(&second, outer);
            push_line(alloc, point, &Built::Less(&third, &from, 1), lists)
        }
    }
}

/// Puts the line that the old rank is not below 0 at the end of the list.
fn push_not_below(
    alloc: Global,
    point: &[i64],
    old: RowView,
    lists: &mut Vec<Vec<i64>>,
) -> Result<(), PointFault>
    requires bounded { length point.now < 2 ^ 32 - 1 }
    requires showable { IsShowable point.now (not_below_row (row_seen old)) }
    ensures { let row = not_below_row (row_seen old.entry) in
        GivesLines point.now (row ∷ []) lists.old.items lists.new.items result }
{
    let from = Built::Given(old);
    push_line(alloc, point, &Built::Less(&Built::Zero, &from, 0), lists)
}

/// Puts the lines of a fall from a rank to another at the end of the list.
fn push_fall(
    alloc: Global,
    point: &[i64],
    change: &Change,
    old: RowView,
    new: RowView,
    lists: &mut Vec<Vec<i64>>,
) -> Result<(), PointFault>
    requires bounded { length point.now < 2 ^ 32 - 1 }
    requires showable { All (IsShowable point.now) (fall_rows (change_of change.now) (row_seen old) (row_seen new)) }
    ensures { let rows = fall_rows (change_of change.now) (row_seen old.entry) (row_seen new.entry) in
        GivesLines point.now rows lists.old.items lists.new.items result }
{
    match push_less(alloc, point, change, old, new, lists) {
        Err(fault) => Err(fault),
        Ok(()) => push_not_below(alloc, point, old, lists),
    }
}

/// Whether a fall is owed on entering the piece.
pub(crate) fn is_owed(falls: bool, into: &Marked) -> bool
    ensures { result ≡ (falls && goes into.now) }
{
    match into.mark() {
        Mark::Go => falls,
        Mark::Done => false,
    }
}

/// Puts the lines of the fall that is owed at the end of the list.
fn push_owed(
    alloc: Global,
    point: &[i64],
    entering: &Entering,
    lists: &mut Vec<Vec<i64>>,
) -> Result<(), PointFault>
    requires bounded { length point.now < 2 ^ 32 - 1 }
    requires showable { All (IsShowable point.now) (owed_falls entering.now) }
    ensures { GivesLines point.now (owed_falls entering.now) lists.old.items lists.new.items result }
{
    if !is_owed(entering.falls, entering.into) {
        return Ok(());
    }
    let Some((old, _)) = entering.from.ranks().split_first() else {
        return Ok(());
    };
    let Some((new, _)) = entering.into.ranks().split_first() else {
        return Ok(());
    };
    push_fall(alloc, point, entering.change, old, new, lists)
}

/// Puts the lines of the piece that is entered at the end of the list.
pub(crate) fn push_entered(
    alloc: Global,
    point: &[i64],
    entering: &Entering,
    lists: &mut Vec<Vec<i64>>,
) -> Result<(), PointFault>
    requires bounded { length point.now < 2 ^ 32 - 1 }
    requires showable { All (IsShowable point.now) (entering_rows entering.now) }
    ensures { GivesLines point.now (entering_rows entering.now) lists.old.items lists.new.items result }
{
    match push_lines(alloc, point, entering.change, entering.into.rows(), lists) {
        Err(fault) => Err(fault),
        Ok(()) => push_owed(alloc, point, entering, lists),
    }
}
