// Splits of proof trees, at rows and at coordinates of points.

ghost use Rattle.std.specs.Prelude.{◌-◌, ◌^◌, ◌<◌, List, IfOk};
ghost use Rattle.tv_linear.specs.Linear.{Linear};
ghost use Rattle.tv_farkas.specs.Stretching.{IsSplitOf};
ghost use Rattle.tv_farkas.specs.Halving.{IsFractionAt, ArePointSides};

use crate::Branch;
use crate::points::floor_of;
use crate::rows::{at_least, at_most};
use std::alloc::{AllocError, Global};
use tv_linear::{CoverTree, Row};

/// The sides of a split, in the order in which they are settled. The row of the second denies that of the first.
#[derive(Drop)]
pub struct Halves {
    pub first: Branch,
    pub second: Branch,
}

/// A split at a row, with the trees where it is met and where it is not.
pub fn split_of(
    alloc: Global,
    row: Row,
    holds: CoverTree,
    fails: CoverTree,
) -> Result<CoverTree, AllocError>
    ensures { IfOk result (IsSplitOf row holds fails) }
{
    let holds = Box::new(alloc, holds)?;
    let fails = Box::new(alloc, fails)?;
    Ok(CoverTree::Split(row, holds, fails))
}

/// The sides below and above a coordinate of a point.
pub fn halves_at_point(
    alloc: Global,
    columns: u32,
    column: u32,
    values: &[i128],
    scale: i128,
) -> Result<Halves, AllocError>
    requires bounded { columns < 2 ^ 32 - 1 }
    requires fraction { (kept : List Linear) × IsFractionAt columns kept column values.now scale }
    ensures { IfOk result (ArePointSides columns column values.now scale) }
{
    let floor = floor_of(values[column as usize], scale);
    let low = at_most(alloc, columns, column, floor)?;
    let high = at_least(alloc, columns, column, floor)?;
    let first = Vec::from_slice(alloc, values)?;
    let second = Vec::from_slice(alloc, values)?;
    Ok(Halves {
        first: Branch {
            row: low,
            point: Some((first, scale)),
        },
        second: Branch {
            row: high,
            point: Some((second, scale)),
        },
    })
}
