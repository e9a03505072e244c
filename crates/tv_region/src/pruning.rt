// Lists of rows without those that lie inside of others.

ghost use Rattle.std.specs.Prelude.{◌≡◌, length, IfOk, IfSome, IsTrue};
ghost use Rattle.tv_linear.specs.Linear.{Linear, columns as width};
ghost use Rattle.tv_cases.specs.Given.{lists, row_lists};
ghost use Rattle.tv_region.specs.Met.{Has, InSome};
ghost use Rattle.tv_region.specs.Inclusion.{LiesInSome, IsPruned};

use crate::inclusion::{Point, lies_in_some};
use crate::limits::Limits;
use std::alloc::{AllocError, Global};
use tv_farkas::{Refuted, refute};
use tv_linear::Row;
use tv_simplex::SolveFault;

/// The point of the rows, where the solver finds one.
fn point_of(alloc: Global, rows: &[Row], limits: &Limits) -> Result<Option<Point>, AllocError>
    requires { (r : Linear) → Has rows.now r → width r ≡ limits.now.columns }
    ensures { IfOk result (λ found. IfSome found (λ p. length p.values.items ≡ limits.now.columns)) }
{
    match refute(alloc, rows, limits.columns, limits.pivots) {
        Ok(Refuted::Point { values, scale }) => Ok(Some(Point { values, scale })),
        Ok(Refuted::Empty { .. }) => Ok(None),
        Err(SolveFault::Memory) => Err(AllocError),
        Err(_) => Ok(None),
    }
}

/// Whether a point of the rows is found, and the rows are found to lie inside of one of the lists.
fn is_redundant(
    alloc: Global,
    rows: &[Row],
    lists: &[Vec<Row>],
    limits: &Limits,
) -> Result<bool, AllocError>
    requires { (r : Linear) → Has rows.now r → width r ≡ limits.now.columns }
    ensures { IfOk result (λ b. IsTrue b → LiesInSome limits.now.columns rows.now (row_lists lists.now)) }
{
    match point_of(alloc, rows, limits)? {
        None => Ok(false),
        Some(point) => lies_in_some(alloc, rows, &point, lists, limits),
    }
}

/// The lists from the last to the first, without those that are found to lie inside of later ones.
pub(crate) fn pruned(
    alloc: Global,
    all: Vec<Vec<Row>>,
    limits: &Limits,
) -> Result<Vec<Vec<Row>>, AllocError>
    requires { (r : Linear) → InSome (lists all) r → width r ≡ limits.now.columns }
    ensures { IfOk result (λ v. IsPruned limits.now.columns (lists all) (lists v)) }
{
    let mut left = all;
    let mut kept = Vec::new(alloc);
    'left: while let Some(list) = left.pop() {
        if !is_redundant(alloc, &list, &kept, limits)? {
            kept.push(list)?;
        }
    }
    Ok(kept)
}
