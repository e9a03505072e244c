// Whether rows lie inside of others at integer points: asked first of a point that is known, and then of the solver.

ghost use Rattle.std.specs.Prelude.{◌≡◌, ◌≤ℤ◌, ℤ, List, length, IfOk, IfSome, IsTrue, true};
ghost use Rattle.tv_linear.specs.Linear.{Linear, columns as width, scaled_value};
ghost use Rattle.tv_cases.specs.Given.{row_lists};
ghost use Rattle.tv_region.specs.Met.{all_met, meets, Has};
ghost use Rattle.tv_region.specs.Inclusion.{IsShown, LiesInside, LiesInSome};

use crate::limits::Limits;
use std::alloc::{AllocError, Global};
use tv_farkas::{Refuted, refute};
use tv_linear::sums::{Slice, dot_from};
use tv_linear::{Row, RowFault, copies, have_columns, held};
use tv_simplex::SolveFault;

/// The numbers of a rational point over its scale.
#[derive(Drop)]
pub(crate) struct Point {
    pub values: Vec<i128>,
    pub scale: i128,
}

/// The value of the row at the point, times the scale; `None` where a number on the way is 2^127 or more in magnitude.
fn value_at(row: &Row, point: &Point) -> Option<i128>
    requires { length point.now.values.items ≡ width row.now }
    ensures { IfSome result (λ v. v ≡ scaled_value row.now point.now.values.items point.now.scale) }
{
    match dot_from(0, row.coefficients(), &Slice(&point.values)) {
        None => None,
        Some(total) => match held::product(row.constant(), point.scale) {
            None => None,
            Some(last) => held::sum(total, last),
        },
    }
}

/// Whether the value of the row is found to be 1 or more at the point: then the point meets the denial of the row.
fn is_denied_at(row: &Row, point: &Point) -> bool
    requires { length point.now.values.items ≡ width row.now }
    ensures { IsTrue result → point.now.scale ≤ℤ scaled_value row.now point.now.values.items point.now.scale }
{
    match value_at(row, point) {
        None => false,
        Some(value) => value >= point.scale,
    }
}

/// Whether the denial of some row is found to be met at the point.
fn is_some_denied_at(rows: &[Row], point: &Point) -> bool
    requires { (r : Linear) → Has rows.now r → length point.now.values.items ≡ width r }
{
    'rows: for row in rows {
        if is_denied_at(row, point) {
            return true;
        }
    }
    false
}

/// Whether the solver refutes the rows with one more. Where it does not settle the question the answer is no.
fn is_refuted(alloc: Global, rows: &[Row], more: Row, limits: &Limits) -> Result<bool, AllocError>
    requires rows { (r : Linear) → Has rows.now r → width r ≡ limits.now.columns }
    requires more { width more ≡ limits.now.columns }
    ensures { let n = limits.now.columns in
        IfOk result (λ b. IsTrue b → (xs : List ℤ) → length xs ≡ n → all_met xs rows.now ≡ true → meets xs more ≡ true → ⊥) }
{
    let mut all = copies(alloc, rows)?;
    all.push(more)?;
    match refute(alloc, &all, limits.columns, limits.pivots) {
        Ok(Refuted::Empty { .. }) => Ok(true),
        Ok(Refuted::Point { .. }) => Ok(false),
        Err(SolveFault::Memory) => Err(AllocError),
        Err(_) => Ok(false),
    }
}

/// Whether the solver shows that each integer point that meets the rows meets this one: it refutes them with the denial of it.
fn is_shown(alloc: Global, rows: &[Row], row: &Row, limits: &Limits) -> Result<bool, AllocError>
    requires rows { (r : Linear) → Has rows.now r → width r ≡ limits.now.columns }
    requires row { width row.now ≡ limits.now.columns }
    ensures { IfOk result (λ b. IsTrue b → IsShown limits.now.columns rows.now row.now) }
{
    match row.deny(alloc) {
        Ok(denied) => is_refuted(alloc, rows, denied, limits),
        Err(RowFault::Wide { .. }) => Ok(false),
        Err(RowFault::Memory) => Err(AllocError),
    }
}

/// Whether the solver shows that of each of the outer rows.
fn are_shown(
    alloc: Global,
    rows: &[Row],
    outer: &[Row],
    limits: &Limits,
) -> Result<bool, AllocError>
    requires rows { (r : Linear) → Has rows.now r → width r ≡ limits.now.columns }
    requires outer { (r : Linear) → Has outer.now r → width r ≡ limits.now.columns }
    ensures { IfOk result (λ b. IsTrue b → LiesInside limits.now.columns rows.now outer.now) }
{
    'outer: for row in outer {
        if !is_shown(alloc, rows, row, limits)? {
            return Ok(false);
        }
    }
    Ok(true)
}

/// Whether the rows are found to lie inside of the outer ones. The point meets the rows, so then it meets no denial of an outer one.
fn is_found_inside(
    alloc: Global,
    rows: &[Row],
    point: &Point,
    outer: &[Row],
    limits: &Limits,
) -> Result<bool, AllocError>
    requires rows { (r : Linear) → Has rows.now r → width r ≡ limits.now.columns }
    requires point { length point.now.values.items ≡ limits.now.columns }
    ensures { IfOk result (λ b. IsTrue b → LiesInside limits.now.columns rows.now outer.now) }
{
    if !have_columns(outer, limits.columns) {
        return Ok(false);
    }
    if is_some_denied_at(outer, point) {
        return Ok(false);
    }
    are_shown(alloc, rows, outer, limits)
}

/// Whether the rows are found to lie inside of one of the lists.
pub(crate) fn lies_in_some(
    alloc: Global,
    rows: &[Row],
    point: &Point,
    lists: &[Vec<Row>],
    limits: &Limits,
) -> Result<bool, AllocError>
    requires rows { (r : Linear) → Has rows.now r → width r ≡ limits.now.columns }
    requires point { length point.now.values.items ≡ limits.now.columns }
    ensures { IfOk result (λ b. IsTrue b → LiesInSome limits.now.columns rows.now (row_lists lists.now)) }
{
    'lists: for list in lists {
        if is_found_inside(alloc, rows, point, list, limits)? {
            return Ok(true);
        }
    }
    Ok(false)
}
