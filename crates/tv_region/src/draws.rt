// The last columns of rows, eliminated by Fourier and Motzkin's rule.

ghost use Rattle.std.specs.Prelude.{◌≡◌, ◌∷◌, [], ◌+◌, ◌-◌, ◌^◌, ◌<◌, ◌≤◌, ◌↔◌, pos, negsuc, neg_ℤ, ◌<ℤ◌, true, cond, IfOk, IsTrue, ◌⊎◌, ◌&&◌};
ghost use Rattle.std.specs.Result.{IfErr};
ghost use Rattle.tv_linear.specs.Linear.{Linear, linear, columns as width, IsWithin, IsNarrow};
ghost use Rattle.tv_linear.specs.Tight.{tight};
ghost use Rattle.tv_region.specs.Met.{Has};
ghost use Rattle.tv_region.specs.Adding.{IsPassedOn, IsRowFault};
ghost use Rattle.tv_region.specs.Made.{last_of, shortened, multiples, cancelled, IsOpposite};
ghost use Rattle.tv_region.specs.Draws.{AllEnd, sum_row, IsWideSum, IsWideAmong, IsWideDrawn, IsParted, IsSummed, IsProjected};

use crate::fault::ListFault;
use crate::rows::insert;
use std::alloc::{AllocError, Global};
use tv_linear::{Row, RowFault};

/// The row with its first `columns` columns.
fn without_last(alloc: Global, row: &Row, columns: u32) -> Result<Row, AllocError>
    requires { columns ≤ width row.now }
    ensures { IfOk result (λ r. r ≡ shortened columns row.now) }
{
    let (front, _) = row.coefficients().split_at(columns as usize);
    let numbers = Vec::from_slice(alloc, front)?;
    Ok(Row::from_narrow(numbers, row.constant() as i64))
}

/// The number of the row in the column.
fn number_at(row: &Row, column: u32) -> i128
    requires { column < width row.now }
    ensures is { result ≡ last_of column row.now }
    ensures narrow { IsWithin 62 result }
{
    row.coefficient(column)
}

fn is_above_zero(number: i128) -> bool
    ensures { IsTrue result ↔ pos 0 <ℤ number }
{
    number > 0
}

fn is_below_zero(number: i128) -> bool
    ensures { IsTrue result ↔ number <ℤ pos 0 }
{
    number < 0
}

fn is_unit(number: i128, above: bool) -> bool
    ensures { IsTrue result ↔ number ≡ cond above (pos 1) (negsuc 0) }
{
    if above { number == 1 } else { number == -1 }
}

fn is_upper(row: &Row, column: u32) -> bool
    requires { column < width row.now }
    ensures { IsTrue result ↔ pos 0 <ℤ last_of column row.now }
{
    is_above_zero(number_at(row, column))
}

fn is_lower(row: &Row, column: u32) -> bool
    requires { column < width row.now }
    ensures { IsTrue result ↔ last_of column row.now <ℤ pos 0 }
{
    is_below_zero(number_at(row, column))
}

/// Whether the row has 1 in the column, or -1.
fn has_unit(row: &Row, column: u32, above: bool) -> bool
    requires { column < width row.now }
    ensures { IsTrue result ↔ last_of column row.now ≡ cond above (pos 1) (negsuc 0) }
{
    is_unit(number_at(row, column), above)
}

fn opposite(number: i128) -> i128
    requires { IsWithin 62 number }
    ensures { result ≡ neg_ℤ number }
{
    -number
}

/// The tightened row with two coefficients.
fn tight_pair(alloc: Global, first: i128, second: i128) -> Result<Row, AllocError>
    ensures { IfOk result (λ r. r ≡ tight (linear (first ∷ second ∷ []) (pos 0))) }
{
    match Row::new(alloc, &[first, second], 0)? {
        Some(row) => row.tighten(alloc),
        None => Err(AllocError),
    }
}

/// The least positive integers by which the two rows add up to 0 in the column, as the coefficients of a row.
fn multiples_of(alloc: Global, upper: &Row, lower: &Row, column: u32) -> Result<Row, AllocError>
    requires upper { column < width upper.now }
    requires lower { column < width lower.now }
    ensures { IfOk result (λ r. r ≡ multiples column upper.now lower.now) }
{
    let first = opposite(number_at(lower, column));
    tight_pair(alloc, first, number_at(upper, column))
}

/// The rows, as a list.
fn pair(alloc: Global, first: &Row, second: &Row) -> Result<Vec<Row>, AllocError>
    ensures { IfOk result (λ v. v.items ≡ first.now ∷ second.now ∷ []) }
{
    let mut rows = Vec::new(alloc);
    rows.push(first.copy(alloc)?)?;
    rows.push(second.copy(alloc)?)?;
    Ok(rows)
}

/// The fault of one row.
fn passed_on(fault: RowFault) -> ListFault
    ensures { IsPassedOn fault result }
{
    match fault {
        RowFault::Wide { column } => ListFault::Wide { column },
        RowFault::Memory => ListFault::Memory,
    }
}

/// The sum of multiples of the rows that cancels the column, without it and tightened.
fn sum_of(alloc: Global, upper: &Row, lower: &Row, column: u32) -> Result<Row, ListFault>
    requires opposite { IsOpposite column upper.now lower.now }
    requires upper { width upper.now ≡ column + 1 }
    requires lower { width lower.now ≡ column + 1 }
    ensures sum { IfOk result (λ r. r ≡ sum_row column upper.now lower.now) }
    ensures narrow { IfOk result (λ _. IsNarrow (cancelled column upper.now lower.now)) }
    ensures tightened { IfOk result (λ r. IsNarrow r) }
    ensures refused { IfErr result (IsRowFault (IsWideSum column upper.now lower.now)) }
{
    let multiples = multiples_of(alloc, upper, lower, column)?;
    let _columns = (multiples.columns(), upper.columns(), lower.columns());
    let rows = pair(alloc, upper, lower)?;
    match multiples.compose(alloc, &rows) {
        Ok(sum) => {
            let _columns = sum.columns();
            let short = without_last(alloc, &sum, column)?;
            let row = short.tighten(alloc)?;
            let _columns = row.columns();
            Ok(row)
        }
        Err(fault) => Err(passed_on(fault)),
    }
}

/// Rows by their numbers in a column, which is the last.
#[derive(Drop)]
struct Parts {
    uppers: Vec<Row>,
    lowers: Vec<Row>,
    /// Those with 0 there, without the column.
    rest: Vec<Row>,
}

fn parted(alloc: Global, rows: &[Row], column: u32) -> Result<Parts, AllocError>
    requires { (r : Linear) → Has rows.now r → width r ≡ column + 1 }
    ensures { IfOk result (λ p. IsParted column rows.now p.uppers.items p.lowers.items p.rest.items) }
{
    let mut uppers = Vec::new(alloc);
    let mut lowers = Vec::new(alloc);
    let mut rest = Vec::new(alloc);
    'rows: for row in rows {
        if is_upper(row, column) {
            uppers.push(row.copy(alloc)?)?;
        } else if is_lower(row, column) {
            lowers.push(row.copy(alloc)?)?;
        } else {
            rest.push(without_last(alloc, row, column)?)?;
        }
    }
    Ok(Parts {
        uppers,
        lowers,
        rest,
    })
}

/// Whether each row has 1 in the column, or each -1.
fn all_units(rows: &[Row], column: u32, above: bool) -> bool
    requires { (r : Linear) → Has rows.now r → column < width r }
    ensures { IsTrue result ↔ AllEnd column (cond above (pos 1) (negsuc 0)) rows.now }
{
    'rows: for row in rows {
        if !has_unit(row, column, above) {
            return false;
        }
    }
    true
}

/// The rows, and the sums of each upper row and the lower one.
fn add_sums(
    alloc: Global,
    mut rest: Vec<Row>,
    uppers: &[Row],
    lower: &Row,
    column: u32,
) -> Result<Vec<Row>, ListFault>
    requires uppers { (r : Linear) → Has uppers.now r → IsOpposite column r lower.now × (width r ≡ column + 1) }
    requires lower { width lower.now ≡ column + 1 }
    ensures summed { IfOk result (λ v. IsSummed column uppers.now (lower.now ∷ []) rest.items v.items) }
    ensures refused { IfErr result (IsRowFault (IsWideAmong column uppers.now (lower.now ∷ []))) }
{
    'uppers: for upper in uppers {
        let sum = match sum_of(alloc, upper, lower, column) {
            Ok(sum) => sum,
            Err(fault) => return Err(fault),
        };
        rest = insert(alloc, rest, sum)?;
    }
    Ok(rest)
}

/// The rows, and the sums of each upper row and each lower one.
fn add_all_sums(
    alloc: Global,
    mut rest: Vec<Row>,
    uppers: &[Row],
    lowers: &[Row],
    column: u32,
) -> Result<Vec<Row>, ListFault>
    requires opposite { (u l : Linear) → Has uppers.now u → Has lowers.now l → IsOpposite column u l }
    requires uppers { (r : Linear) → Has uppers.now r → width r ≡ column + 1 }
    requires lowers { (r : Linear) → Has lowers.now r → width r ≡ column + 1 }
    ensures summed { IfOk result (λ v. IsSummed column uppers.now lowers.now rest.items v.items) }
    ensures refused { IfErr result (IsRowFault (IsWideAmong column uppers.now lowers.now)) }
{
    'lowers: for lower in lowers {
        rest = match add_sums(alloc, rest, uppers, lower, column) {
            Ok(rest) => rest,
            Err(fault) => return Err(fault),
        };
    }
    Ok(rest)
}

/// Rows that are met where others are met with some numbers in their last columns.
#[derive(Drop)]
pub(crate) struct Shadow {
    pub rows: Vec<Row>,
    /// Whether they are met only there.
    pub exact: bool,
}

/// Whether each upper row has 1 in the column, or each lower one -1.
fn is_exact(uppers: &[Row], lowers: &[Row], column: u32) -> bool
    requires uppers { (r : Linear) → Has uppers.now r → column < width r }
    requires lowers { (r : Linear) → Has lowers.now r → column < width r }
    ensures exact { IsTrue result → AllEnd column (pos 1) uppers.now ⊎ AllEnd column (negsuc 0) lowers.now }
    ensures units { AllEnd column (pos 1) uppers.now → IsTrue result }
{
    all_units(uppers, column, true) || all_units(lowers, column, false)
}

fn and_also(first: bool, second: bool) -> bool
    ensures { result ≡ (first && second) }
{
    first && second
}

/// The rows without their last column, by the sums that cancel it.
fn eliminate(alloc: Global, rows: &[Row], column: u32) -> Result<Shadow, ListFault>
    requires { (r : Linear) → Has rows.now r → width r ≡ column + 1 }
    ensures projected { IfOk result (λ s. IsProjected column 1 rows.now s.rows.items s.exact) }
    ensures refused { IfErr result (IsRowFault (IsWideDrawn column (column + 1) rows.now)) }
{
    let parts = parted(alloc, rows, column)?;
    let Parts {
        uppers,
        lowers,
        rest,
    } = parts;
    let exact = is_exact(&uppers, &lowers, column);
    match add_all_sums(alloc, rest, &uppers, &lowers, column) {
        Ok(rows) => Ok(Shadow { rows, exact }),
        Err(fault) => Err(fault),
    }
}

/// The rows without their last `draws` columns.
pub(crate) fn project(
    alloc: Global,
    rows: Vec<Row>,
    columns: u32,
    draws: u32,
) -> Result<Shadow, ListFault>
    requires bounded { columns + draws < 2 ^ 32 }
    requires wide { (r : Linear) → Has rows.items r → width r ≡ columns + draws }
    ensures projected { IfOk result (λ s. IsProjected columns draws rows.items s.rows.items s.exact) }
    ensures refused { IfErr result (IsRowFault (IsWideDrawn columns (columns + draws) rows.items)) }
{
    let mut shadow = Shadow { rows, exact: true };
    let mut left = draws;
    'draws: while left > 0 {
        left -= 1;
        let exact = shadow.exact;
        let next = match eliminate(alloc, &shadow.rows, columns + left) {
            Ok(next) => next,
            Err(fault) => return Err(fault),
        };
        shadow = Shadow {
            exact: and_also(exact, next.exact),
            rows: next.rows,
        };
    }
    Ok(shadow)
}
