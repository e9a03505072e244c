// How a row is shown at a point.

ghost use Rattle.std.specs.Prelude.{◌≡◌, ◌+◌, ◌++◌, ◌∷◌, [], ◌-◌, ◌^◌, ◌<◌, ℕ, ◌+ℤ◌, ◌*ℤ◌, IfOk, SomeIff, MatchResult, length, None, pos, neg_ℤ, slice_index_or};
ghost use Rattle.tv_linear.specs.Linear.{IsWithin, dot};
ghost use Rattle.tv_linear.specs.Fits.{IsHeld, SumsHeld};
ghost use Rattle.tv_linear.specs.Known.{denied, KnownHeld, known_number};
ghost use Rattle.tv_refute.specs.Built.{built};
ghost use Rattle.tv_points.specs.PointRows.{above_zero, below_zero, constants_of, multipliers_from, coefficient_of};
ghost use Rattle.tv_points.specs.Lines.{IsNarrowIn, AreNarrowBetween, IsShowable, ShowsAt, IsLineFault, line};

use crate::fault::PointFault;
use std::alloc::{AllocError, Global};
use tv_linear::held::add_product;
use tv_linear::push_item;
use tv_linear::sums::{Numbers, dot_from};
use tv_refute::{Built, number_of};

/// The number where it is above 0, and else 0.
fn upper(number: i64) -> i64
    ensures { result ≡ above_zero number }
{
    if number > 0 { number } else { 0 }
}

/// The magnitude of the number where it is below 0, and else 0.
fn lower(number: i64) -> i64
    requires { IsWithin 62 number }
    ensures { result ≡ below_zero number }
{
    if number < 0 { -number } else { 0 }
}

/// The number in half the bits.
fn halved(number: i128) -> i64
    requires { IsWithin 62 number }
    ensures { result ≡ number }
{
    number as i64
}

/// The coefficient of the row at a variable.
fn coefficient(row: &Built, column: u32) -> i64
    requires { IsNarrowIn (built row.now) column }
    ensures is { result ≡ coefficient_of (built row.now) column }
    ensures narrow { IsWithin 62 result }
{
    match number_of(row, Some(column as usize)) {
        Some(number) => halved(number),
        None => unreachable!(),
    }
}

/// Puts the multipliers at the rows of these variables, from one on, at the end of the list.
fn push_from(
    row: &Built,
    first: u32,
    point: &[i64],
    multipliers: &mut Vec<i64>,
) -> Result<(), AllocError>
    requires bounded { first + length point.now < 2 ^ 32 - 1 }
    requires narrow { AreNarrowBetween (built row.now) first (first + length point.now) }
    ensures { let more = multipliers_from (coefficient_of (built row.now)) first point.now in
        IfOk result (λ _. multipliers.new.items ≡ multipliers.old.items ++ more) }
{
    match point {
        [] => Ok(()),
        [_, rest @ ..] => {
            let number = coefficient(row, first);
            push_item(multipliers, upper(number))?;
            push_item(multipliers, lower(number))?;
            push_from(row, first + 1, rest, multipliers)
        }
    }
}

/// The multipliers at the rows of the point.
fn multipliers_of(alloc: Global, point: &[i64], row: &Built) -> Result<Vec<i64>, AllocError>
    requires bounded { length point.now < 2 ^ 32 - 1 }
    requires narrow { (column : ℕ) → column < length point.now → IsNarrowIn (built row.now) column }
    ensures { IfOk result (λ ms. ms.items ≡ multipliers_from (coefficient_of (built row.now)) 0 point.now) }
{
    let mut multipliers = Vec::new(alloc);
    push_from(row, 0, point, &mut multipliers)?;
    Ok(multipliers)
}

fn opposite(number: i64) -> i128
    ensures { result ≡ neg_ℤ number }
{
    -i128::from(number)
}

fn number_at(numbers: &[i64], k: usize) -> i64
    requires { k < length numbers.now }
    ensures { result ≡ slice_index_or numbers.now k (pos 0) }
{
    numbers[k]
}

/// The constants of a point's rows.
#[derive(Drop)]
struct Constants<'a>(&'a [i64]);

impl Numbers for Constants<'_> {
    ghost use Rattle.tv_points.specs.PointRows.{constants_of};

    ghost numbers = { λ c. constants_of c.0.now };

    fn number(&self, i: usize) -> i128 {
        let number = number_at(self.0, i / 2);
        if i % 2 == 0 {
            opposite(number)
        } else {
            i128::from(number)
        }
    }
}

/// The sum of the constants by the multipliers, and the denial's; `None` where a number on the way is 2^127 or more in magnitude.
fn constant_sum(row: &Built, point: &[i64], multipliers: &[i64]) -> Option<i128>
    requires { length (constants_of point.now) ≡ length multipliers.now }
    ensures { let k = denied (built row.now) in let ms = multipliers.now in let zs = constants_of point.now in let z = known_number k None in
        let total = (pos 0 +ℤ dot ms zs) +ℤ pos 1 *ℤ z in
        SomeIff result (SumsHeld (pos 0) ms zs × KnownHeld k None × IsHeld (pos 1 *ℤ z) × IsHeld total) total }
{
    let total = dot_from(0, multipliers, &Constants(point))?;
    let denial = number_of(&Built::Denied(row), None)?;
    add_product(total, 1, denial)
}

/// The multipliers that show a row at a point, whose rows stand in the order of the variables, `x - k` and then `-x + k`: at each row of the
/// point, and then at the denial of the row.
///
/// `Wide` names the first column where a product or a partial sum of the line is 2^127 or more in magnitude. It is the constant's, since
/// the coefficients of the row are below 2^62.
pub(crate) fn multipliers_at(
    alloc: Global,
    point: &[i64],
    row: &Built,
) -> Result<Vec<i64>, PointFault>
    requires bounded { length point.now < 2 ^ 32 - 1 }
    requires showable { IsShowable point.now (built row.now) }
    ensures { MatchResult result (λ ms. ShowsAt point.now (built row.now) ms.items) (IsLineFault (line point.now (built row.now) ∷ [])) }
{
    let mut multipliers = multipliers_of(alloc, point, row)?;
    match constant_sum(row, point, &multipliers) {
        None => Err(PointFault::Wide {
            column: point.len() as u32,
        }),
        Some(_) => {
            push_item(&mut multipliers, 1)?;
            Ok(multipliers)
        }
    }
}
