// Whether cases and regions are of differences.

ghost use Rattle.std.specs.Prelude.{IsTrue, length, All};
ghost use Rattle.tv_cases.specs.Systems.{cases_of};
ghost use Rattle.tv_cases.specs.Views.{case_view};
ghost use Rattle.tv_region.specs.Differences.{IsDifference, IsShift, IsCaseOfDifferences, AreOfDifferences, IsOfDifferences};
ghost use Rattle.tv_pre.specs.Finding.{AreBetweenNumbers, IsAbsent, IsAtMostOnce};

use tv_cases::{Case, Cases};
use tv_linear::{Piece, Region, Row, Update};

/// Whether each of the numbers is between the two.
fn are_between(numbers: &[i64], least: i64, most: i64) -> bool
    ensures found { IsTrue result → AreBetweenNumbers least most numbers.now }
    ensures all { AreBetweenNumbers least most numbers.now → IsTrue result }
{
    'numbers: for place in 0..numbers.len() {
        if numbers[place] < least {
            return false;
        }
        if numbers[place] > most {
            return false;
        }
    }
    true
}

/// Whether none of the numbers from a place on is this one.
fn is_absent(numbers: &[i64], wanted: i64, from: usize) -> bool
    ensures found { IsTrue result → IsAbsent wanted numbers.now from (length numbers.now) }
    ensures all { IsAbsent wanted numbers.now from (length numbers.now) → IsTrue result }
{
    'numbers: for place in from..numbers.len() {
        if numbers[place] == wanted {
            return false;
        }
    }
    true
}

/// Whether no two of the numbers are this one.
fn is_at_most_once(numbers: &[i64], wanted: i64) -> bool
    ensures found { IsTrue result → IsAtMostOnce wanted numbers.now }
    ensures all { IsAtMostOnce wanted numbers.now → IsTrue result }
{
    'numbers: for place in 0..numbers.len() {
        if numbers[place] == wanted {
            return is_absent(numbers, wanted, place + 1);
        }
    }
    true
}

/// Whether each coefficient of the row is 0, 1 or -1, with at most one 1 and at most one -1.
fn is_difference(row: &Row) -> bool
    ensures found { IsTrue result → IsDifference row.now }
    ensures all { IsDifference row.now → IsTrue result }
{
    let numbers = row.coefficients();
    if !are_between(numbers, -1, 1) {
        return false;
    }
    if !is_at_most_once(numbers, 1) {
        return false;
    }
    is_at_most_once(numbers, -1)
}

/// Whether each of the rows is a difference.
pub(crate) fn are_differences(rows: &[Row]) -> bool
    ensures found { IsTrue result → All IsDifference rows.now }
    ensures all { All IsDifference rows.now → IsTrue result }
{
    'rows: for row in rows {
        if !is_difference(row) {
            return false;
        }
    }
    true
}

/// Whether the term is a number, or one column plus a number.
fn is_shift(row: &Row) -> bool
    ensures found { IsTrue result → IsShift row.now }
    ensures all { IsShift row.now → IsTrue result }
{
    let numbers = row.coefficients();
    if !are_between(numbers, 0, 1) {
        return false;
    }
    is_at_most_once(numbers, 1)
}

fn are_shifts(updates: &[Update]) -> bool
    ensures found { IsTrue result → All (λ u. IsShift u.term) updates.now }
    ensures all { All (λ u. IsShift u.term) updates.now → IsTrue result }
{
    'updates: for update in updates {
        if !is_shift(&update.term) {
            return false;
        }
    }
    true
}

fn is_case_of_differences(case: &Case) -> bool
    ensures found { IsTrue result → IsCaseOfDifferences (case_view case.now) }
    ensures all { IsCaseOfDifferences (case_view case.now) → IsTrue result }
{
    if !are_differences(&case.guards.rows) {
        return false;
    }
    are_shifts(&case.updates)
}

/// Whether each case is of differences.
pub(crate) fn are_cases_of_differences(about: &Cases) -> bool
    ensures found { IsTrue result → AreOfDifferences (cases_of about.now) }
    ensures all { AreOfDifferences (cases_of about.now) → IsTrue result }
{
    'cases: for case in about.list() {
        if !is_case_of_differences(case) {
            return false;
        }
    }
    true
}

/// Whether each row of the region is a difference.
pub(crate) fn is_of_differences(region: &Region) -> bool
    ensures found { IsTrue result → IsOfDifferences region.now }
    ensures all { IsOfDifferences region.now → IsTrue result }
{
    'pieces: for piece in &region.pieces {
        if !are_differences(&piece.poly.rows) {
            return false;
        }
    }
    true
}
