// The entries of a ranking system.

ghost use Rattle.std.specs.Prelude.{◌≡◌, ℕ, ◌<◌, ◌^◌, ◌++◌, length, [], get_or, pos, neg_ℤ, unsigned_abs};
ghost use Rattle.tv_linear.specs.Linear.{IsWithin, linear};
ghost use Rattle.tv_linear.specs.Known.{number};
ghost use Rattle.tv_linear.specs.Terms.{update_of};
ghost use Rattle.tv_cases.specs.Views.{case_view};
ghost use Rattle.tv_rank.specs.RankingSystem.{unit_at as spec_unit, number_of, after as spec_after, entered as spec_entered, left as spec_left, same as spec_same, place_of as spec_place, term_entry as spec_term, entry_of_way, right_of as spec_right};

use crate::unknown::{Identity, Line, Unknown};
use tv_cases::Case;
use tv_linear::{Row, Update};

/// The number of a row in a column, which is 0 past the last.
fn number_at(row: &Row, column: Option<usize>) -> i128
    ensures is { result ≡ number column row.now }
    ensures narrow { IsWithin 62 result }
{
    match column {
        None => row.constant(),
        Some(column) => {
            if column < row.columns() as usize {
                row.coefficient(column as u32)
            } else {
                0
            }
        }
    }
}

/// 1 where the two are the same.
pub fn unit_at(number: Option<usize>, column: Option<usize>) -> i128
    ensures is { result ≡ spec_unit number column }
    ensures narrow { IsWithin 62 result }
{
    match (number, column) {
        (None, None) => 1,
        (Some(number), Some(column)) => if number == column { 1 } else { 0 },
        _ => 0,
    }
}

/// The number of a variable's term after the updates, in a column.
fn updated(updates: &[Update], variable: usize, column: Option<usize>) -> i128
    ensures is { result ≡ number_of column (update_of updates.now variable) }
    ensures narrow { IsWithin 62 result }
{
    'updates: for update in updates {
        if update.variable as usize == variable {
            return number_at(&update.term, column);
        }
    }
    unit_at(Some(variable), column)
}

/// What a number of a term stands before, after the case.
fn after(case: &Case, number: Option<usize>, column: Option<usize>) -> i128
    ensures is { result ≡ spec_after (case_view case.now) number column }
    ensures narrow { IsWithin 62 result }
{
    match number {
        None => unit_at(None, column),
        Some(variable) => updated(&case.updates, variable, column),
    }
}

/// How often a number of the term at a location stands in a column after the case.
pub fn entered(case: &Case, location: u32, number: Option<usize>, column: Option<usize>) -> i128
    ensures is { result ≡ spec_entered (case_view case.now) location number column }
    ensures narrow { IsWithin 62 result }
{
    if case.to == location {
        after(case, number, column)
    } else {
        0
    }
}

/// How often it stands there before the case.
pub fn left(case: &Case, location: u32, number: Option<usize>, column: Option<usize>) -> i128
    ensures is { result ≡ spec_left (case_view case.now) location number column }
    ensures narrow { IsWithin 62 result }
{
    if case.from == location {
        unit_at(number, column)
    } else {
        0
    }
}

fn same(identity: Identity, other: Identity) -> bool
    ensures { result ≡ spec_same identity other }
{
    match (identity, other) {
        (Identity::Step(place), Identity::Step(other)) => place == other,
        (Identity::Bound, Identity::Bound) => true,
        _ => false,
    }
}

/// The number of a row that is met, in a column.
pub fn met_number(known: &[Row], guards: &[Row], row: usize, column: Option<usize>) -> i128
    ensures is { result ≡ number column (get_or (known.now ++ guards.now) row (linear [] (pos 0))) }
    ensures narrow { IsWithin 62 result }
{
    if row < known.len() {
        return number_at(&known[row], column);
    }
    let row = row - known.len();
    if row < guards.len() {
        return number_at(&guards[row], column);
    }
    0
}

/// The place of the case that an identity speaks of, where the one at `falling` falls.
pub fn place_of(identity: Identity, falling: usize) -> usize
    ensures { result ≡ spec_place falling identity }
{
    match identity {
        Identity::Step(place) => place,
        Identity::Bound => falling,
    }
}

/// The number of the other sign.
pub fn opposite(number: i128) -> i128
    requires { unsigned_abs number < 2 ^ 64 }
    ensures is { result ≡ neg_ℤ number }
    ensures small { unsigned_abs result < 2 ^ 64 }
{
    -number
}

/// A number of a term in a column of an identity.
fn term_entry(
    case: &Case,
    identity: Identity,
    location: u32,
    number: Option<usize>,
    column: Option<usize>,
) -> i128
    ensures is { result ≡ spec_term (case_view case.now) location number identity column }
    ensures narrow { unsigned_abs result < 2 ^ 64 }
{
    let before = left(case, location, number, column);
    match identity {
        Identity::Step(_) => entered(case, location, number, column) - before,
        Identity::Bound => opposite(before),
    }
}

/// The number of an unknown in a row of the system that speaks of a case, where these rows are known where the case starts.
pub fn entry(case: &Case, known: &[Row], line: Line, unknown: Unknown) -> i128
    ensures { result ≡ entry_of_way (record { taken = case_view case.now; known = known.now }) line unknown }
{
    match unknown {
        Unknown::Positive(location, number) => {
            term_entry(case, line.identity, location, number, line.column)
        }
        Unknown::Negative(location, number) => {
            opposite(term_entry(case, line.identity, location, number, line.column))
        }
        Unknown::Multiplier(identity, row) => {
            if same(identity, line.identity) {
                opposite(met_number(known, &case.guards.rows, row, line.column))
            } else {
                0
            }
        }
        Unknown::Slack(identity) => {
            if same(identity, line.identity) {
                unit_at(None, line.column)
            } else {
                0
            }
        }
    }
}

/// The right side of a row.
pub fn right_of(falling: usize, line: Line) -> i128
    ensures { result ≡ spec_right falling line.identity line.column }
{
    match (line.identity, line.column) {
        (Identity::Step(place), None) => if place == falling { -1 } else { 0 },
        _ => 0,
    }
}
