// The entries of a nested ranking system.

ghost use Rattle.std.specs.Prelude.{◌≡◌, ◌<◌, ◌^◌, ◌-ℤ◌, unsigned_abs};
ghost use Rattle.tv_cases.specs.Views.{case_view};
ghost use Rattle.tv_rank.specs.RankingSystem.{entered as spec_entered, left as spec_left};
ghost use Rattle.tv_nested.specs.NestedSystem.{same as spec_same, term_entry as spec_term, entry_of_way, right_of as spec_right};

use crate::unknown::{Identity, Line, Unknown};
use tv_cases::Case;
use tv_linear::Row;
use tv_rank::{entered, left, met_number, opposite, unit_at};

fn same(identity: Identity, other: Identity) -> bool
    ensures { result ≡ spec_same identity other }
{
    identity.place == other.place && identity.index == other.index
}

/// How often a number of a term stands in a column of its own identity: after the case, less before it.
fn own_entry(case: &Case, location: u32, number: Option<usize>, column: Option<usize>) -> i128
    ensures is { result ≡ spec_entered (case_view case.now) location number column -ℤ spec_left (case_view case.now) location number column }
    ensures small { unsigned_abs result < 2 ^ 64 }
{
    entered(case, location, number, column) - left(case, location, number, column)
}

/// A number of a term in a column of an identity.
fn term_entry(
    case: &Case,
    identity: Identity,
    location: u32,
    term: u32,
    number: Option<usize>,
    column: Option<usize>,
) -> i128
    ensures is { result ≡ spec_term (case_view case.now) location term number identity.index column }
    ensures small { unsigned_abs result < 2 ^ 64 }
{
    if identity.index == term {
        return own_entry(case, location, number, column);
    }
    if identity.index as u64 == term as u64 + 1 {
        return opposite(left(case, location, number, column));
    }
    0
}

/// The number of an unknown in a row of the system that speaks of a case, where these rows are known where the case starts.
pub fn entry(case: &Case, known: &[Row], line: Line, unknown: Unknown) -> i128
    ensures { result ≡ entry_of_way (record { taken = case_view case.now; known = known.now }) line unknown }
{
    match unknown {
        Unknown::Positive(location, term, number) => {
            term_entry(case, line.identity, location, term, number, line.column)
        }
        Unknown::Negative(location, term, number) => {
            opposite(term_entry(case, line.identity, location, term, number, line.column))
        }
        Unknown::Multiplier(identity, row) => {
            if same(identity, line.identity) {
                opposite(met_number(known, &case.guards.rows, row, line.column))
            } else {
                0
            }
        }
        Unknown::Slack(identity) => {
            if same(identity, line.identity) {
                unit_at(None, line.column)
            } else {
                0
            }
        }
    }
}

/// The right side of a row, where there are `depth` terms at a location.
pub fn right_of(depth: u32, line: Line) -> i128
    ensures { result ≡ spec_right depth line.identity line.column }
{
    match line.column {
        None => if line.identity.index == depth { 0 } else { -1 },
        Some(_) => 0,
    }
}
