// Reading the terms and the multipliers off a solution.

ghost use Rattle.std.specs.Prelude.{◌≡◌, ◌+◌, ◌*◌, ◌<◌, ◌≤◌, ◌-◌, ◌^◌, ◌++◌, ◌∷◌, [], length, All, IfOk, pos};
ghost use Rattle.tv_linear.specs.Linear.{IsWithin};
ghost use Rattle.tv_simplex.specs.Outcomes.{IsShort};
ghost use Rattle.tv_rank.specs.Given.{AreParts, lists};
ghost use Rattle.tv_rank.specs.Questions.{ways_of, many_of, terms_until};
ghost use Rattle.tv_rank.specs.Ways.{met_rows};
ghost use Rattle.tv_rank.specs.RankingSystem.{steps_below};
ghost use Rattle.tv_rank.specs.Reading.{difference as spec_difference, term_read, multipliers_read, line_read, all_read, local_read, terms_of};

use crate::LocalTerm;
use crate::listing::touches;
use crate::question::Question;
use crate::span::span_of;
use std::alloc::{AllocError, Global};
use tv_linear::{Row, push_item};

/// A number that 64 bits hold.
fn short(number: i128) -> i64
    requires { IsShort number }
    ensures { result ≡ number }
{
    number as i64
}

/// The positive part that stands at a place, less the negative part after it.
fn difference(values: &[i128], start: usize, pair: usize) -> i64
    requires inside { start + 2 * pair + 1 < length values.now }
    requires parts { AreParts values.now }
    ensures is { result ≡ spec_difference values.now start pair }
    ensures narrow { IsWithin 62 result }
{
    let place = start + 2 * pair;
    short(values[place] - values[place + 1])
}

/// Puts the difference of a pair at the end of a list of narrow numbers.
fn push_difference(
    coefficients: &mut Vec<i64>,
    values: &[i128],
    start: usize,
    pair: usize,
) -> Result<(), AllocError>
    requires inside { start + 2 * pair + 1 < length values.now }
    requires parts { AreParts values.now }
    ensures pushed { IfOk result (λ _. coefficients.new.items ≡ coefficients.old.items ++ spec_difference values.now start pair ∷ []) }
    ensures narrow { IfOk result (λ _. All (IsWithin 62) coefficients.old.items → All (IsWithin 62) coefficients.new.items) }
{
    push_item(coefficients, difference(values, start, pair))
}

/// The term whose pairs stand from a place on.
pub fn term_of(
    alloc: Global,
    values: &[i128],
    start: usize,
    variables: u32,
) -> Result<Row, AllocError>
    requires bounded { variables < 2 ^ 32 - 1 }
    requires inside { start + 2 * variables + 1 < length values.now }
    requires parts { AreParts values.now }
    ensures { IfOk result (λ r. r ≡ term_read variables values.now start) }
{
    let mut coefficients = Vec::with_capacity(alloc, variables as usize)?;
    'variables: for variable in 0..variables as usize {
        push_difference(&mut coefficients, values, start, variable)?;
    }
    Ok(Row::from_narrow(coefficients, difference(values, start, variables as usize)))
}

/// The multipliers that stand from a place on, and 1 for the denial of what they show.
pub fn line_of(
    alloc: Global,
    values: &[i128],
    start: usize,
    count: usize,
) -> Result<Vec<i64>, AllocError>
    requires inside { start + count ≤ length values.now }
    requires parts { AreParts values.now }
    ensures { IfOk result (λ v. v.items ≡ multipliers_read values.now start count ++ pos 1 ∷ []) }
{
    let mut multipliers = Vec::new(alloc);
    'rows: for row in 0..count {
        push_item(&mut multipliers, short(values[start + row]))?;
    }
    push_item(&mut multipliers, 1)?;
    Ok(multipliers)
}

/// Puts the term at a location where a case of the set starts or ends at the end of the list, and returns the place after its pairs.
fn push_term(
    terms: &mut Vec<LocalTerm>,
    alloc: Global,
    asked: &Question,
    location: u32,
    values: &[i128],
    place: usize,
) -> Result<usize, AllocError>
    requires place { place ≡ length (terms_until asked.now location) }
    requires inside { length (terms_until asked.now (location + 1)) ≤ length values.now }
    requires parts { AreParts values.now }
    ensures pushed { IfOk result (λ _. terms.new.items ≡ terms.old.items ++ local_read asked.now values.now location) }
    ensures behind { IfOk result (λ r. r ≡ length (terms_until asked.now (location + 1))) }
{
    if touches(asked, location) {
        let row = term_of(alloc, values, place, asked.variables)?;
        push_item(terms, LocalTerm { location, row })?;
        return Ok(place + (2 * asked.variables as usize + 2));
    }
    Ok(place)
}

/// The terms of the locations, and the place after their pairs.
pub fn read_terms(
    alloc: Global,
    asked: &Question,
    values: &[i128],
) -> Result<(Vec<LocalTerm>, usize), AllocError>
    requires inside { length (terms_until asked.now asked.now.locations) ≤ length values.now }
    requires parts { AreParts values.now }
    ensures terms { IfOk result (λ r. r.0.items ≡ terms_of asked.now values.now) }
    ensures place { IfOk result (λ r. r.1 ≡ length (terms_until asked.now asked.now.locations)) }
{
    let span = span_of(asked);
    let mut terms = Vec::new(alloc);
    let mut place = 0;
    'locations: for location in span.low..span.high {
        place = push_term(&mut terms, alloc, asked, location, values, place)?;
    }
    Ok((terms, place))
}

/// Puts the multipliers of the case at a place of the set at the end of the list, and returns the place after its slack.
fn push_line(
    lines: &mut Vec<Vec<i64>>,
    alloc: Global,
    asked: &Question,
    step: usize,
    values: &[i128],
    place: usize,
) -> Result<usize, AllocError>
    requires step { step < many_of asked.now }
    requires inside { place + (length (met_rows (ways_of asked.now step)) + 1) ≤ length values.now }
    requires parts { AreParts values.now }
    ensures pushed { let line = line_read values.now place (ways_of asked.now step) in
        IfOk result (λ _. lists lines.new.items ≡ lists lines.old.items ++ line ∷ []) }
    ensures behind { IfOk result (λ r. r ≡ place + (length (met_rows (ways_of asked.now step)) + 1)) }
{
    let count = asked.met_count(step);
    push_item(lines, line_of(alloc, values, place, count)?)?;
    Ok(place + (count + 1))
}

/// The multipliers of the steps and of the bound, which stand from a place on.
pub fn read_lines(
    alloc: Global,
    asked: &Question,
    values: &[i128],
    start: usize,
) -> Result<Vec<Vec<i64>>, AllocError>
    requires inside { let steps = steps_below (ways_of asked.now) (many_of asked.now) in
        let bound = met_rows (ways_of asked.now asked.now.falling) in
        start + length steps + (length bound + 1) ≤ length values.now }
    requires parts { AreParts values.now }
    ensures { IfOk result (λ v. lists v.items ≡ all_read (ways_of asked.now) (many_of asked.now) asked.now.falling values.now start) }
{
    let mut lines = Vec::new(alloc);
    let mut place = start;
    'places: for step in 0..asked.set.len() {
        place = push_line(&mut lines, alloc, asked, step, values, place)?;
    }
    push_line(&mut lines, alloc, asked, asked.falling, values, place)?;
    Ok(lines)
}
