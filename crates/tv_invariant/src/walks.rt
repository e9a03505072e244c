// Runs of a program, by numbers that look like chance.

ghost use Rattle.std.specs.Prelude.{◌≡◌, ◌<◌, ◌≤◌, ◌++◌, List, All, IfOk, IfSome, IsTrue, Contains, length, map, ℤ};
ghost use Rattle.tv_linear.specs.Linear.{columns as width, value, IsMet};
ghost use Rattle.tv_linear.specs.Known.{term_value};
ghost use Rattle.tv_linear.specs.Terms.{update_of, terms_after};
ghost use Rattle.tv_cases.specs.LinearCases.{IsCase};
ghost use Rattle.tv_cases.specs.Systems.{cases_of};
ghost use Rattle.tv_cases.specs.Views.{case_view};
ghost use Rattle.tv_invariant.specs.Reached.{IsReached, AreDrawn};

use crate::reached::Reached;
use rand_core::Rng;
use rand_pcg::Pcg32;
use std::alloc::{AllocError, Global};
use tv_cases::{Case, Cases, Update};
use tv_linear::sums::{Slice, dot_from};
use tv_linear::{Row, RowView, push_item};
use tv_refute::meets;

/// How many runs are made. The numbers of each are drawn from a range twice as wide as that of the one before.
const RUNS: u32 = 10;

/// How many steps a run has at most.
const STEPS: u32 = 40;

/// How many of the cases from a location are tried.
const CHOICES: usize = 64;

/// How many of the first of them may be the one that is tried first.
const PLACES: u32 = 8;

/// A number that is at most `spread` in magnitude.
fn number(source: &mut Pcg32, spread: u16) -> i128 {
    i128::from(source.next_u32() % (2 * u32::from(spread) + 1)) - i128::from(spread)
}

/// Puts `count` numbers at the end of a list.
fn push_numbers(
    source: &mut Pcg32,
    count: u32,
    spread: u16,
    list: &mut Vec<i128>,
) -> Result<(), AllocError>
    ensures { IfOk result (λ _. AreDrawn count list.old.items list.new.items) }
{
    'numbers: for _ in 0..count {
        push_item(list, number(source, spread))?;
    }
    Ok(())
}

/// Whether a point meets each of the rows.
fn meets_all(point: &[i128], rows: &[Row]) -> bool
    requires { All (λ r. width r ≡ length point.now) rows.now }
    ensures { IsTrue result → All (IsMet point.now) rows.now }
{
    'rows: for row in rows {
        if !meets(point, RowView::of(row)) {
            return false;
        }
    }
    true
}

/// The value of a row at a point; `None` where a number on the way is 2^127 or more in magnitude.
fn value_of(row: &Row, point: &[i128]) -> Option<i128>
    requires { length point.now ≡ width row.now }
    ensures { IfSome result (λ number. number ≡ value row.now point.now) }
{
    match dot_from(0, row.coefficients(), &Slice(point)) {
        None => None,
        Some(total) => tv_linear::held::sum(total, row.constant()),
    }
}

/// The value of a variable after the updates, at a point of values and draws.
fn value_after(updates: &[Update], point: &[i128], variable: u32) -> Option<i128>
    requires inside { variable < length point.now }
    requires terms { All (λ u. width u.term ≡ length point.now) updates.now }
    ensures { IfSome result (λ number. number ≡ term_value point.now (update_of updates.now variable)) }
{
    'updates: for update in updates {
        if update.variable == variable {
            return value_of(&update.term, point);
        }
    }
    Some(point[variable as usize])
}

/// The values of `variables` variables after the updates.
fn values_after(
    alloc: Global,
    updates: &[Update],
    point: &[i128],
    variables: u32,
) -> Result<Option<Vec<i128>>, AllocError>
    requires inside { variables ≤ length point.now }
    requires terms { All (λ u. width u.term ≡ length point.now) updates.now }
    ensures { let values = map (term_value point.now) (terms_after variables updates.now) in
        IfOk result (λ after. IfSome after (λ v. v.items ≡ values)) }
{
    let mut values = Vec::new(alloc);
    'variables: for variable in 0..variables {
        match value_after(updates, point, variable) {
            None => return Ok(None),
            Some(value) => push_item(&mut values, value)?,
        }
    }
    Ok(Some(values))
}

/// The state that a case leads to, with draws of at most `spread` in magnitude, where it can be taken with them.
fn after(
    alloc: Global,
    about: &Cases,
    case: &Case,
    state: &Reached,
    source: &mut Pcg32,
    spread: u16,
) -> Result<Option<Reached>, AllocError>
    requires case { Contains (cases_of about.now).cases (case_view case.now) }
    requires place { state.now.location ≡ case.now.from }
    requires state { IsReached (cases_of about.now) state.now }
    ensures { IfOk result (λ next. IfSome next (IsReached (cases_of about.now))) }
{
    let mut point = Vec::from_slice(alloc, &state.values)?;
    push_numbers(source, case.draws, spread, &mut point)?;
    if !meets_all(&point, &case.guards.rows) {
        return Ok(None);
    }
    match values_after(alloc, &case.updates, &point, about.variables())? {
        None => Ok(None),
        Some(values) => Ok(Some(Reached {
            location: case.to,
            values,
        })),
    }
}

/// A state that some case leads to, where one is found: of the cases from the location that can be taken, the first from a place on, or
/// else the last.
fn next(
    alloc: Global,
    about: &Cases,
    state: &Reached,
    source: &mut Pcg32,
    spread: u16,
) -> Result<Option<Reached>, AllocError>
    requires state { IsReached (cases_of about.now) state.now }
    ensures { IfOk result (λ next. IfSome next (IsReached (cases_of about.now))) }
{
    let from = (source.next_u32() % PLACES) as usize;
    let mut found = None;
    'cases: for k in 0..CHOICES {
        let case = match about.leaving(state.location, k) {
            None => return Ok(found),
            Some(case) => case,
        };
        if let Some(next) = after(alloc, about, case, state, source, spread)? {
            if k >= from {
                return Ok(Some(next));
            }
            found = Some(next);
        }
    }
    Ok(found)
}

/// A state at the start.
fn first(
    alloc: Global,
    about: &Cases,
    source: &mut Pcg32,
    spread: u16,
) -> Result<Reached, AllocError>
    ensures { IfOk result (IsReached (cases_of about.now)) }
{
    let mut values = Vec::new(alloc);
    push_numbers(source, about.variables(), spread, &mut values)?;
    Ok(Reached {
        location: about.start(),
        values,
    })
}

/// Puts the states of a run at the end of a list.
fn walk(
    alloc: Global,
    about: &Cases,
    source: &mut Pcg32,
    spread: u16,
    states: &mut Vec<Reached>,
) -> Result<(), AllocError>
    requires states { All (IsReached (cases_of about.now)) states.old.items }
    ensures { IfOk result (λ _. All (IsReached (cases_of about.now)) states.new.items) }
{
    let mut state = first(alloc, about, source, spread)?;
    'steps: for _ in 0..STEPS {
        match next(alloc, about, &state, source, spread)? {
            None => return push_item(states, state),
            Some(next) => {
                push_item(states, state)?;
                state = next;
            }
        }
    }
    push_item(states, state)
}

/// The states of some runs, some hundreds at most.
///
/// The values at the start, the draws and the cases are those of a fixed sequence of numbers, so that the states are the same each time.
pub fn walks(alloc: Global, about: &Cases) -> Result<Vec<Reached>, AllocError>
    ensures { IfOk result (λ states. All (IsReached (cases_of about.now)) states.items) }
{
    let mut source = Pcg32::new(0, 0);
    let mut states = Vec::new(alloc);
    'runs: for run in 0..RUNS {
        walk(alloc, about, &mut source, 1 << run, &mut states)?;
    }
    Ok(states)
}
