// The state after a step.

ghost use Rattle.std.specs.Prelude.{◌≡◌, ◌++◌, ◌∷◌, [], ◌≤◌, All, IfOk, length, map, None, Some};
ghost use Rattle.tv_linear.specs.Linear.{IsWithin};
ghost use Rattle.tv_linear.specs.Known.{term_value};
ghost use Rattle.tv_linear.specs.Terms.{terms_after};
ghost use Rattle.tv_cases.specs.Systems.{cases_of};
ghost use Rattle.tv_points.specs.States.{seen, IsState};
ghost use Rattle.tv_reaching.specs.Making.{GivesNumbers, GivesNext, CanTake};

use crate::term::value_after;
use std::alloc::{AllocError, Global};
use tv_cases::{Cases, Update};
use tv_linear::shortened;
use tv_points::{PointFault, State, case_at};

/// The values and then the draws.
fn joined(alloc: Global, values: &[i64], draws: &[i128]) -> Result<Vec<i64>, AllocError>
    requires values { All (IsWithin 62) values.now }
    requires draws { All (IsWithin 62) draws.now }
    ensures exact { IfOk result (λ point. point.items ≡ values.now ++ draws.now) }
    ensures narrow { IfOk result (λ point. All (IsWithin 62) point.items) }
{
    let mut point = Vec::from_slice(alloc, values)?;
    let numbers = shortened(alloc, draws)?;
    point.extend_from_slice(&numbers)?;
    Ok(point)
}

/// Puts a value at the end of a list.
fn push_value(values: &mut Vec<i64>, value: i64) -> Result<(), AllocError>
    ensures { IfOk result (λ _. values.new.items ≡ values.old.items ++ value ∷ []) }
{
    values.push(value)?;
    Ok(())
}

/// The values of the variables after the updates.
fn values_after(
    alloc: Global,
    updates: &[Update],
    point: &[i64],
    variables: u32,
) -> Result<Vec<i64>, PointFault>
    requires inside { variables ≤ length point.now }
    requires narrow { All (IsWithin 62) point.now }
    ensures { GivesNumbers (map (term_value point.now) (terms_after variables updates.now)) result }
{
    let mut values = Vec::new(alloc);
    for variable in 0..variables {
        match value_after(updates, point, variable) {
            None => return Err(PointFault::Wide { column: variable }),
            Some(value) => push_value(&mut values, value)?,
        }
    }
    Ok(values)
}

/// The state that the case with this number leads to.
pub(crate) fn next_state(
    alloc: Global,
    about: &Cases,
    state: &State,
    number: u32,
    draws: &[i128],
) -> Result<State, PointFault>
    requires state { IsState (cases_of about.now) state.now }
    requires draws { All (IsWithin 62) draws.now }
    requires leads { CanTake (cases_of about.now) number draws.now (seen state.now) }
    ensures { GivesNext (cases_of about.now) number draws.now (seen state.now) result }
{
    let case = match case_at(about, number) {
        Some(case) => case,
        None => unreachable!(),
    };
    let point = joined(alloc, &state.values, draws)?;
    match values_after(alloc, &case.updates, &point, about.variables()) {
        Err(fault) => Err(fault),
        Ok(values) => Ok(State {
            location: case.to,
            values,
        }),
    }
}
