// The states of a run.

ghost use Rattle.std.specs.Prelude.{All};
ghost use Rattle.tv_linear.specs.Linear.{IsWithin};
ghost use Rattle.tv_cases.specs.Systems.{cases_of};
ghost use Rattle.tv_points.specs.States.{seen, IsState};
ghost use Rattle.tv_reaching.specs.FoundRuns.{lists_of};
ghost use Rattle.tv_reaching.specs.Making.{GivesStates, CanRun};

use crate::next::next_state;
use std::alloc::Global;
use tv_cases::Cases;
use tv_linear::push_item;
use tv_points::{PointFault, State};

/// Puts a state, and those to which the cases lead from it, at the end of the list.
pub(crate) fn push_states(
    alloc: Global,
    about: &Cases,
    path: &[u32],
    draws: &[Vec<i128>],
    state: State,
    states: &mut Vec<State>,
) -> Result<(), PointFault>
    requires state { IsState (cases_of about.now) state }
    requires draws { All (All (IsWithin 62)) (lists_of draws.now) }
    requires run { CanRun (cases_of about.now) path.now (lists_of draws.now) (seen state) }
    ensures { GivesStates (cases_of about.now) path.now (lists_of draws.now) (seen state) states.old.items states.new.items result }
{
    match path {
        [] => {
            push_item(states, state)?;
            Ok(())
        }
        [number, path @ ..] => match draws {
            [] => unreachable!(),
            [first, draws @ ..] => match next_state(alloc, about, &state, *number, first) {
                Err(fault) => Err(fault),
                Ok(next) => {
                    push_item(states, state)?;
                    push_states(alloc, about, path, draws, next, states)
                }
            },
        },
    }
}
