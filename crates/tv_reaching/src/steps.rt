// The steps of a run.

ghost use Rattle.std.specs.Prelude.{◌≡◌, ◌+◌, ◌^◌, ◌<◌, All, IfOk, length};
ghost use Rattle.tv_linear.specs.Linear.{IsWithin};
ghost use Rattle.tv_reaching.specs.FoundRuns.{lists_of};
ghost use Rattle.tv_reaching.specs.Making.{AreStepsPushed};

use std::alloc::{AllocError, Global};
use tv_linear::{push_item, shortened};
use tv_points::Step;

/// Puts the steps by these cases, each to the state after its own, at the end of the list.
pub(crate) fn push_steps(
    alloc: Global,
    path: &[u32],
    draws: &[Vec<i128>],
    place: u32,
    steps: &mut Vec<Step>,
) -> Result<(), AllocError>
    requires draws { All (All (IsWithin 62)) (lists_of draws.now) }
    requires even { length draws.now ≡ length path.now }
    requires bounded { place + length path.now < 2 ^ 32 }
    ensures { IfOk result (λ _. AreStepsPushed path.now (lists_of draws.now) place steps.old.items steps.new.items) }
{
    match path {
        [] => Ok(()),
        [number, path @ ..] => match draws {
            [] => unreachable!(),
            [first, draws @ ..] => {
                let next = place + 1;
                let step = Step {
                    taken: *number,
                    draws: shortened(alloc, first)?,
                    next,
                };
                push_item(steps, step)?;
                push_steps(alloc, path, draws, next, steps)
            }
        },
    }
}
