// A run that comes back to a state.

ghost use Rattle.std.specs.Prelude.{MatchResult, false};
ghost use Rattle.tv_cases.specs.Systems.{cases_of};
ghost use Rattle.tv_points.specs.States.{ComesBack};
ghost use Rattle.tv_points.specs.Lines.{IsLineFault};
ghost use Rattle.tv_points.specs.RunLines.{run_lines};
ghost use Rattle.tv_points.specs.Nodes.{endless, IsRunNode};

use crate::fault::PointFault;
use crate::pieces::pieces_of;
use crate::state::State;
use crate::step::Step;
use crate::steps::{Run, push_choices};
use std::alloc::Global;
use tv_cases::Cases;
use tv_cert::Node;
use tv_shape::node_of;

/// The node that shows that from each of the states some run never ends: each of them has a step to one of them. There is a piece for each
/// state, in their order.
///
/// `Wide` names the first column of the first line that has a number of 2^127 or more in magnitude; the lines stand in the order of the
/// states.
pub fn endless_node(
    alloc: Global,
    about: &Cases,
    states: &[State],
    steps: &[Step],
) -> Result<Node, PointFault>
    requires { ComesBack (cases_of about.now) states.now steps.now }
    ensures { let cases = cases_of about.now in
        MatchResult result (IsRunNode cases endless false states.now) (IsLineFault (run_lines cases false states.now 0 steps.now)) }
{
    let pieces = pieces_of(alloc, about.variables(), false, states)?;
    let run = Run {
        about,
        states,
        pieces: &pieces,
        ends: false,
    };
    let mut proofs = Vec::new(alloc);
    match push_choices(alloc, &run, 0, steps, &mut proofs) {
        Err(fault) => return Err(fault),
        Ok(()) => {}
    }
    let node = node_of(alloc, pieces, 0, Vec::new(alloc), proofs)?;
    Ok(node)
}
