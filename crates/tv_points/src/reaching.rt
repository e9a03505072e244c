// A run that comes to a location.

ghost use Rattle.std.specs.Prelude.{◌-◌, ◌^◌, ◌<◌, IfOk, MatchResult, true};
ghost use Rattle.tv_cases.specs.Systems.{cases_of};
ghost use Rattle.tv_points.specs.States.{ComesTo};
ghost use Rattle.tv_points.specs.Lines.{IsLineFault};
ghost use Rattle.tv_points.specs.RunLines.{run_lines};
ghost use Rattle.tv_points.specs.Nodes.{reaches, IsRunNode, AreEnds};

use crate::bare::{location_node, truth_node};
use crate::fault::PointFault;
use crate::pieces::pieces_of;
use crate::state::State;
use crate::step::Step;
use crate::steps::{Run, push_run};
use std::alloc::{AllocError, Global};
use tv_cases::Cases;
use tv_cert::Node;
use tv_linear::push_item;
use tv_shape::node_of;

/// The nodes of the two arguments: that the run is at the location, and truth.
fn end_nodes(
    alloc: Global,
    columns: u32,
    states: &[State],
    location: u32,
) -> Result<Vec<Node>, AllocError>
    requires bounded { columns < 2 ^ 32 - 1 }
    ensures { IfOk result (λ nodes. AreEnds columns states.now location nodes.items) }
{
    let mut nodes = Vec::new(alloc);
    push_item(&mut nodes, location_node(alloc, columns, location)?)?;
    push_item(&mut nodes, truth_node(alloc, columns, states)?)?;
    Ok(nodes)
}

/// The node that shows that from each of the states some run comes to the location: the last of them is there, and each other has a step to
/// the one after it, with the number of steps that are left as its rank. There is a piece for each state, in their order.
///
/// `Wide` names the first column of the first line that has a number of 2^127 or more in magnitude; the lines stand in the order of the
/// states.
pub(crate) fn reaching_node(
    alloc: Global,
    about: &Cases,
    states: &[State],
    steps: &[Step],
    location: u32,
) -> Result<Node, PointFault>
    requires { ComesTo (cases_of about.now) location states.now steps.now }
    ensures { let cases = cases_of about.now in
        MatchResult result (IsRunNode cases (reaches location) true states.now) (IsLineFault (run_lines cases true states.now 0 steps.now)) }
{
    let columns = about.variables();
    let pieces = pieces_of(alloc, columns, true, states)?;
    let run = Run {
        about,
        states,
        pieces: &pieces,
        ends: true,
    };
    let mut proofs = Vec::new(alloc);
    match push_run(alloc, &run, 0, steps, &mut proofs) {
        Err(fault) => return Err(fault),
        Ok(()) => {}
    }
    let ends = end_nodes(alloc, columns, states, location)?;
    let node = node_of(alloc, pieces, 1, ends, proofs)?;
    Ok(node)
}
