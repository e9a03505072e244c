// The node that shows that no run from the known states comes to the location.

ghost use Rattle.std.specs.Prelude.{[], IfOk};
ghost use Rattle.std.specs.Result.{IfErr};
ghost use Rattle.tv_points.specs.Nodes.{IsWholeNode};
ghost use Rattle.tv_settling.specs.Nodes.{ShowsNever, Refuses};
ghost use Rattle.tv_settling.specs.Nodes.{pieces_elsewhere as spec_elsewhere};

use crate::barrier::Barrier;
use crate::offered::proofs_of;
use crate::pieces::{pieces_elsewhere, pieces_of};
use std::alloc::{AllocError, Global};
use tv_cert::Node;
use tv_farkas::CoverFault;
use tv_linear::push_item;
use tv_points::whole_node;
use tv_shape::node_of;

/// The node of the test that the state is not at the location.
fn elsewhere_node(alloc: Global, barrier: &Barrier) -> Result<Node, AllocError>
    ensures { IfOk result (λ node. IsWholeNode node (spec_elsewhere barrier.now)) }
{
    let columns = barrier.about.variables();
    let locations = barrier.about.locations();
    let pieces = pieces_elsewhere(alloc, columns, barrier.location, locations)?;
    whole_node(alloc, pieces)
}

/// The node of `false`, which has no pieces.
fn false_node(alloc: Global) -> Result<Node, AllocError>
    ensures { IfOk result (λ node. IsWholeNode node []) }
{
    whole_node(alloc, Vec::new(alloc))
}

/// The node: the known rows at each location, and below it the nodes of what holds on the way and of what would end it.
pub fn barrier_node(alloc: Global, barrier: &Barrier) -> Result<Node, CoverFault>
    ensures shows { IfOk result (ShowsNever barrier.now) }
    ensures refusals { IfErr result (Refuses barrier.now) }
{
    let pieces = pieces_of(alloc, barrier)?;
    let proofs = match proofs_of(alloc, barrier) {
        Ok(proofs) => proofs,
        Err(fault) => return Err(fault),
    };
    let mut children = Vec::new(alloc);
    push_item(&mut children, elsewhere_node(alloc, barrier)?)?;
    push_item(&mut children, false_node(alloc)?)?;
    Ok(node_of(alloc, pieces, 0, children, proofs)?)
}
