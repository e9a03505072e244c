//! The components of a graph of 1,024 nodes and 4,096 arcs.

ghost use Rattle.std.specs.Prelude.{All, IsTrue};
ghost use Rattle.tv_graph.specs.Graph.{IsBetween};

use std::alloc::{AllocError, Global};
use tv_graph::{Arc, components};

const NODES: u32 = 1024;

/// Whether each arc is between two of the nodes.
fn are_in_range(nodes: u32, arcs: &[Arc]) -> bool
    ensures { IsTrue result → All (IsBetween nodes) arcs.now }
{
    arcs.iter().all(|arc| arc.from < nodes && arc.to < nodes)
}

/// A cycle through all nodes, and three more arcs from each.
fn graph(alloc: Global) -> Result<Vec<Arc>, AllocError> {
    let mut arcs = Vec::new(alloc);
    for node in 0..NODES {
        for step in [1, 7, 31, 257] {
            arcs.push(Arc {
                from: node,
                to: (node + step) % NODES,
            })?;
        }
    }
    Ok(arcs)
}

/// How many nodes the components have. They are found `times` times.
pub(crate) fn found(alloc: Global, times: u64) -> Result<String, AllocError> {
    let arcs = graph(alloc)?;
    let mut nodes = 0;
    if are_in_range(NODES, &arcs) {
        for _ in 0..times {
            nodes = components(alloc, NODES, &arcs)?.len();
        }
    }
    format!(in alloc; "{nodes} nodes")
}
