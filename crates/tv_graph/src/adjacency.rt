// The arcs of a graph, listed by the node that they start at.

ghost use Rattle.std.specs.Prelude.{IfOk};
ghost use Rattle.tv_graph.specs.Arcs.{InRange, HasLatest, HasEarlier};

use crate::Arc;
use std::alloc::{AllocError, Global};
use tv_linear::push_item;

/// The arcs as linked lists by their start, from the last arc to the first.
///
/// A link is the place just past an arc, or 0 at the end of a list: the arcs of a node that its
/// list still holds are those before the link.
#[derive(Drop)]
pub struct AdjacencyLists {
    /// For each node the link to the last arc that starts there.
    pub latest: Vec<usize>,
    /// For each arc the link to the arc before it with the same start.
    pub earlier: Vec<usize>,
}

impl AdjacencyLists {
    pub fn new(alloc: Global, nodes: u32, arcs: &[Arc]) -> Result<Self, AllocError>
        requires { InRange nodes arcs.now }
        ensures latest { IfOk result (λ lists. HasLatest nodes arcs.now lists.latest.items) }
        ensures earlier { IfOk result (λ lists. HasEarlier arcs.now lists.earlier.items) }
    {
        let mut latest = vec![in alloc; 0usize; nodes as usize]?;
        let mut earlier = Vec::new(alloc);
        'arcs: for a in 0..arcs.len() {
            let node = arcs[a].from as usize;
            push_item(&mut earlier, latest[node])?;
            latest[node] = a + 1;
        }
        Ok(AdjacencyLists { latest, earlier })
    }
}
