// The strongly connected components of a graph.
#![tactic(auto)]

ghost use Rattle.std.specs.Prelude.{◌≡◌, ℕ, ◌<◌, ◌≤◌, ◌↔◌, length, slice_index, IfOk};
ghost use Rattle.std.specs.List.{All};
ghost use Rattle.tv_graph.specs.Graph.{IsBetween, AreStronglyConnected, HasNoGap};

mod adjacency;
mod marks;
mod search;

use adjacency::AdjacencyLists;
use search::PathSearch;
use std::alloc::{AllocError, Global};

/// An arc of a directed graph whose nodes are numbered from 0.
#[derive(Clone, Copy, Debug, PartialEq, Eq)]
pub struct Arc {
    /// The node that the arc starts at.
    pub from: u32,
    /// The node that the arc leads to.
    pub to: u32,
}

/// Numbers the strongly connected components: the answer has the component of each node.
///
/// The numbers are in reverse topological order, so that each component comes after all others
/// that it reaches. Several arcs may join the same two nodes, and an arc may lead to its own start.
///
/// This is the path-based algorithm of H. N. Gabow, "Path-based depth-first search for strong and
/// biconnected components", Information Processing Letters 74 (2000). Its time is linear in the
/// nodes and arcs. It keeps its stacks in vectors and never recurses.
pub fn components(alloc: Global, nodes: u32, arcs: &[Arc]) -> Result<Vec<u32>, AllocError>
    requires bounded { nodes ≤ 1024 }
    requires in_range { All (IsBetween nodes) arcs.now }
    ensures one_each { IfOk result (λ numbers. length numbers.items ≡ nodes) }

    // Two nodes have the same number exactly where each reaches the other.
    ensures same_number { IfOk result (λ numbers. (u v : ℕ) → u < nodes → v < nodes →
        (slice_index numbers.items u ≡ slice_index numbers.items v) ↔ AreStronglyConnected arcs.now u v) }

    // No arc leads to a greater number.
    ensures never_greater { IfOk result (λ numbers. All (λ arc.
        slice_index numbers.items arc.to ≤ slice_index numbers.items arc.from) arcs.now) }
    ensures no_gap { IfOk result (λ numbers. HasNoGap numbers.items) }
    ensures below { IfOk result (λ numbers. All (λ number. number < nodes) numbers.items) }
{
    let AdjacencyLists { latest, earlier } = AdjacencyLists::new(alloc, nodes, arcs)?;
    let mut search = PathSearch::new(alloc, nodes, arcs, latest)?;
    'roots: for root in 0..nodes {
        search.explore(arcs, &earlier, root)?;
    }
    let numbers = search.numbers(alloc, arcs)?;
    Ok(numbers)
}
