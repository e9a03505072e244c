// The strongly connected parts of places and passages.

ghost use Rattle.std.specs.Prelude.{IfOk, IfSome, All};
ghost use Rattle.tv_graph.specs.Graph.{IsBetween};

use crate::passage::Passage;
use std::alloc::{AllocError, Global};
use tv_graph::{Arc, components};

/// The arc of a passage between two of the first `nodes` places.
fn arc_of(passage: &Passage, nodes: u32) -> Option<Arc>
    ensures { IfSome result (IsBetween nodes) }
{
    if passage.from >= nodes as usize || passage.to >= nodes as usize {
        return None;
    }
    Some(Arc {
        from: passage.from as u32,
        to: passage.to as u32,
    })
}

/// Puts the arcs of the passages at the end of the list.
fn push_arcs(passages: &[Passage], nodes: u32, arcs: &mut Vec<Arc>) -> Result<(), AllocError>
    requires { All (IsBetween nodes) arcs.old.items }
    ensures { IfOk result (λ _. All (IsBetween nodes) arcs.new.items) }
{
    'passages: for passage in passages {
        if let Some(arc) = arc_of(passage, nodes) {
            arcs.push(arc)?;
        }
    }
    Ok(())
}

/// The number of the part of each place: places have the same number where each reaches the other, and no passage leads to a greater number.
/// There is none where there are too many places.
pub(crate) fn numbers_of(
    alloc: Global,
    places: usize,
    passages: &[Passage],
    others: &[Passage],
) -> Result<Vec<u32>, AllocError> {
    if places > 1024 {
        return Ok(Vec::new(alloc));
    }
    let nodes = places as u32;
    let mut arcs = Vec::new(alloc);
    push_arcs(passages, nodes, &mut arcs)?;
    push_arcs(others, nodes, &mut arcs)?;
    components(alloc, nodes, &arcs)
}
