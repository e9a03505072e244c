// Nodes as they are put together.

ghost use Rattle.std.specs.Prelude.{IfOk};
ghost use Rattle.tv_shape.specs.Made.{HasOwn};

use crate::narrow::narrow_pieces;
use std::alloc::{AllocError, Global};
use tv_cert::{Marked, Node, Pieces, Proof};

/// The node of these parts.
pub fn node_of(
    alloc: Global,
    list: Vec<Marked>,
    ranks: u32,
    children: Vec<Node>,
    proofs: Vec<Proof>,
) -> Result<Node, AllocError>
    ensures { IfOk result (λ node. HasOwn node list.items ranks children.items proofs.items) }
{
    narrow_pieces(&list);
    let pieces = Pieces::new(alloc, list)?;
    Ok(Node {
        pieces,
        ranks,
        children,
        proofs,
    })
}
