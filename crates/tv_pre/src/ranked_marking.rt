// The pieces of a region as pieces of a node, with the ranks of another node at their locations.

ghost use Rattle.std.specs.Prelude.{◌≡◌, ◌++◌, ◌-◌, ◌^◌, ◌<◌, map, IfOk};
ghost use Rattle.tv_cert.specs.Nodes.{pieces_of};
ghost use Rattle.tv_lexrank.specs.Shown.{ranks_there};
ghost use Rattle.tv_pre.specs.RankedUntil.{ranked_as};

use crate::marking::marked_as;
use std::alloc::{AllocError, Global};
use tv_cert::{Mark, Marked, Node};
use tv_copy::copy_rows;
use tv_linear::{Piece, Row, push_item};

/// The ranks of the first piece of the node at the location.
fn ranks_at(alloc: Global, node: &Node, location: u32) -> Result<Vec<Row>, AllocError>
    ensures { IfOk result (λ v. v.items ≡ ranks_there (pieces_of node.now) location) }
{
    match node.pieces.at(location, 0) {
        Some(piece) => Ok(copy_rows(alloc, piece.ranks())?),
        None => Ok(Vec::new(alloc)),
    }
}

/// Puts the pieces, which go on with the ranks of the node at their locations, at the end of the list.
pub(crate) fn push_ranked(
    alloc: Global,
    variables: u32,
    node: &Node,
    pieces: &[Piece],
    list: &mut Vec<Marked>,
) -> Result<(), AllocError>
    requires bounded { variables < 2 ^ 32 - 1 }
    ensures { IfOk result (λ _. list.new.items ≡ list.old.items ++ map (ranked_as variables (pieces_of node.now)) pieces.now) }
{
    'pieces: for piece in pieces {
        let ranks = ranks_at(alloc, node, piece.location)?;
        push_item(list, marked_as(alloc, variables, piece, Mark::Go, &ranks)?)?;
    }
    Ok(())
}
