// The pieces of a region as pieces of a node.

ghost use Rattle.std.specs.Prelude.{◌≡◌, ◌++◌, ◌-◌, ◌^◌, ◌<◌, map, IfOk};
ghost use Rattle.tv_pre.specs.Pieces.{marked_as};

use std::alloc::{AllocError, Global};
use tv_cert::{Mark, Marked};
use tv_linear::{Piece, Row, push_item};

/// The piece with a mark and ranks. There is no room for 2^32 rows.
pub(crate) fn marked_as(
    alloc: Global,
    variables: u32,
    piece: &Piece,
    mark: Mark,
    ranks: &[Row],
) -> Result<Marked, AllocError>
    requires bounded { variables < 2 ^ 32 - 1 }
    ensures { IfOk result (λ p. p ≡ marked_as variables mark ranks.now piece.now) }
{
    match Marked::from_rows(
        alloc,
        piece.location,
        mark,
        variables,
        &piece.poly.rows,
        ranks,
    )? {
        Some(piece) => Ok(piece),
        None => Err(AllocError),
    }
}

/// Puts the pieces with a mark and ranks at the end of the list.
pub(crate) fn push_marked(
    alloc: Global,
    variables: u32,
    pieces: &[Piece],
    mark: Mark,
    ranks: &[Row],
    list: &mut Vec<Marked>,
) -> Result<(), AllocError>
    requires bounded { variables < 2 ^ 32 - 1 }
    ensures { IfOk result (λ _. list.new.items ≡ list.old.items ++ map (marked_as variables mark ranks.now) pieces.now) }
{
    'pieces: for piece in pieces {
        push_item(list, marked_as(alloc, variables, piece, mark, ranks)?)?;
    }
    Ok(())
}
