ghost use Rattle.std.specs.Prelude.{IfOk};
ghost use Rattle.std.specs.List.{AllZip};
ghost use Rattle.tv_copy.specs.SameRegions.{SamePiece, SameRegion};

use std::alloc::{AllocError, Global};
use tv_linear::{Piece, Poly, Region, copies, push_item};

/// A copy of the piece.
fn copy_piece(alloc: Global, piece: &Piece) -> Result<Piece, AllocError>
    ensures { IfOk result (SamePiece piece.now) }
{
    Ok(Piece {
        location: piece.location,
        poly: Poly {
            columns: piece.poly.columns,
            rows: copies(alloc, &piece.poly.rows)?,
        },
    })
}

/// Copies of the pieces, in order.
fn copy_pieces(alloc: Global, pieces: &[Piece]) -> Result<Vec<Piece>, AllocError>
    ensures { IfOk result (λ v. AllZip SamePiece pieces.now v.items) }
{
    let mut list = Vec::new(alloc);
    'pieces: for piece in pieces {
        push_item(&mut list, copy_piece(alloc, piece)?)?;
    }
    Ok(list)
}

/// A copy of the region.
pub fn copy_region(alloc: Global, region: &Region) -> Result<Region, AllocError>
    ensures { IfOk result (SameRegion region.now) }
{
    Ok(Region {
        variables: region.variables,
        locations: region.locations,
        pieces: copy_pieces(alloc, &region.pieces)?,
    })
}
