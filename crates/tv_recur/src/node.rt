// Nodes that show that some run never ends.

ghost use Rattle.std.specs.Prelude.{◌≡◌, ◌-◌, ◌^◌, ◌<◌, All, IfOk, length, false};
ghost use Rattle.std.specs.List.{AllZip};
ghost use Rattle.tv_cases.specs.Systems.{cases_of};
ghost use Rattle.tv_cert.specs.Shapes.{PieceShape};
ghost use Rattle.tv_recur.specs.Nodes.{on_piece, GoesOn, IsEndlessNode};

use std::alloc::{AllocError, Global};
use tv_cases::Cases;
use tv_cert::{Mark, Marked, Node, Proof};
use tv_linear::Row;
use tv_shape::node_of;

/// The piece of these rows at a location. There is no room for 2^32 rows.
pub(crate) fn piece_of(
    alloc: Global,
    variables: u32,
    location: u32,
    rows: &[Row],
) -> Result<Marked, AllocError>
    requires bounded { variables < 2 ^ 32 - 1 }
    ensures { IfOk result (λ piece. piece ≡ on_piece variables location rows.now) }
{
    match Marked::from_rows(alloc, location, Mark::Go, variables, rows, &[])? {
        Some(piece) => Ok(piece),
        None => Err(AllocError),
    }
}

/// The node of these pieces. From each of them a choice leads into one of them.
pub(crate) fn endless_node(
    alloc: Global,
    about: &Cases,
    list: Vec<Marked>,
    proofs: Vec<Proof>,
) -> Result<Node, AllocError>
    requires bounded { length list.items < 2 ^ 32 }
    requires shape { All (PieceShape (cases_of about.now) 0 false) list.items }
    requires goes_on { AllZip (GoesOn (cases_of about.now) list.items) list.items proofs.items }
    ensures { IfOk result (IsEndlessNode (cases_of about.now) list.items) }
{
    let node = node_of(alloc, list, 0, Vec::new(alloc), proofs)?;
    Ok(node)
}
