// The rows of candidates as pieces.

ghost use Rattle.std.specs.Prelude.{◌≡◌, length, IfOk};
ghost use Rattle.tv_cases.specs.Systems.{cases_of};
ghost use Rattle.tv_invariant.specs.Passes.{AreOver};
ghost use Rattle.tv_invariant.specs.Pieces.{IsPieceOf, AreInPlace, ArePiecesOf};
ghost use Rattle.tv_invariant.specs.Places.{rows_at as spec_rows_at};

use crate::rows::strongest;
use std::alloc::{AllocError, Global};
use tv_candidates::Candidate;
use tv_cases::Cases;
use tv_linear::{Piece, Poly, Region, Row, push_item};

/// Copies of the rows of the candidates at a location.
pub fn rows_at(alloc: Global, list: &[Candidate], location: u32) -> Result<Vec<Row>, AllocError>
    ensures { IfOk result (λ v. v.items ≡ spec_rows_at location list.now) }
{
    let mut rows = Vec::new(alloc);
    'candidates: for candidate in list {
        if candidate.location == location {
            push_item(&mut rows, candidate.row.copy(alloc)?)?;
        }
    }
    Ok(rows)
}

/// The piece of the rows at a location.
fn piece_at(
    alloc: Global,
    list: &[Candidate],
    location: u32,
    variables: u32,
) -> Result<Piece, AllocError>
    requires { AreOver variables list.now }
    ensures { IfOk result (IsPieceOf variables list.now location) }
{
    let all = rows_at(alloc, list, location)?;
    let rows = strongest(alloc, all)?;
    Ok(Piece {
        location,
        poly: Poly {
            columns: variables,
            rows,
        },
    })
}

/// The pieces of the first locations, in order.
fn pieces_below(
    alloc: Global,
    list: &[Candidate],
    locations: u32,
    variables: u32,
) -> Result<Vec<Piece>, AllocError>
    requires { AreOver variables list.now }
    ensures one_each { IfOk result (λ v. length v.items ≡ locations) }
    ensures in_place { IfOk result (λ v. AreInPlace variables list.now v.items) }
{
    let mut pieces = Vec::with_capacity(alloc, locations as usize)?;
    'locations: for location in 0..locations {
        push_item(&mut pieces, piece_at(alloc, list, location, variables)?)?;
    }
    Ok(pieces)
}

/// The rows of candidates as pieces: one for each location, in their order. A row that another one at the location implies by its
/// coefficients is left out, and so are candidates at locations that the cases do not have.
pub fn known_pieces(alloc: Global, about: &Cases, list: &[Candidate]) -> Result<Region, AllocError>
    requires over { AreOver (cases_of about.now).variables list.now }
    ensures { IfOk result (ArePiecesOf (cases_of about.now) list.now) }
{
    let variables = about.variables();
    let locations = about.locations();
    let pieces = pieces_below(alloc, list, locations, variables)?;
    Ok(Region {
        variables,
        locations,
        pieces,
    })
}
