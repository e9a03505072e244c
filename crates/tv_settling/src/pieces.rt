// The pieces of the nodes.

ghost use Rattle.std.specs.Prelude.{◌≡◌, ◌-◌, ◌^◌, ◌<◌, IfOk};
ghost use Rattle.tv_cases.specs.Systems.{cases_of};
ghost use Rattle.tv_settling.specs.Below.{pieces_below, elsewhere};
ghost use Rattle.tv_settling.specs.Nodes.{known_piece, known_pieces};

use crate::barrier::Barrier;
use std::alloc::{AllocError, Global};
use tv_cert::{Mark, Marked};
use tv_lexrank::known_at;
use tv_linear::push_item;
use tv_points::whole;

/// The piece of the rows that are known at a location. There is no room for 2^32 rows.
fn piece_at(alloc: Global, barrier: &Barrier, location: u32) -> Result<Marked, AllocError>
    requires { location < (cases_of barrier.now.about.now).locations }
    ensures { IfOk result (λ p. p ≡ known_piece barrier.now location) }
{
    let rows = known_at(&barrier.known.pieces, location);
    let columns = barrier.about.variables();
    match Marked::from_rows(alloc, location, Mark::Go, columns, rows, &[])? {
        Some(piece) => Ok(piece),
        None => Err(AllocError),
    }
}

/// These pieces of all locations, in order.
pub fn pieces_of(alloc: Global, barrier: &Barrier) -> Result<Vec<Marked>, AllocError>
    ensures { IfOk result (λ v. v.items ≡ known_pieces barrier.now) }
{
    let locations = barrier.about.locations();
    let mut pieces = Vec::with_capacity(alloc, locations as usize)?;
    'locations: for location in 0..locations {
        push_item(&mut pieces, piece_at(alloc, barrier, location)?)?;
    }
    Ok(pieces)
}

/// The pieces of all states at the first locations, but for one location.
pub fn pieces_elsewhere(
    alloc: Global,
    columns: u32,
    location: u32,
    locations: u32,
) -> Result<Vec<Marked>, AllocError>
    requires { columns < 2 ^ 32 - 1 }
    ensures { IfOk result (λ v. v.items ≡ pieces_below (elsewhere columns location) locations) }
{
    let mut pieces = Vec::with_capacity(alloc, locations as usize)?;
    'places: for place in 0..locations {
        if place != location {
            push_item(&mut pieces, whole(alloc, columns, place)?)?;
        }
    }
    Ok(pieces)
}
