// The pieces of two regions together.

ghost use Rattle.std.specs.Prelude.{◌≡◌, ◌++◌, IfOk};

use std::alloc::AllocError;
use tv_linear::Region;

/// The pieces of the first region and then those of the second.
pub(crate) fn joined(first: Region, second: Region) -> Result<Region, AllocError>
    ensures pieces { IfOk result (λ r. r.pieces.items ≡ first.pieces.items ++ second.pieces.items) }
    ensures variables { IfOk result (λ r. r.variables ≡ first.variables) }
    ensures locations { IfOk result (λ r. r.locations ≡ first.locations) }
{
    let Region {
        variables,
        locations,
        mut pieces,
    } = first;
    let mut more = second.pieces;
    pieces.append(&mut more)?;
    Ok(Region {
        variables,
        locations,
        pieces,
    })
}
