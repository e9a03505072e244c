// The two sides of a split at a row.

ghost use Rattle.std.specs.Prelude.{◌≡◌, MatchResult};
ghost use Rattle.tv_linear.specs.Arithmetic.{denial};
ghost use Rattle.tv_farkas.specs.declared.fault.CoverFault.TheVariants.{Memory};
ghost use Rattle.tv_cover.specs.Targets.{IsNarrowRow};
ghost use Rattle.tv_cover.specs.Halving.{AreRowSides};

use std::alloc::Global;
use tv_farkas::{Branch, CoverFault, Halves};
use tv_linear::{Row, RowFault};

/// The sides where a row is denied and where it is met.
pub fn halves_at_row(alloc: Global, row: &Row) -> Result<Halves, CoverFault>
    requires narrow { IsNarrowRow (denial row.now) }
    ensures { MatchResult result (AreRowSides row.now) (λ fault. fault ≡ Memory) }
{
    let denied = match row.deny(alloc) {
        Ok(denied) => denied,
        Err(RowFault::Wide { .. }) => unreachable!(),
        Err(RowFault::Memory) => return Err(CoverFault::Memory),
    };
    let met = row.copy(alloc)?;
    Ok(Halves {
        first: Branch {
            row: denied,
            point: None,
        },
        second: Branch {
            row: met,
            point: None,
        },
    })
}
