ghost use Rattle.tv_farkas.specs.Unmade.{IsUnmadeBy};

use crate::Branch;
use std::alloc::AllocError;
use tv_linear::{Row, RowFault};
use tv_simplex::SolveFault;

/// Why no cover and no integer point was found.
#[derive(Drop)]
pub enum CoverFault {
    /// A path has as many splits as the budget allows, and the rows at its end still have a point that is not
    /// whole.
    Splits { path: Vec<Branch> },
    /// The refutation system of these rows was not settled.
    Solve { rows: Vec<Row>, fault: SolveFault },
    /// A row reaches 2^62 at this column when it is denied or composed.
    Wide { column: u32 },
    /// There is no memory.
    Memory,
}

impl From<AllocError> for CoverFault {
    ghost use Rattle.std.specs.Prelude.{◌≡◌};
    ghost use Rattle.tv_farkas.specs.declared.fault.CoverFault.TheVariants.{Memory};

    ghost from_gives = { λ _ fault. fault ≡ Memory };

    fn from(_: AllocError) -> CoverFault {
        CoverFault::Memory
    }
}

/// The fault of a row that was not made as that of a cover.
pub fn unmade(fault: RowFault) -> CoverFault
    ensures { IsUnmadeBy fault result }
{
    match fault {
        RowFault::Wide { column } => CoverFault::Wide { column },
        RowFault::Memory => CoverFault::Memory,
    }
}
