// The two sides of a split, and the paths that they lie on.

ghost use Rattle.std.specs.Prelude.{IfOk};
ghost use Rattle.tv_linear.specs.Arithmetic.{denial};
ghost use Rattle.tv_farkas.specs.declared.fault.CoverFault.TheVariants.{Memory};
ghost use Rattle.tv_cover.specs.Targets.{IsNarrowRow};
ghost use Rattle.tv_cover.specs.Halving.{AreRowSides};
ghost use Rattle.tv_choice.specs.Settling.{IsPutBefore};

use std::alloc::{AllocError, Global};
use tv_farkas::{Branch, CoverFault, Halves};
use tv_linear::{Row, RowFault, push_item};

/// The sides where a row is denied and where it is met.
pub fn halves_at_row(alloc: Global, row: &Row) -> Result<Halves, AllocError>
    requires narrow { IsNarrowRow (denial row.now) }
    ensures { IfOk result (AreRowSides row.now) }
{
    let denied = match row.deny(alloc) {
        Ok(denied) => denied,
        Err(RowFault::Wide { .. }) => unreachable!(),
        Err(RowFault::Memory) => return Err(AllocError),
    };
    let met = row.copy(alloc)?;
    Ok(Halves {
        first: Branch {
            row: denied,
            point: None,
        },
        second: Branch {
            row: met,
            point: None,
        },
    })
}

/// The refusal with a split in front of its path.
pub fn behind(alloc: Global, branch: Branch, fault: CoverFault) -> Result<CoverFault, AllocError>
    ensures { IfOk result (IsPutBefore branch fault) }
{
    match fault {
        CoverFault::Splits { path } => {
            let mut whole = Vec::new(alloc);
            push_item(&mut whole, branch)?;
            'path: for later in path {
                push_item(&mut whole, later)?;
            }
            Ok(CoverFault::Splits { path: whole })
        }
        fault => Ok(fault),
    }
}
