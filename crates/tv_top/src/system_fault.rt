// Why a linear system was not settled, and the answer that says so.

ghost use Rattle.std.specs.Prelude.{◌≡◌};
ghost use Rattle.tv_top.specs.Answers.{unsolved, unsettled};

use crate::answer::Answer;
use crate::cause::Cause;
use crate::named_system::NamedSystem;
use tv_rank::Name;
use tv_simplex::SolveFault;

/// Why a linear system was not settled. Want of memory is no such reason.
#[derive(Drop)]
pub enum SystemFault {
    /// The tableau of this basis of the chain has an entry of 2^40 or more at this place.
    Width {
        basis: Vec<u32>,
        row: u32,
        column: u32,
    },
    /// The last basis of the chain gives an answer that no scale brings to integers below 2^62.
    Scale {
        basis: Vec<u32>,
    },
    /// As many bases of the chain as the budget allows do not settle the system.
    Pivots {
        bases: u64,
    },
    /// A system of this size has too many entries.
    Size {
        rows: u64,
        columns: u64,
    },
}

/// The answer where a linear system was not settled.
pub(crate) fn unsettled(system: NamedSystem, fault: SolveFault) -> Answer
    ensures { result ≡ unsettled system fault }
{
    match fault {
        SolveFault::Width { basis, row, column } => Answer::Unknown(Cause::Unsolved {
            system,
            fault: SystemFault::Width { basis, row, column },
        }),
        SolveFault::Scale { basis } => Answer::Unknown(Cause::Unsolved {
            system,
            fault: SystemFault::Scale { basis },
        }),
        SolveFault::Pivots { bases } => Answer::Unknown(Cause::Unsolved {
            system,
            fault: SystemFault::Pivots { bases },
        }),
        SolveFault::Size { rows, columns } => Answer::Unknown(Cause::Unsolved {
            system,
            fault: SystemFault::Size { rows, columns },
        }),
        SolveFault::Memory => Answer::Memory,
    }
}

/// The answer where a system of the search for ranks, or of a question of integer points, was not settled.
pub(crate) fn unsolved(system: Name, fault: SolveFault) -> Answer
    ensures { result ≡ unsolved system fault }
{
    unsettled(NamedSystem::Searched(system), fault)
}
