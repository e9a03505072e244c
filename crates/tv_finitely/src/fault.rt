use std::alloc::AllocError;
use tv_farkas::CoverFault;
use tv_rank::Name;
use tv_simplex::SolveFault;

/// Why it is not known whether a property holds only finitely often on every run.
#[derive(Drop)]
pub enum VisitFault {
    /// No family of terms falls over any of these cases and grows over none of them, under the rows that were found, and one of them leads to
    /// states where the property holds: their numbers in ascending order, and for each of them a barrier of the ranking system in which it
    /// falls.
    Rank {
        set: Vec<u32>,
        barriers: Vec<Vec<i128>>,
    },
    /// The named system was not settled.
    Solve {
        system: Name,
        fault: SolveFault,
    },
    /// A question of integer points was not settled, while rows that hold on every run were looked for, or shown to hold.
    Cover {
        fault: CoverFault,
    },
    /// There is no memory.
    Memory,
}

impl From<AllocError> for VisitFault {
    ghost use Rattle.std.specs.Prelude.{◌≡◌};
    ghost use Rattle.tv_finitely.specs.declared.fault.VisitFault.TheVariants.{Memory};

    ghost from_gives = { λ _ fault. fault ≡ Memory };

    fn from(_: AllocError) -> VisitFault {
        VisitFault::Memory
    }
}
