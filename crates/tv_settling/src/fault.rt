use std::alloc::AllocError;
use tv_farkas::CoverFault;
use tv_rank::Name;
use tv_simplex::SolveFault;

/// Why it is not known whether every run ends.
#[derive(Drop)]
pub enum EndFault {
    /// The named system was not settled.
    Solve {
        system: Name,
        fault: SolveFault,
    },
    /// A question of integer points was not settled, while rows that hold on every run were looked for, or shown to hold.
    Cover {
        fault: CoverFault,
    },
    /// No family of terms ranks these cases under the rows that were found: their numbers in ascending order, and for each of them a
    /// barrier of the ranking system in which it falls.
    Rank {
        set: Vec<u32>,
        barriers: Vec<Vec<i128>>,
    },
    /// There is no memory.
    Memory,
}

impl From<AllocError> for EndFault {
    ghost use Rattle.std.specs.Prelude.{◌≡◌};
    ghost use Rattle.tv_settling.specs.declared.fault.EndFault.TheVariants.{Memory};

    ghost from_gives = { λ _ fault. fault ≡ Memory };

    fn from(_: AllocError) -> EndFault {
        EndFault::Memory
    }
}
