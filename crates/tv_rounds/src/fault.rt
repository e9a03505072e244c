use std::alloc::{AllocError, AllocFailed};
use tv_farkas::CoverFault;
use tv_region::RegionFault;

/// Why the rounds of a fixpoint were not made.
#[derive(Drop)]
pub enum RoundFault {
    /// A call on regions was refused; the fault is no want of memory.
    Region { fault: RegionFault },
    /// A cover that compares two rounds was refused; the fault is no want of memory.
    Cover { fault: CoverFault },
    Memory,
}

impl From<RegionFault> for RoundFault {
    ghost use Rattle.tv_rounds.specs.Faults.{IsOfRegion};

    ghost from_gives = { λ fault kept. IsOfRegion fault kept };

    fn from(fault: RegionFault) -> RoundFault {
        match fault {
            RegionFault::Memory => RoundFault::Memory,
            fault => RoundFault::Region { fault },
        }
    }
}

impl From<CoverFault> for RoundFault {
    ghost use Rattle.tv_rounds.specs.Faults.{IsOfCover};

    ghost from_gives = { λ fault kept. IsOfCover fault kept };

    fn from(fault: CoverFault) -> RoundFault {
        match fault {
            CoverFault::Memory => RoundFault::Memory,
            fault => RoundFault::Cover { fault },
        }
    }
}

impl From<AllocError> for RoundFault {
    ghost use Rattle.std.specs.Prelude.{◌≡◌};
    ghost use Rattle.tv_rounds.specs.declared.fault.RoundFault.TheVariants.{Memory};

    ghost from_gives = { λ _ fault. fault ≡ Memory };

    fn from(_: AllocError) -> RoundFault {
        RoundFault::Memory
    }
}

impl<T: Drop> From<AllocFailed<T>> for RoundFault {
    ghost use Rattle.std.specs.Prelude.{◌≡◌};
    ghost use Rattle.tv_rounds.specs.declared.fault.RoundFault.TheVariants.{Memory};

    ghost from_gives = { λ _ fault. fault ≡ Memory };

    fn from(_: AllocFailed<T>) -> RoundFault {
        RoundFault::Memory
    }
}
