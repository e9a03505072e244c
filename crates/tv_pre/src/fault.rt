use std::alloc::{AllocError, AllocFailed};
use tv_farkas::CoverFault;
use tv_rank::Name;
use tv_region::RegionFault;
use tv_rounds::RoundFault;
use tv_simplex::SolveFault;

/// Why no region of a formula was found.
#[derive(Drop)]
pub enum PreFault {
    /// A call on regions was refused; the fault is no want of memory.
    Region { fault: RegionFault },
    /// A question about pieces was refused; the fault is no want of memory.
    Cover { fault: CoverFault },
    /// A system of the search for ranks of the whole program was not settled, where they might show what the rounds leave open; the fault is
    /// no want of memory.
    Rank { system: Name, fault: SolveFault },
    Memory,
}

impl From<RegionFault> for PreFault {
    ghost use Rattle.tv_pre.specs.Faults.{IsOfRegion};

    ghost from_gives = { λ fault kept. IsOfRegion fault kept };

    fn from(fault: RegionFault) -> PreFault {
        match fault {
            RegionFault::Memory => PreFault::Memory,
            fault => PreFault::Region { fault },
        }
    }
}

impl From<CoverFault> for PreFault {
    ghost use Rattle.tv_pre.specs.Faults.{IsOfCover};

    ghost from_gives = { λ fault kept. IsOfCover fault kept };

    fn from(fault: CoverFault) -> PreFault {
        match fault {
            CoverFault::Memory => PreFault::Memory,
            fault => PreFault::Cover { fault },
        }
    }
}

impl From<RoundFault> for PreFault {
    ghost use Rattle.tv_pre.specs.Faults.{IsOfRounds};

    ghost from_gives = { λ fault kept. IsOfRounds fault kept };

    fn from(fault: RoundFault) -> PreFault {
        match fault {
            RoundFault::Region { fault } => PreFault::Region { fault },
            RoundFault::Cover { fault } => PreFault::Cover { fault },
            RoundFault::Memory => PreFault::Memory,
        }
    }
}

impl From<AllocError> for PreFault {
    ghost use Rattle.std.specs.Prelude.{◌≡◌};
    ghost use Rattle.tv_pre.specs.declared.fault.PreFault.TheVariants.{Memory};

    ghost from_gives = { λ _ fault. fault ≡ Memory };

    fn from(_: AllocError) -> PreFault {
        PreFault::Memory
    }
}

impl<T: Drop> From<AllocFailed<T>> for PreFault {
    ghost use Rattle.std.specs.Prelude.{◌≡◌};
    ghost use Rattle.tv_pre.specs.declared.fault.PreFault.TheVariants.{Memory};

    ghost from_gives = { λ _ fault. fault ≡ Memory };

    fn from(_: AllocFailed<T>) -> PreFault {
        PreFault::Memory
    }
}
