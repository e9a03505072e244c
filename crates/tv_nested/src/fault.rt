use std::alloc::AllocError;
use tv_farkas::CoverFault;
use tv_simplex::SolveFault;

/// The name of a linear system that is solved on the way to nested terms.
#[derive(Clone, Copy, Drop)]
pub enum NestName {
    /// The refutation system of the guards of this case.
    Empty(u32),
    /// The ranking system of what is left of this component in this round, where this case falls.
    Rank {
        component: u32,
        round: u32,
        falling: u32,
    },
    /// The nested system of what the rounds leave of this component, with `depth` terms at each location.
    Nest {
        component: u32,
        depth: u32,
    },
}

/// Why it was not settled whether terms are nested.
#[derive(Drop)]
pub enum NestFault {
    /// The named system was not settled.
    Solve { system: NestName, fault: SolveFault },
    /// The sign of a nested term reaches 2^62 at this column when it is denied, or composed with a case.
    Cover { fault: CoverFault },
    /// There is no memory.
    Memory,
}

impl From<AllocError> for NestFault {
    ghost use Rattle.std.specs.Prelude.{◌≡◌};
    ghost use Rattle.tv_nested.specs.declared.fault.NestFault.TheVariants.{Memory};

    ghost from_gives = { λ _ fault. fault ≡ Memory };

    fn from(_: AllocError) -> NestFault {
        NestFault::Memory
    }
}
