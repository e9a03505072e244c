use std::alloc::{AllocError, AllocFailed};

/// A state of a run: the number of its location, and the numbers of the variables in order.
#[derive(Drop)]
pub struct Shown {
    pub location: u32,
    pub values: Vec<i128>,
}

/// Why fewer states are shown than were asked for.
#[derive(Drop)]
pub enum TraceFault {
    /// On the way of the step after these states a number leaves `i128`.
    Wide { shown: Vec<Shown> },
    Memory,
}

impl From<AllocError> for TraceFault {
    ghost use Rattle.std.specs.Prelude.{◌≡◌};
    ghost use Rattle.tv_trace.specs.declared.shown.TraceFault.TheVariants.{Memory};

    ghost from_gives = { λ _ fault. fault ≡ Memory };

    fn from(_: AllocError) -> TraceFault {
        TraceFault::Memory
    }
}

impl<T: Drop> From<AllocFailed<T>> for TraceFault {
    ghost use Rattle.std.specs.Prelude.{◌≡◌};
    ghost use Rattle.tv_trace.specs.declared.shown.TraceFault.TheVariants.{Memory};

    ghost from_gives = { λ _ fault. fault ≡ Memory };

    fn from(_: AllocFailed<T>) -> TraceFault {
        TraceFault::Memory
    }
}
