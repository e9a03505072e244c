use std::alloc::AllocError;

/// Why a run has no certificate of single states.
#[derive(Clone, Copy, Debug, PartialEq, Eq)]
pub enum PointFault {
    /// A product or a partial sum is 2^127 or more in magnitude at this column of a line. The last column is the constant's.
    Wide { column: u32 },
    /// There is no memory.
    Memory,
}

impl From<AllocError> for PointFault {
    ghost use Rattle.std.specs.Prelude.{◌≡◌};
    ghost use Rattle.tv_points.specs.declared.fault.PointFault.TheVariants.{Memory};

    ghost from_gives = { λ _ fault. fault ≡ Memory };

    fn from(_: AllocError) -> PointFault {
        PointFault::Memory
    }
}
