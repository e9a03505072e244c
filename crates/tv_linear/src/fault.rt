use std::alloc::{AllocError, AllocFailed};

/// Why a row was not made.
///
/// The constant has the column number after the last coefficient.
#[derive(Clone, Copy, Debug, PartialEq, Eq)]
pub enum RowFault {
    Wide { column: u32 },
    Memory,
}

impl From<AllocError> for RowFault {
    ghost use Rattle.std.specs.Prelude.{◌≡◌};
    ghost use Rattle.tv_linear.specs.declared.fault.RowFault.TheVariants.{Memory};

    ghost from_gives = { λ _ e. e ≡ Memory };

    fn from(_: AllocError) -> RowFault {
        RowFault::Memory
    }
}

impl<T: Drop> From<AllocFailed<T>> for RowFault {
    ghost use Rattle.std.specs.Prelude.{◌≡◌};
    ghost use Rattle.tv_linear.specs.declared.fault.RowFault.TheVariants.{Memory};

    ghost from_gives = { λ _ e. e ≡ Memory };

    fn from(_: AllocFailed<T>) -> RowFault {
        RowFault::Memory
    }
}
