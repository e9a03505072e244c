use crate::fault::PartFault;
use std::alloc::{AllocError, AllocFailed};

/// Why reading stops at a token, in each reader of texts.
///
/// No sum and no condition is refused for a second `START`, no program for a name that is not known, and nothing in a formula is one
/// too many.
#[derive(Clone, Copy)]
pub enum Reason {
    Syntax,
    Wide,
    Deep,
    NotLinear,
    /// A second `START`.
    TwoStarts,
    TooMany,
    UnknownName,
    Memory,
}

impl From<PartFault> for Reason {
    ghost use Rattle.std.specs.Prelude.{◌≡◌};
    ghost use Rattle.tv_reading.specs.Answers.{reason_of};

    ghost from_gives = { λ fault reason. reason ≡ reason_of fault };

    fn from(fault: PartFault) -> Reason {
        match fault {
            PartFault::Syntax { at: _ } => Reason::Syntax,
            PartFault::Wide { at: _ } => Reason::Wide,
            PartFault::Deep { at: _ } => Reason::Deep,
            PartFault::NotLinear { at: _ } => Reason::NotLinear,
            PartFault::TooMany { at: _ } => Reason::TooMany,
            PartFault::UnknownName { at: _ } => Reason::UnknownName,
            PartFault::Memory => Reason::Memory,
        }
    }
}

impl From<AllocError> for Reason {
    ghost use Rattle.std.specs.Prelude.{◌≡◌};
    ghost use Rattle.tv_reading.specs.declared.reason.Reason.TheVariants.{Memory};

    ghost from_gives = { λ _ reason. reason ≡ Memory };

    fn from(_: AllocError) -> Reason {
        Reason::Memory
    }
}

impl<T: Drop> From<AllocFailed<T>> for Reason {
    ghost use Rattle.std.specs.Prelude.{◌≡◌};
    ghost use Rattle.tv_reading.specs.declared.reason.Reason.TheVariants.{Memory};

    ghost from_gives = { λ _ reason. reason ≡ Memory };

    fn from(_: AllocFailed<T>) -> Reason {
        Reason::Memory
    }
}

/// A loop goes on with more parts, or has all.
#[derive(Drop)]
pub enum Turn<T> {
    On(T),
    Off(T),
}
