use std::alloc::AllocError;
use thiserror::Error;

/// Why a text is no formula, with the place of the token at fault: its first byte.
#[derive(Clone, Copy, Debug, PartialEq, Eq, Error)]
pub enum FormulaFault {
    /// The first token such that no formula begins with the tokens up to it.
    #[error("byte {at}: no formula begins so")]
    Syntax { at: u32 },
    /// A name that is no variable, or a label that is no location.
    #[error("byte {at}: a name that the program does not have")]
    UnknownName { at: u32 },
    /// A name in a product where an earlier factor has one.
    #[error("byte {at}: a product of two names")]
    NotLinear { at: u32 },
    /// A number of 2^62 or more.
    #[error("byte {at}: a number of 2^62 or more")]
    Wide { at: u32 },
    /// The token that opens level 65.
    #[error("byte {at}: more than 64 levels")]
    Deep { at: u32 },
    /// The text has more than 65,536 bytes.
    #[error("more than 65,536 bytes")]
    Long,
    #[error("out of memory")]
    Memory,
}

impl From<AllocError> for FormulaFault {
    ghost use Rattle.std.specs.Prelude.{◌≡◌};
    ghost use Rattle.tv_formula_reader.specs.declared.fault.FormulaFault.TheVariants.{Memory};

    ghost from_gives = { λ _ fault. fault ≡ Memory };

    fn from(_: AllocError) -> FormulaFault {
        FormulaFault::Memory
    }
}
