use std::alloc::{AllocError, AllocFailed};
use std::fmt;
use thiserror::Error;

/// A limit that a program passes.
#[derive(Clone, Copy, Debug, PartialEq, Eq)]
pub enum What {
    /// 512 variables.
    Variables,
    /// 1,024 locations.
    Locations,
    /// 4,096 edges.
    Edges,
    /// 64 draws of one edge.
    Draws,
}

impl fmt::Display for What {
    fn fmt<W: fmt::Write>(&self, f: &mut fmt::Formatter<W>) -> fmt::Result {
        match self {
            What::Variables => f.write_str("512 variables"),
            What::Locations => f.write_str("1,024 locations"),
            What::Edges => f.write_str("4,096 edges"),
            What::Draws => f.write_str("64 draws of one edge"),
        }
    }
}

/// Why a text is not read as a program, with the place of its first fault: line and column count from 1, a line ends after LF, and a
/// column counts bytes.
///
/// At one place the first kind counts, in the order Syntax, Wide, Deep, NotLinear, TwoStarts, TooMany.
#[derive(Clone, Copy, Debug, PartialEq, Eq, Error)]
pub enum ReadFault {
    /// The first byte that no token can hold, or the first token (or the end) such that no program begins with the tokens up to it.
    #[error("line {line}, column {column}: no program begins so")]
    Syntax { line: u32, column: u32 },
    /// There is no other fault, and no `START`.
    #[error("no START")]
    NoStart,
    /// The second `START`.
    #[error("line {line}, column {column}: a second START")]
    TwoStarts { line: u32, column: u32 },
    /// A name or a draw in a product where an earlier factor has one.
    #[error("line {line}, column {column}: a product of two names or draws")]
    NotLinear { line: u32, column: u32 },
    /// A number of 2^62 or more.
    #[error("line {line}, column {column}: a number of 2^62 or more")]
    Wide { line: u32, column: u32 },
    /// The token that brings in one more than a limit allows.
    #[error("line {line}, column {column}: more than {what}")]
    TooMany { what: What, line: u32, column: u32 },
    /// The token that opens level 65 of brackets and signs.
    #[error("line {line}, column {column}: more than 64 levels")]
    Deep { line: u32, column: u32 },
    #[error("out of memory")]
    Memory,
}

impl From<AllocError> for ReadFault {
    ghost use Rattle.std.specs.Prelude.{◌≡◌};
    ghost use Rattle.tv_reader.specs.declared.fault.ReadFault.TheVariants.{Memory};

    ghost from_gives = { λ _ fault. fault ≡ Memory };

    fn from(_: AllocError) -> ReadFault {
        ReadFault::Memory
    }
}

impl<T: Drop> From<AllocFailed<T>> for ReadFault {
    ghost use Rattle.std.specs.Prelude.{◌≡◌};
    ghost use Rattle.tv_reader.specs.declared.fault.ReadFault.TheVariants.{Memory};

    ghost from_gives = { λ _ fault. fault ≡ Memory };

    fn from(_: AllocFailed<T>) -> ReadFault {
        ReadFault::Memory
    }
}
