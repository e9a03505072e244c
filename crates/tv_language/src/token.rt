use std::alloc::{AllocError, AllocFailed};

/// What a token is. The words of formulas, `at` and `term` and the operators, are names here.
#[derive(Clone, Copy, Debug, PartialEq, Eq)]
pub enum TokenKind {
    Start,
    From,
    To,
    At,
    Cutpoint,
    Error,
    Shadow,
    Process,
    Assume,
    Nondet,
    True,
    False,
    Assign,
    LessEqual,
    GreaterEqual,
    Equal,
    NotEqual,
    And,
    Or,
    Colon,
    Semicolon,
    LeftRound,
    RightRound,
    LeftSquare,
    RightSquare,
    Plus,
    Minus,
    Star,
    Less,
    Greater,
    Not,
    Name,
    /// A number below 2^62.
    Number,
    /// `AT(..)`, which stands for nothing.
    Mark,
    /// A section `CUTPOINT: ..;`, `ERROR: ..;` or `SHADOW: ..;`, which is ignored.
    Passed,
    /// The end of the text.
    End,
    /// A number of 2^62 or more.
    Wide,
    /// The first byte that no token can hold; it ends the list.
    Unread,
}

/// A token and its bytes in the text.
#[derive(Clone, Copy, Debug, PartialEq, Eq)]
pub struct Token {
    /// The place of its first byte.
    pub at: u32,
    /// How many bytes it has; none at the end of the text and at a byte that no token can hold.
    pub len: u32,
    pub kind: TokenKind,
}

/// Why a text has no list of tokens, with the place of the fault.
#[derive(Clone, Copy, Debug, PartialEq, Eq)]
pub enum TokenFault {
    /// A byte that no token can hold.
    Syntax { at: u32 },
    /// A number of 2^62 or more.
    Wide { at: u32 },
    Memory,
}

impl From<AllocError> for TokenFault {
    ghost use Rattle.std.specs.Prelude.{◌≡◌};
    ghost use Rattle.tv_language.specs.declared.token.TokenFault.TheVariants.{Memory};

    ghost from_gives = { λ _ fault. fault ≡ Memory };

    fn from(_: AllocError) -> TokenFault {
        TokenFault::Memory
    }
}

impl<T: Drop> From<AllocFailed<T>> for TokenFault {
    ghost use Rattle.std.specs.Prelude.{◌≡◌};
    ghost use Rattle.tv_language.specs.declared.token.TokenFault.TheVariants.{Memory};

    ghost from_gives = { λ _ fault. fault ≡ Memory };

    fn from(_: AllocFailed<T>) -> TokenFault {
        TokenFault::Memory
    }
}
