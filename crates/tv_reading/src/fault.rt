/// Why a part of a text is refused, with the place of the token at fault: its first byte, as all places.
#[derive(Clone, Copy, Debug, PartialEq, Eq)]
pub enum PartFault {
    /// The first token such that no text of the grammar begins with the tokens up to it.
    Syntax { at: u32 },
    /// A number of 2^62 or more.
    Wide { at: u32 },
    /// The token that opens level 65.
    Deep { at: u32 },
    /// A name or a draw in a product where an earlier factor has one.
    NotLinear { at: u32 },
    /// A name beside 512 others, or a draw after 64 others.
    TooMany { at: u32 },
    /// A name that is not known, where none is added.
    UnknownName { at: u32 },
    Memory,
}
