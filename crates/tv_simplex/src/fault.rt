use std::alloc::AllocError;

/// Why a system was not settled.
#[derive(Drop)]
pub enum SolveFault {
    /// The tableau of this basis of the chain has an entry of 2^40 or more at this place. Row `rows` is the
    /// objective, and column `columns + rows` the right side.
    Width {
        basis: Vec<u32>,
        row: u32,
        column: u32,
    },
    /// The last basis of the chain gives an answer that no scale brings to integers below 2^62.
    Scale {
        basis: Vec<u32>,
    },
    /// As many bases of the chain as the budget allows do not settle the system.
    Pivots {
        bases: u64,
    },
    /// A system of this size has too many entries. Only calls that build a system answer so.
    Size {
        rows: u64,
        columns: u64,
    },
    /// There is no memory.
    Memory,
}
