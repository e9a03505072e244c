use crate::named_system::NamedSystem;
use crate::system_fault::SystemFault;
use tv_farkas::Branch;

/// Why it is not known whether the property holds.
#[derive(Drop)]
pub enum Cause {
    /// A linear system of the search was not settled.
    Unsolved {
        system: NamedSystem,
        fault: SystemFault,
    },
    /// Whether rows have an integer point was not settled by the splits on this path.
    Spent {
        path: Vec<Branch>,
    },
    /// A row that the search makes is too wide at this column.
    Composed {
        column: u32,
    },
    /// No terms rank these cases, and for each of them there is a barrier.
    Unranked {
        set: Vec<u32>,
        barriers: Vec<Vec<i128>>,
    },
    /// The rows that were found to hold have this point at the location with the label, and no short run comes there.
    Weak {
        label: Vec<u8>,
        point: Vec<i128>,
    },
    /// `count` paths, more than are looked at, may come to the location with the label.
    TooManyPaths {
        label: Vec<u8>,
        count: u64,
    },
    /// `count` pieces of a region, more than are kept, are made at the location with the label.
    TooManyPieces {
        label: Vec<u8>,
        count: u64,
    },
    /// Going back over the steps of this case, which has a draw, is not exact.
    Drawn {
        case: u32,
    },
    /// No round up to the last one that is made settles the fixpoint that is this subformula.
    Unsettled {
        subformula: u32,
    },
    /// A comparison has no rows: the form of a part of it, or a row, is too wide, first at this column.
    WideComparison {
        column: u32,
    },
}
