// How far the search goes besides its budget. All bounds are counts, so that what is found does not depend on the machine.

/// How many steps between places are looked at.
pub(crate) const PASSAGES: usize = 300;

/// How many ranks a place has at most.
pub(crate) const RANKS: u32 = 24;

/// How many rows are tried to split the places of a part.
pub(crate) const CANDIDATES: usize = 40;

/// How often a place is split.
pub(crate) const SPLITS_OF_A_PLACE: usize = 3;

/// How many rounds of splits there are, and how many partitions are kept after each.
pub(crate) const ROUNDS: usize = 6;

pub(crate) const KEPT: usize = 3;

/// How many bases of a ranking system are tried, and how many entries one has at most.
pub(crate) const SYSTEM_PIVOTS: u64 = 1000;

pub(crate) const SYSTEM_ENTRIES: usize = 200_000;

/// How many splits lie on a path where whole points of a step are looked for.
pub(crate) const POINT_SPLITS: u32 = 4;

/// How many lists of rows a formula has at most at a location.
pub(crate) const LISTS: usize = 24;
