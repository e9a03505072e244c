// How far the searches go besides their budget. All bounds are counts, so that what is found does not depend on the machine.

/// The greatest magnitude of a value in a graph.
pub(crate) const LARGEST: i128 = 1_000_000_000;

/// How many lists of draws are followed for a case at a state.
pub(crate) const DRAWS: usize = 6;

/// How many lists of draws are tried for a case at a state.
pub(crate) const TRIED_DRAWS: usize = 14;

/// For how many cases from the start integer points of the guards are values there.
pub(crate) const GUARDED: usize = 6;

/// How many lists of values at the start are made by chance.
pub(crate) const STARTS: usize = 60;

/// How many coefficients of the cases from its places one graph looks at, and all graphs of a search together, after which none is begun.
pub(crate) const GRAPH_WORK: usize = 2_000_000;

pub(crate) const WORK: usize = 20_000_000;

/// A case with more draws than that is not followed.
pub const MANY_DRAWS: u32 = 8;

/// Over more variables than that rows are not composed.
pub const MANY_VARIABLES: usize = 64;

/// How many constants of a program are kept.
pub(crate) const CONSTANTS: usize = 40;

/// How many bases of a linear system are tried.
pub const PIVOTS: u64 = 300;

/// How many splits lie on a path where integer points are looked for.
pub const SPLITS: u32 = 12;

/// How many lists of rows a condition has at most.
pub(crate) const CONDITIONS: usize = 8;

/// By how many paths a closed walk is entered.
pub(crate) const ENTRIES: usize = 6;

/// How many steps a run by chance has at most, and how often one is begun from each list of values.
pub(crate) const WALK_STEPS: usize = 200;

pub(crate) const ROUNDS: usize = 2;

/// How many ways to take a case are followed, each with terms for its draws.
pub(crate) const WAYS: usize = 300;

/// How many lists of terms are tried for the draws of a case.
pub(crate) const DRAW_TERMS: usize = 4;

/// How many cases a cycle that meets no location twice has at most, and how many such cycles are tried.
pub(crate) const LONGEST_CYCLE: usize = 10;

pub(crate) const CYCLES: usize = 300;

/// The same of other closed walks.
pub(crate) const LONGEST_WALK: usize = 4;

pub(crate) const WALKS: usize = 200;

/// How many paths are kept while cycles are sought.
pub(crate) const PATHS: usize = 4000;

/// How often a row is added until a cycle is closed, and how many lists of rows are tried for a cycle.
pub(crate) const ADDED_ROWS: u32 = 4;

pub(crate) const TRIES: usize = 40;

/// How many steps a stem has at most, and how many stems are kept.
pub(crate) const LONGEST_STEM: usize = 10;

pub(crate) const STEMS: usize = 256;
