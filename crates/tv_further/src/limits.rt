// How far the searches go besides their budget. All bounds are counts, so that what is found does not depend on the machine.

/// How many graphs of single states are made where a large program is looked at before anything else. Later there is one for each list of
/// values at the start.
pub(crate) const FIRST_GRAPHS: usize = 20;

/// How many areas a formula has at most, over how many rounds ranks are added, and how many terms are tried.
pub(crate) const AREAS: usize = 40;

pub(crate) const RANK_ROUNDS: usize = 8;

pub(crate) const RANK_TERMS: usize = 24;

/// How many layers a fixpoint that comes to an end has at most beyond what ranks show.
pub(crate) const LAYERS: usize = 16;

/// How many rounds of cuts a fixpoint has that may go on for ever. A round goes through all locations, so few do, except where a loop is
/// to be run through backwards: there each round adds one turn, and areas for it. Beyond three the work grows faster than what it settles.
pub(crate) const CUTS: usize = 3;

/// How many rows are kept while draws are left out, and how many lists of terms are tried for the draws of a case into an area.
pub(crate) const SHADOW_ROWS: usize = 60;

pub(crate) const DRAW_LISTS: usize = 8;

/// How many drafts of a strategy are tried, how often areas are cut or split, and how many splits lie on a path of what is done at an area.
pub(crate) const STRATEGY_ROUNDS: usize = 30;

pub(crate) const STRATEGY_CUTS: u32 = 4;

pub(crate) const STRATEGY_SPLITS: u32 = 8;

/// How often areas from which every path is to come to the end are cut, and how often they are split.
pub(crate) const STEP_CUTS: u32 = 4;

pub(crate) const STEP_SPLITS: u32 = 4;

/// How often areas from which every run is to end are split.
pub(crate) const ENDING_SPLITS: u32 = 6;

/// How many closed walks are tried inside of a part of a formula, and after how many calls of the solver none is begun.
pub(crate) const TRIED_CYCLES: usize = 24;

pub(crate) const TRIED_CYCLE_CALLS: usize = 100;

/// How many turns of loops are looked at for rows that are lost, and how often a row is asked in place of another.
pub(crate) const TURNS: usize = 40;

pub(crate) const STOPPING_ROUNDS: usize = 3;
