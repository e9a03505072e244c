//! Searches for certificates along walks: in graphs of single states that are reached, and round closed walks that can be gone through again
//! and again. With them, what further searches share: their question, their budget, rows made of others, and what the solver says of rows.
//!
//! They are heuristics: of what they find nothing is promised, and the checker decides.
#![tactic(auto)]

mod budget;
mod cycles;
mod graphs;
mod limits;
mod question;
mod rows;
mod search;

pub use budget::{Budget, Spent};
pub use cycles::closed_cycles::ClosedCycles;
pub use cycles::closing::{closed, rows_of_walk, terms_of_walk};
pub use cycles::lasso::regions_of;
pub use cycles::walking::closed_walks;
pub use cycles::way::{Way, term_of, way_of, ways_under};
pub use graphs::expanding::is_without_draws;
pub use graphs::explicit::ExplicitGraph;
pub use graphs::proving::number_row;
pub use graphs::walks::Walks;
pub use limits::{MANY_DRAWS, MANY_VARIABLES, PIVOTS, SPLITS};
pub use question::Question;
pub use rows::combining::{all_put_in, less, put_in, unit_row, unit_rows, with_multiples};
pub use rows::drawing::coefficient_at;
pub use rows::solving::{
    Effort, all_shown_by, denied, is_known, may_have_point, shown, whole_point,
};
pub use search::{Attempt, Name, Search};
