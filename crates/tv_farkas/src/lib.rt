//! Whether rows have a point: multipliers that refute them or a point over a scale. Beside it what the search for
//! integer points stands on: rows taken once, coordinates that are not integers, splits of proof trees.
#![tactic(auto)]

mod branch;
mod budget;
mod fault;
mod judged;
mod judging;
mod points;
mod refutation;
mod refuted;
mod refuting;
mod rows;
mod splitting;
mod stretching;

pub use branch::Branch;
pub use budget::Budget;
pub use fault::{CoverFault, unmade};
pub use judged::Judged;
pub use judging::{judge, unsolved};
pub use points::{divided, first_fraction};
pub use refuted::Refuted;
pub use refuting::refute;
pub use rows::{Distinct, are_same, at_least, at_most, is_among, is_same, take_once};
pub use splitting::{Halves, halves_at_point, split_of};
pub use stretching::stretch;
