//! When it is unknown whether a run comes to a location, cause by cause, and which column of a comparison is too wide.
//!
//! The definitions stand in `specs/`. Those of comparisons that are too wide come with the call that finds the column; the other functions
//! carry the laws of the causes, and do nothing. The causes of other unknown answers are stated by the call that reports them.
#![tactic(auto)]

mod join;
mod laws;
mod wide;
mod wide_comparison;
mod wide_part;

pub use laws::{sufficient_invariants, weak_invariants};
pub use wide::wide_column;
