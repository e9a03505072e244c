//! Rows at locations that may be inductive, and the greatest inductive part of a list of them.
//!
//! The definitions stand in `specs/`. The functions carry their laws, and do nothing.
#![tactic(auto)]

mod candidate;
mod laws;

pub use candidate::Candidate;
pub use laws::{inductive_rows_hold, one_largest_part, together_inductive};
