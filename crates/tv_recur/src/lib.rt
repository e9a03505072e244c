//! Runs that never end and are plain to see: a step from an initial state to itself, or a loop that can be taken again wherever it can be
//! taken, and that is entered at once.
#![tactic(auto)]

mod choosing;
mod entering;
mod keeping;
mod making;
mod node;
mod owed_rows;
mod recurrence;
mod searching;
mod staying;
mod taking;

pub use recurrence::{Recurrence, recurrence_certificate};
pub use searching::recur;
