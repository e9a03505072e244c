//! Whether a run comes to a location: an inductive list of rows that excludes it, or a short run to it.
#![tactic(auto)]

mod aim;
mod extending;
mod fault;
mod laws;
mod leading;
mod left;
mod met;
mod paths;
mod reaching;
mod rows;
mod running;
mod safety;
mod search_fault;
mod searched;
mod trying;

pub use laws::{faults_are_causes, shut_out_leaves_none};
pub use safety::search;
pub use search_fault::SearchFault;
pub use searched::Searched;
