//! The edge of a program that a case of it is from.
#![tactic(auto)]

mod edges;
mod laws;

pub use edges::edge_of;
pub use laws::cases_give;
