//! From each integer point of a piece a step into a region, by a proof tree, or an integer point from which no step leads there.
#![tactic(auto)]

mod choosing;
mod chosen;
mod differing;
mod drawing;
mod lists;
mod looking;
mod pieces;
mod place;
mod question;
mod splitting;
mod stepping;
mod stopping;
mod trees;
mod ways;

pub use choosing::choose;
pub use chosen::Chosen;
