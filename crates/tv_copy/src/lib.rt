//! Copies of nodes, of their proofs, and of regions. A copy is equal to its original up to where its lists lie in memory, and all that a
//! certificate is checked for is so of the copy where it is so of the original.
#![tactic(auto)]

mod choices;
mod covers;
mod nodes;
mod pieces;
mod regions;
mod rows;

pub use covers::copy_cover;
pub use nodes::{copy_node, copy_proof};
pub use regions::copy_region;
pub use rows::copy_rows;
