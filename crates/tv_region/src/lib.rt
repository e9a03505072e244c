//! Regions of states, and the states with a step into a region or with all steps into it.
#![tactic(auto)]

mod adding;
mod algebra;
mod back;
mod cases;
mod counted;
mod draws;
mod fault;
mod fitting;
mod inclusion;
mod limits;
mod lists;
mod located;
mod products;
mod pruning;
mod rows;
mod steps;

pub use algebra::{both, complement, either};
pub use fault::RegionFault;
pub use fitting::fits;
pub use steps::{before_any, before_every};
