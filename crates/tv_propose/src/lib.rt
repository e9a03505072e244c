//! What offers rows that may be inductive, one candidate at a time, and only as many as are asked for.
#![tactic(auto)]

mod bounds;
mod constants;
mod differences;
mod guards;
mod proposer;
mod scripted;
mod table;
mod walk;

pub use bounds::Bounds;
pub use differences::Differences;
pub use guards::GuardRows;
pub use proposer::Proposer;
pub use scripted::Scripted;
