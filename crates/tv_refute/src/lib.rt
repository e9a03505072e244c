//! Whether multipliers refute rows and whether covers are met, without memory.
//!
//! A row to be shown is never built. It is described by how it is made from the rows of the certificate,
//! and its numbers are read for 576 columns at once, as many as a program and an edge have at most, so that a row
//! that is composed is read once and passed where it is 0. The rows known at a place of a cover are a chain of
//! frames on the stack.
#![tactic(auto)]

mod addends;
mod blocks;
mod built;
mod cover;
mod falls;
mod frames;
mod met;
mod refute;
mod shown;
mod steps;
mod terms;

pub use built::{Built, number_of};
pub use cover::{Targets, cover_is_met};
pub use falls::{Rank, shows_less, shows_not_below};
pub use frames::Frames;
pub use met::{meets, meets_all};
pub use refute::refutes;
pub use shown::{Change, shows};
pub use terms::Terms;
