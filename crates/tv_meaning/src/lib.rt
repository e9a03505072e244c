//! The meaning of programs and formulas: runs, what every run must do, what ends, and where a formula holds.
#![tactic(auto)]

mod endless;
mod laws;

pub use endless::{Endless, never_endless};
pub use laws::{negation_excludes, normal_implies};
