//! The one spelling of sums, conditions and programs.
#![tactic(auto)]

mod conditions;
mod programs;
mod sums;
mod writing;

pub use conditions::{relation_text, truth_text, write_condition};
pub use programs::write_program;
pub use sums::{append_sum, write_sum};
pub use writing::{append_name, append_text};
