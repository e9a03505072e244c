//! The call that the program makes: it answers the question of its words about the text that a source holds.
#![tactic(auto)]

mod accepting;
mod answer;
mod assignment;
mod cause;
mod cause_lines;
mod certificate_check;
mod command;
mod ending;
mod excluded;
mod finding;
mod further;
mod laws;
mod limits;
mod making;
mod named_system;
mod nesting;
mod numbers;
mod paths;
mod property;
mod running;
mod safety;
mod search;
mod status;
mod system_fault;
mod task;
mod tracing;
mod visiting;
mod wanted;

pub use laws::{listed_words, refused_words};
pub use making::generated;
pub use running::run;
pub use status::Status;
