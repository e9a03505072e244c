//! Certificates in which only what is needed stands: a piece that no proof enters is left out, with what it owes.
#![tactic(auto)]

mod certificates;
mod copying;
mod entering;
mod marks;
mod numbering;
mod owner;
mod pruning;

pub use certificates::smaller;
