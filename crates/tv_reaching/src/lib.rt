//! The certificate of a run that was found: that a program comes to a location from certain values at the start.
//!
//! The states of the run are computed from the values at the start and the draws of each case.
#![tactic(auto)]

mod certificate;
mod exact;
mod found;
mod next;
mod parts;
mod states;
mod steps;
mod term;

pub use certificate::run_certificate;
pub use found::Found;
