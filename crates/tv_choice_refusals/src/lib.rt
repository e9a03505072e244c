//! What a refusal of a choice over derived rows shows.
//!
//! The definitions stand in `specs/`. The functions carry their laws, and do nothing.
#![tactic(auto)]

mod laws;

pub use laws::choices_are_derived;
