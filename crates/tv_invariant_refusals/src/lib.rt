//! What a refusal of the greatest inductive part shows, in terms of derived rows.
//!
//! The definitions stand in `specs/`. The functions carry their laws, and do nothing.
#![tactic(auto)]

mod laws;

pub use laws::inductive_parts_are_derived;
