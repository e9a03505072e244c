//! What a refusal of ranks under known rows shows, in terms of derived rows.
//!
//! The definitions stand in `specs/`. The functions carry their laws, and do nothing.
#![tactic(auto)]

mod laws;

pub use laws::ranks_are_derived;
