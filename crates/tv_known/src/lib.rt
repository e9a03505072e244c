//! What the rounds of a property tell of a program, which programs have a ranking, how large regions get, and which programs are tame.
//!
//! The definitions stand in `specs/`. The functions carry their laws, and do nothing.
#![tactic(auto)]

mod laws;

pub use laws::{
    Sides, known_states_are_right, ranked_cases_end, ranked_until_is_decided,
    settled_round_is_exact, simple_recurrences_never_end, sizes_bound_counts,
};
