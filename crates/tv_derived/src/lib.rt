//! Rows that come from the rows handed in by the steps of the prover, and the lists of them that it solves.
//!
//! The definitions stand in `specs/`. The functions carry their laws, and do nothing.
#![tactic(auto)]

mod laws;

pub use laws::{
    carries, case_questions_are_derived, cases_are_counted, columns_are_of_paths,
    draws_are_cancelled, lists_are_different, paths_are_listed, places_are_kept, rows_are_even,
    steps_are_derived,
};
