//! The places of a list of numbers at which each number stands, found by binary search.
#![tactic(auto)]

mod places;

pub use places::{Stand, count_of, index, place_at};
