//! A search for proofs that every run ends, or comes to states where a formula holds, by places: the states of a location that meet some
//! rows. Each place has ranks of its own, and where no ranks fall, places are split by a row.
//!
//! The terms are those of a ranking system: A. Podelski and A. Rybalchenko, "A complete method for the synthesis of linear ranking
//! functions", VMCAI 2004, taken for a set of steps at once. It is a heuristic: the checker decides, and only a certificate that it accepts
//! is given back.
#![tactic(auto)]

mod area;
mod budget;
mod candidates;
mod certifying;
mod choosing;
mod components;
mod covers;
mod effect;
mod entered;
mod falling;
mod family;
mod goal;
mod guards;
mod limits;
mod lists;
mod meeting;
mod nodes;
mod parting;
mod partition;
mod passage;
mod place;
mod ranking;
mod regions;
mod searching;
mod splitting;
mod starting;
mod stepping;
mod strongest;
mod system;

pub use budget::Budget;
pub use searching::split_ranks;
