//! An exact solver of linear equations with two sides: numbers of at least 0 that meet the equations, or
//! multipliers that show that there are none.
//!
//! It walks the chain of bases of the simplex method under a lexicographic rule, so that no basis comes twice,
//! over a tableau of exact fractions.
#![tactic(auto)]

mod adding;
mod answer;
mod answering;
mod entering;
mod entries;
mod exchanging;
mod fault;
mod fractions;
mod laws;
mod leaving;
mod marks;
mod merging;
mod numbers;
mod rows;
mod scaling;
mod settling;
mod starting;
mod stop;
mod system;
mod table;
mod walking;

pub use answer::Answer;
pub use entries::Entries;
pub use fault::SolveFault;
pub use laws::{
    chain_goes_on, chain_is_bounded, none_comes_twice, one_chain, one_tableau, settled_gives,
    system_with_artificial_columns, unsettled_are_fewer, wide_in_each,
};
pub use settling::solve;
pub use system::System;
