//! The rounds of fixpoints, as regions of states.
#![tactic(auto)]

mod answer;
mod comparing;
mod fault;
mod fixed_point;
mod growing;
mod laws;
mod shapes;
mod shrinking;
mod steps;
mod tame;
mod turn;

pub use answer::Rounds;
pub use fault::RoundFault;
pub use fixed_point::FixedPoint;
pub use laws::regions_are_derived;
pub use shapes::{must_end, rounds};
pub use tame::has_no_draws;
