//! The tests of regions of states, through their public calls alone.
#![tactic(auto)]

#[cfg(test)]
mod algebra;
#[cfg(test)]
mod rounds;
#[cfg(test)]
mod sample;
#[cfg(test)]
mod steps;
