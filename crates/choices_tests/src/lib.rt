//! The tests of choices, through their public calls alone.
#![tactic(auto)]

#[cfg(test)]
mod questions;
#[cfg(test)]
mod refusals;
#[cfg(test)]
mod steps;
#[cfg(test)]
mod wanted;
