//! Tests of the solver's libraries, through their public calls alone.
#![tactic(auto)]

#[cfg(test)]
mod covers;
#[cfg(test)]
mod emptiness;
#[cfg(test)]
mod fractions;
#[cfg(test)]
mod graphs;
#[cfg(test)]
mod refutations;
#[cfg(test)]
mod systems;
#[cfg(test)]
mod tables;
