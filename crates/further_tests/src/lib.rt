//! The tests of the further searches, through public calls alone.
#![tactic(auto)]

#[cfg(test)]
mod comings;
#[cfg(test)]
mod disproofs;
#[cfg(test)]
mod endings;
#[cfg(test)]
mod proofs;
#[cfg(test)]
mod regions;
#[cfg(test)]
mod saying;
#[cfg(test)]
mod splits;
#[cfg(test)]
mod strategies;
