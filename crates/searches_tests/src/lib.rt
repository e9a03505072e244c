//! The tests of the search for invariants and proofs, through public calls alone.
#![tactic(auto)]

#[cfg(test)]
mod hostile;
#[cfg(test)]
mod invariants;
#[cfg(test)]
mod programs;
#[cfg(test)]
mod proposers;
