//! The tests of streams, through their public calls alone.
#![tactic(auto)]

#[cfg(test)]
mod memory;
#[cfg(test)]
mod outside;
#[cfg(test)]
mod split;
