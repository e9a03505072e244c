//! The tests of what is found of formulas over paths, and of the nodes that are made of it, through public calls alone.
#![tactic(auto)]

#[cfg(test)]
mod answers;
#[cfg(test)]
mod claims;
#[cfg(test)]
mod nodes;
#[cfg(test)]
mod programs;
#[cfg(test)]
mod regions;
#[cfg(test)]
mod widths;
