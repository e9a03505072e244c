//! The tests of rows, refutations, places, lines and linear cases, through public calls alone.
#![tactic(auto)]

#[cfg(test)]
mod cases;
#[cfg(test)]
mod copying;
#[cfg(test)]
mod covers;
#[cfg(test)]
mod given;
#[cfg(test)]
mod lent;
#[cfg(test)]
mod lines;
#[cfg(test)]
mod numbers;
#[cfg(test)]
mod places;
#[cfg(test)]
mod refutations;
#[cfg(test)]
mod rows;
#[cfg(test)]
mod splits;
