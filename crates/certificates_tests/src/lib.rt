//! The tests of certificates: of their pieces, their shape, their copies, and what is reported of their texts. They go through public calls
//! alone.
#![tactic(auto)]

#[cfg(test)]
mod accepted;
#[cfg(test)]
mod checked;
#[cfg(test)]
mod copies;
#[cfg(test)]
mod pieces;
#[cfg(test)]
mod refused;
#[cfg(test)]
mod shapes;
#[cfg(test)]
mod sketches;
#[cfg(test)]
mod tasks;
#[cfg(test)]
mod texts;
