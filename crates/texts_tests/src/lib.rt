//! The tests of the crates that read, write and execute programs and formulas, through their public calls alone.
#![tactic(auto)]

#[cfg(test)]
mod execution;
#[cfg(test)]
mod formulas;
#[cfg(test)]
mod formulas_again;
#[cfg(test)]
mod names;
#[cfg(test)]
mod parts;
#[cfg(test)]
mod processes;
#[cfg(test)]
mod programs;
#[cfg(test)]
mod spelling;
#[cfg(test)]
mod spelling_again;
#[cfg(test)]
mod texts;
#[cfg(test)]
mod tokens;
#[cfg(test)]
mod words;
