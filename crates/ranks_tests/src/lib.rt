//! The tests of lexicographic ranks, through public calls alone.
#![tactic(auto)]

#[cfg(test)]
mod attempts;
#[cfg(test)]
mod certificates;
#[cfg(test)]
mod families;
#[cfg(test)]
mod known;
#[cfg(test)]
mod nested;
#[cfg(test)]
mod programs;
#[cfg(test)]
mod shown;
#[cfg(test)]
mod splits;
#[cfg(test)]
mod visits;
