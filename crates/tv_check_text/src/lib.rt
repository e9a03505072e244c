//! The text of a certificate, checked while it is read, so that no proof of it is held in memory.
#![tactic(auto)]

mod checker;
mod choices;
mod covers;
mod empty;
mod proof;
mod shown;
mod takes;
mod text;
mod verdict;
mod visiting;

pub use text::{Accepted, TextFailing, check_text};
