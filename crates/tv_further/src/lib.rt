//! A further search for certificates, by heuristics that owe no more than that they end: the checker decides, and only a certificate that
//! it accepts is given back.
#![tactic(auto)]

mod answer;
mod areas;
mod formulas;
mod limits;
mod searching;
mod strategies;

pub use answer::Further;
pub use searching::{further, look};
