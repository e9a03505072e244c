//! Formulas over the states of a program, their normal form and their negation.
#![tactic(auto)]

mod copies;
mod formula;
mod named;
mod negation;
mod tree;

pub use formula::Formula;
pub use named::{termination, unreachable};
pub use negation::{negate, normal};
pub use tree::{Path, Shape, Tree};
