//! Reading formulas from their texts.
#![tactic(auto)]

mod fault;
mod formulas;
mod laws;
mod operators;
mod plain;
mod read;
mod source;
mod sums;
mod trees;

pub use fault::FormulaFault;
pub use laws::{formula_texts_are_faultless, one_first_fault, one_formula};
pub use read::read_formula;
