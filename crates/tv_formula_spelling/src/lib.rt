//! Writing formulas in their one spelling.
#![tactic(auto)]

mod formulas;

pub use formulas::write_formula;
