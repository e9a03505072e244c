//! That a property of the states of a program holds only finitely often on every run: the program split by the property, ranks that show it,
//! their check, and the prover that looks for them.
#![tactic(auto)]

mod assumable;
mod attempt;
mod checking;
mod conditions;
mod copies;
mod doubling;
mod entering;
mod fault;
mod kept;
mod marks;
mod offered;
mod owed;
mod part;
mod pieces;
mod proving;
mod ranking;
mod rounds;
mod shape;
mod shown;
mod split_program;
mod splitting;
mod step;
mod under;
mod visits;

pub use checking::check_finitely;
pub use fault::VisitFault;
pub use proving::prove_finitely;
pub use split_program::{Split, SplitFault};
pub use splitting::split;
pub use visits::Visits;
