//! The greatest inductive part of a list of rows at locations, and of what proposers offer.
#![tactic(auto)]

mod asking;
mod inductive;
mod judge;
mod keeping;
mod kept;
mod lists;
mod passes;
mod pieces;
mod question;
mod reached;
mod rows;
mod seen;
mod showing;
mod start;
mod step;
mod strengthening;
mod thinning;
mod walks;

pub use inductive::largest_inductive;
pub use pieces::known_pieces;
pub use strengthening::strengthen;
