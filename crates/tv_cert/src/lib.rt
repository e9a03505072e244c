//! Certificates: trees of nodes over a formula, and the obligations that they have to meet.
#![tactic(auto)]

mod aim;
mod aims;
mod at;
mod choosing;
mod claim;
mod failing;
mod fall;
mod fixed_point;
mod node;
mod owed;
mod owes;
mod parts;
mod pieces;
mod take;
mod targets;
mod visiting;
mod visitor;

pub use aim::Aim;
pub use choosing::Choosing;
pub use claim::Claim;
pub use failing::Failing;
pub use node::{Kind, Mark, Marked, Node, Proof, Verdict};
pub use owed::{Entered, OwedRows, TakenGuards};
pub use owes::{Destination, Owes};
pub use parts::part;
pub use pieces::Pieces;
pub use take::Take;
pub use targets::{Targets, targets_after};
pub use visiting::visit_pieces;
pub use visitor::Visitor;
