//! Terms that become decreasing one after the other, for a set of linear cases, or a barrier that excludes every such tuple of terms.
#![tactic(auto)]

mod answered;
mod attempt;
mod certificate;
mod depths;
mod entries;
mod fault;
mod law;
mod listing;
mod nested;
mod nesting;
mod node;
mod offered;
mod part;
mod parted;
mod pieces;
mod ranking;
mod reading;
mod showing;
mod shown;
mod signs;
mod solution;
mod solving;
mod splitting;
mod stepping;
mod steps;
mod system;
mod unknown;

pub use answered::nest;
pub use certificate::nested_certificate;
pub use depths::{DepthFault, Depths, nested_depths};
pub use fault::{NestFault, NestName};
pub use law::barriers_exclude;
pub use nested::Nested;
pub use nesting::{Family, Nesting};
pub use part::Part;
pub use shown::set_shown;
pub use signs::{sign_rows, signs_there, terms_there};
pub use solving::nested_terms;
pub use splitting::split_tree;
pub use stepping::{start_tree, step_tree};
