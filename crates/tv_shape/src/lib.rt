//! The shape of certificates: whether each node has the parts that its formula asks for, before any obligation is looked at.
#![tactic(auto)]

mod amounts;
mod certificate;
mod choices;
mod covers;
mod depths;
mod fault;
mod fitting;
mod kinds;
mod laws;
mod made;
mod narrow;
mod nodes;
mod offered;
mod pieces;
mod shaper;
mod verdicts;
mod walking;

pub use certificate::Certificate;
pub use fault::ShapeFault;
pub use laws::{faulty_is_unfit, one_first_fault, right_nodes_fit};
pub use made::node_of;
pub use nodes::{argument_count, may_be_done, may_rank};
