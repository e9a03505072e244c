//! Certificates whose pieces are single states: of a run that comes back to a state, so that it never ends, and of a run that
//! comes to a location.
//!
//! The piece of a state has two rows for each variable `x` with the value `k`, `x - k` and `-x + k`. A row that the state meets is shown
//! there by its denial, taken once, and for each variable by one of the two rows, as often as the row's coefficient says.
#![tactic(auto)]

mod bare;
mod certificate;
mod endless;
mod falls;
mod fault;
mod line;
mod lines;
mod pieces;
mod reaching;
mod rows;
mod state;
mod step;
mod steps;
mod taking;

pub use bare::{bare_proof, whole, whole_node};
pub use certificate::{disproved_certificate, reaching_certificate};
pub use endless::endless_node;
pub use fault::PointFault;
pub use state::State;
pub use step::Step;
pub use taking::case_at;
