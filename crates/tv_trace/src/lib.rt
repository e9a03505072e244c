//! The first states of an endless run that a certificate leads along.
#![tactic(auto)]

mod choosing;
mod fault;
mod following;
mod offers;
mod shown;
mod steps;
mod sums;
mod tracing;

pub use shown::{Shown, TraceFault};
pub use tracing::trace;
