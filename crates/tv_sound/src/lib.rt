//! What a certificate all of whose obligations are met shows of a program.
#![tactic(auto)]

mod accepting;
mod claims;

pub use accepting::accepted;
pub use claims::check_claim;
