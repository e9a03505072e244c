//! Certificates that settle what is claimed: that every run ends, by ranks alone or under rows that every run keeps to, and that no run comes
//! to a location, by rows that every run keeps to and that no integer point meets there.
#![tactic(auto)]

mod attempts;
mod barrier;
mod certificate;
mod ending;
mod fault;
mod hold;
mod node;
mod offered;
mod pieces;
mod step;

pub use attempts::first_end;
pub use certificate::safety_certificate;
pub use ending::found_end;
pub use fault::EndFault;
