//! The one spelling of certificates.
#![tactic(auto)]

mod certificates;
mod laws;
mod nodes;
mod parts;

pub use certificates::write_certificate;
pub use laws::{same_lines_of_one_claim, same_lines_same_certificate, written_is_read};
