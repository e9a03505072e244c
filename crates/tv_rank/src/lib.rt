//! One ranking function for a set of linear cases: a term per location that grows over none of them and falls over one, or a
//! barrier that excludes every such family of terms.
#![tactic(auto)]

mod entries;
mod found;
mod listing;
mod name;
mod question;
mod ranking;
mod reading;
mod span;
mod system;
mod unknown;

pub use entries::{entered, left, met_number, opposite, unit_at};
pub use found::{Found, LocalTerm};
pub use listing::touches;
pub use name::Name;
pub use question::Question;
pub use ranking::{rank_place, weak_rank};
pub use reading::{line_of, term_of};
pub use span::{Span, span_of};
pub use system::is_large;
