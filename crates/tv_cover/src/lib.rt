//! Covers of rows by targets: a proof tree that each integer point of the rows lies in some target, or an integer
//! point that lies in none; and, without targets, whether rows have an integer point.
#![tactic(auto)]

mod covered;
mod covering;
mod emptied;
mod emptying;
mod looking;
mod question;
mod sharing;
mod single;
mod solving;
mod splitting;
mod stepping;
mod targets;
mod witness;

pub use covered::Covered;
pub use covering::cover;
pub use emptied::Emptied;
pub use emptying::empty;
pub use single::cover_one;
pub use targets::{are_even, is_even};
