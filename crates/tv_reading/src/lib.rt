//! Reading sums and conditions from the tokens of a text.
//!
//! A reading goes over the tokens that `tv_language::scan` gives, so that a lexical fault does not hide an earlier fault of the
//! grammar. Names are numbered as they are come by, or found among those that are known. The first fault is reported by its place and
//! its kind; at one place the order is Syntax, Wide, Deep, NotLinear, TooMany, UnknownName.
#![tactic(auto)]

mod conditions;
mod cursor;
mod fault;
mod joined;
mod marks;
mod reading;
mod reason;
mod source;
mod sums;
mod trees;

pub use fault::PartFault;
pub use marks::{MOST_LEVELS, is_formula_word};
pub use reading::Reading;
pub use reason::{Reason, Turn};
