//! Certificates from their texts, or the first line at fault.
#![tactic(auto)]

mod choices;
mod context;
mod counts;
mod covers;
mod cursor;
mod failure;
mod heads;
mod kind;
mod laws;
mod lines;
mod natural;
mod nodes;
mod number_line;
mod pieces;
mod proof;
mod read;
mod rows;
mod taker;
mod takes;
mod tree;
mod verdict;
mod walk;

pub use context::Context;
pub use counts::{are_few, chosen_are_few};
pub use covers::two_small;
pub use cursor::Cursor;
pub use failure::Failure;
pub use kind::LineKind;
pub use laws::{one_first_line_at_fault, right_lines_are_faultless, right_or_at_fault};
pub use lines::take;
pub use number_line::NumberLine;
pub use read::read_certificate;
pub use rows::{numbers, row_of, rows as read_rows};
pub use taker::Taker;
pub use takes::Taken;
pub use verdict::{finish, says_proved, values};
pub use walk::Walk;
