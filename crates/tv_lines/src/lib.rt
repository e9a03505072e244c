//! The lines of certificate texts.
//!
//! A line is words between single spaces. It ends with LF; a CR before the LF is taken off, and the last LF may be missing.
//! The first word says what the line is, and most other words are numbers: decimal digits without leading zeros, with `-`
//! in front of negative ones only. Each line is read alone.
#![tactic(auto)]

mod head;
mod line;
mod lines;
mod number;
mod words;
mod writing;

pub use head::{Head, NodeKind, PieceMark};
pub use line::Line;
pub use lines::Lines;
pub use writing::write_line;
