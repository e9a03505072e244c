//! Reading whole texts of programs.
#![tactic(auto)]

mod commands;
mod fault;
mod items;
mod laws;
mod place;
mod program;
mod read;
mod reader;
mod words;

pub use fault::{ReadFault, What};
pub use laws::{one_first_fault, one_program, program_texts_are_faultless};
pub use place::{column_of, line_of};
pub use read::read_program;
