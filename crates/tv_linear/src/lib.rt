//! Rows of integers, regions made of them, and the proof trees of certificates over them.
//!
//! A row is integer coefficients and a constant. As a term it has a value at a list of numbers, one for each
//! column. As a condition it is met where that value is at most 0.
#![tactic(auto)]

mod choice;
mod columns;
mod copying;
mod cover;
mod fault;
pub mod held;
mod lists;
mod narrow;
mod packed;
mod packing;
mod push;
mod region;
mod row;
mod rows;
pub mod sums;
mod tight;
mod total;
mod view;

pub use choice::{Choice, ChoiceTree};
pub use copying::{all_padded, copies, copies_of_lists, copy_row, joined, push_copies};
pub use cover::{Cover, CoverTree, MAX_SPLITS};
pub use fault::RowFault;
pub use lists::{shortened, widened};
pub use narrow::{are_narrow, is_narrow};
pub use packed::PackedRows;
pub use packing::{append_rows, have_columns};
pub use push::push_item;
pub use region::{Piece, Poly, Region, Update};
pub use row::Row;
pub use rows::Rows;
pub use total::Total;
pub use view::RowView;
