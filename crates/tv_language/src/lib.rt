//! What the texts of sums, conditions and programs are, and the words and numbers of their tokens.
#![tactic(auto)]

mod front;
mod gap;
mod lexeme;
mod number;
mod recent;
mod scanner;
mod token;
mod word;

pub use lexeme::{is_colon, is_label, is_name, number_of, relation_of, word_of};
pub use recent::{Recent, behind, find_near};
pub use scanner::{scan, tokens};
pub use token::{Token, TokenFault, TokenKind};
pub use word::is_word;
