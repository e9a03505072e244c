//! Grammars as values: what they spell, what a text of theirs stands for, and how they are read from left to right with one
//! token in sight. They are used in contracts and proofs alone, so there is no code here.
#![tactic(auto)]
