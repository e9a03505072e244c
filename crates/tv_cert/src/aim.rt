use tv_formula::{Path, Shape};
use tv_linear::Row;

/// What a node of a certificate is to show: a normal formula, whose comparisons stand as lists of rows.
#[derive(Drop)]
pub enum Aim {
    /// All rows of one of these lists are met. True has one list without rows, and false has none.
    Rows(Vec<Vec<Row>>),
    /// The state is at this location.
    Here(u32),
    Elsewhere(u32),
    /// No endless run begins here.
    Ends,
    NeverEnds,
    EachOf(Vec<Aim>),
    OneOf(Vec<Aim>),
    After(Path, Box<Aim>),
    Along(Path, Shape, Box<Aim>, Box<Aim>),
}
