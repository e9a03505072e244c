use tv_program::Edge;

/// The items of a program so far.
#[derive(Drop)]
pub struct ItemsRead {
    /// The location of `START`, by its number.
    pub start: Option<u32>,
    pub edges: Vec<Edge>,
}
