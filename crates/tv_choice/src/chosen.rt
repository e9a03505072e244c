use tv_linear::Choice;

/// What there is from a piece.
#[derive(Drop)]
pub enum Chosen {
    /// From each integer point of it a step into the region, or, where that is allowed, none at all.
    Tree(Choice),
    /// Whole values in the piece from which no step leads into the region. Where a state without a step may stop,
    /// some step leads somewhere.
    Hole(Vec<i128>),
}
