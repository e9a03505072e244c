use tv_linear::Cover;

/// Whether rows have an integer point.
#[derive(Drop)]
pub enum Emptied {
    /// They have none: a cover without targets.
    Tree(Cover),
    /// Integers that meet the rows.
    Whole(Vec<i128>),
}
