use tv_linear::Row;

/// A split on the path to a place of a cover: the row of the side that the path takes.
#[derive(Drop)]
pub struct Branch {
    pub row: Row,
    /// The values and the scale of the point with a coordinate that is not whole, where the row splits at one.
    pub point: Option<(Vec<i128>, i128)>,
}
