/// Whether rows have a point over a scale.
#[derive(Drop)]
pub enum Refuted {
    /// They have none: the rows, each times its multiplier, add up to a positive constant.
    Empty { multipliers: Vec<i128> },
    /// The rows are met at the values divided by the scale.
    Point { values: Vec<i128>, scale: i128 },
}
