/// Whether rows have a point over a scale. Some of the rows may be repeated.
#[derive(Drop)]
pub enum Judged {
    /// They have none: a multiplier for each row, which is 0 at each repeated one.
    Refuted(Vec<i64>),
    /// The rows, each taken once, have this point.
    Point { values: Vec<i128>, scale: i128 },
}
