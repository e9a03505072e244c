/// What the last basis of the chain of a system gives.
#[derive(Drop)]
pub enum Answer {
    /// Numbers of at least 0, one for each column, that meet the equations when they are divided by the scale.
    Solution { values: Vec<i128>, scale: i128 },
    /// A multiplier of each row: the rows add up to columns of at least 0 and a right side below 0.
    Barrier { y: Vec<i128> },
}
