/// A state of a program.
#[derive(Drop)]
pub struct State {
    pub location: u32,
    /// The value of each variable.
    pub values: Vec<i64>,
}
