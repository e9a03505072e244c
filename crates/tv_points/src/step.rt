/// A step of a run.
#[derive(Drop)]
pub struct Step {
    /// The number of the case that is taken.
    pub taken: u32,
    /// A number for each draw of the case.
    pub draws: Vec<i64>,
    /// The place of the state that it leads to, in the list of states.
    pub next: u32,
}
