use tv_candidates::Candidate;

/// Whether a run comes to a location.
#[derive(Drop)]
pub enum Searched {
    /// None does: an inductive list whose rows at the location no integer point meets.
    Safe(Vec<Candidate>),
    /// A run to the location: the numbers of its cases, the values at the start, and the draws of each case.
    Reached {
        path: Vec<u32>,
        values: Vec<i128>,
        draws: Vec<Vec<i128>>,
    },
}
