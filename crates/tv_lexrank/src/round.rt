use tv_rank::LocalTerm;

/// A round: a family of terms for the cases that were left, and the case that it takes out.
#[derive(Drop)]
pub struct Round {
    /// The cases that were left.
    pub set: Vec<u32>,
    /// Where the case that falls stands in the set.
    pub place: usize,
    /// The terms at the locations of the set.
    pub terms: Vec<LocalTerm>,
    /// Multipliers for each case of the set, and once more for the falling one.
    pub multipliers: Vec<Vec<i64>>,
}
