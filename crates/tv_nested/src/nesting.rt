use tv_rank::LocalTerm;

/// Terms that are nested over a set of cases, with what shows it.
#[derive(Drop)]
pub struct Family {
    /// From the first to the last, each at the locations where a case of the set starts or ends, in the order of the locations; at all others
    /// they are 0. They are times the scale.
    pub terms: Vec<Vec<LocalTerm>>,
    /// By how much each term and the one before it together fall at least.
    pub scale: i128,
    /// For each case of the set a list of multipliers for each term, and one more for the bound of the last: of the rows that are known where
    /// the case starts, of its guards, and last of the denial of the row to be shown.
    pub lines: Vec<Vec<Vec<i64>>>,
}

/// Whether terms are nested over a set of cases.
#[derive(Drop)]
pub enum Nesting {
    Terms(Family),
    /// No such terms are, over the rationals: a barrier of the nested system.
    None { barrier: Vec<i128> },
}
