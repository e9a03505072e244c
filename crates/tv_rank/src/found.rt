use tv_linear::Row;

/// The term of a family at a location.
#[derive(Drop)]
pub struct LocalTerm {
    pub location: u32,
    pub row: Row,
}

/// Whether terms rank a set of cases.
#[derive(Drop)]
pub enum Found {
    /// A term for each location where a case of the set starts or ends, in the order of the locations; at all others it is 0.
    /// None grows over a case of the set, and over the falling one it falls by at least 1 from a value of at least 0.
    ///
    /// There are multipliers for each case of the set, and once more for the falling one: each list refutes the rows that are
    /// known where the case starts, its guards, and last the denial of the row to be shown.
    Family {
        terms: Vec<LocalTerm>,
        multipliers: Vec<Vec<i64>>,
    },
    /// There is no such family over the rationals: a barrier of the ranking system.
    None {
        barrier: Vec<i128>,
    },
}
