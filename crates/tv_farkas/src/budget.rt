/// How much work a call may do.
#[derive(Clone, Copy)]
pub struct Budget {
    /// How many bases of a chain are tried.
    pub pivots: u64,
    /// How many splits lie on a path, at most 128.
    pub splits: u32,
    /// How many pieces a region has.
    pub disjuncts: u32,
}
