use std::alloc::Global;
use tv_linear::Poly;

/// What stays the same in a search.
#[derive(Drop)]
pub struct Question<'a> {
    pub alloc: Global,
    pub columns: u32,
    pub pivots: u64,
    /// For each row handed in whether it was taken before.
    pub repeated: &'a [bool],
    pub targets: &'a [Poly],
}
