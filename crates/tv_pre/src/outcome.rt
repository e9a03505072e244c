use crate::{Gap, Part};

/// What was found of a formula.
#[derive(Drop)]
pub struct Found {
    /// Where the formula holds, as far as it is known, and the node that shows it.
    pub part: Part,
    /// Why the region may lack states, if it may.
    pub gap: Option<Gap>,
    /// How many subformulas the formula has, with itself.
    pub size: u32,
}
