use crate::Family;
use tv_lexrank::{Round, Sorted};

/// A component: its cases, the rounds that take out cases with a rational point, the set that they leave, and terms that are nested over it.
#[derive(Drop)]
pub struct Part {
    pub sorted: Sorted,
    pub rounds: Vec<Round>,
    pub left: Vec<u32>,
    /// Without terms where nothing is left.
    pub family: Family,
}
