use crate::question::Question;
use crate::rows::solving::Effort;
use std::alloc::AllocError;
use tv_cert::{Node, Verdict};

/// The parts of a certificate that nobody has checked.
#[derive(Drop)]
pub struct Attempt {
    pub verdict: Verdict,
    pub root: Node,
}

/// Which search it is.
#[derive(Clone, Copy, Debug, PartialEq, Eq)]
pub enum Name {
    ExplicitGraph,
    ClosedCycles,
    Walks,
    RankedRegions,
}

/// One way to look for a certificate. Nothing is promised of what it finds.
pub trait Search {
    fn name(&self) -> Name;

    /// An attempt at the question, where the search has one.
    fn attempt(
        &self,
        question: &Question,
        effort: &mut Effort,
    ) -> Result<Option<Attempt>, AllocError>;
}
