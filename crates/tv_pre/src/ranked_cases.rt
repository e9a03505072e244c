use tv_cert::Node;
use tv_lexrank::CaseShown;

/// What ranks all states of a program.
#[derive(Drop)]
pub struct RankedCases<'a> {
    /// A node that shows that every run ends: the ranks of a location are those of its piece there.
    pub node: &'a Node,
    /// For each case, in order, that its steps lower these ranks, or that it is never taken.
    pub shown: &'a [CaseShown],
}
