use crate::CaseShown;
use tv_cert::Node;

/// Whether every run is shown to end.
#[derive(Drop)]
pub enum Ranked {
    /// A node of a certificate that shows it, at each location the known states with their ranks; and what shows each case, by its number.
    Node {
        node: Node,
        shown: Vec<CaseShown>,
    },
    /// The numbers of cases that no family of terms ranks, in ascending order, and for each of them a barrier of the ranking
    /// system in which it falls.
    Stuck {
        set: Vec<u32>,
        barriers: Vec<Vec<i128>>,
    },
}
