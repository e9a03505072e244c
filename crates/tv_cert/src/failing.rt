use crate::node::Kind;

/// The first obligation of a certificate that is not met: its number among them all, from 1, the node that it is of, and what it is about.
#[derive(Clone, Copy, Debug, PartialEq, Eq)]
pub struct Failing {
    pub number: u64,
    pub node: u32,
    pub kind: Kind,
}
