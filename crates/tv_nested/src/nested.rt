use tv_cert::Node;
use tv_linear::Cover;

/// Whether nested terms show that every run ends.
#[derive(Drop)]
pub enum Nested {
    /// A node of a certificate that shows it, and a cover of the start by its pieces there.
    Node {
        node: Node,
        start: Cover,
    },
    /// The number of a component, the cases that its rounds leave, over which no 2, 3 or 4 terms are nested, and for each of these depths a
    /// barrier of the nested system.
    None {
        component: u32,
        set: Vec<u32>,
        barriers: Vec<Vec<i128>>,
    },
}
