ghost use Rattle.std.specs.Prelude.{◌≡◌};

/// Why a tree of nodes is no certificate of a property. Nodes are numbered from 0, each before its children.
#[derive(Clone, Copy, Debug, PartialEq, Eq)]
pub enum ShapeFault {
    /// The node is not shaped as its formula asks: its pieces, ranks, children, proofs, counts, indices or widths.
    Shape { node: u32 },
    /// The node, or a split of one of its proofs, lies deeper than 384.
    Deep { node: u32 },
    Memory,
}
