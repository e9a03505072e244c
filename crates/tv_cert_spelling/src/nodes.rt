ghost use Rattle.std.specs.Prelude.{◌≡◌, ◌≤◌, ◌++◌, ◌∷◌, [], pos, length, drop, IfOk};
ghost use Rattle.tv_lines.specs.Lines.{formed};
ghost use Rattle.tv_cert.specs.NodeViews.{pieces_list};
ghost use Rattle.tv_cert.specs.Nodes.{size};
ghost use Rattle.tv_cert_spelling.specs.Spelling.{spelled, all_spelled, first_kind, lines_with};

use crate::parts::{append_line, append_pieces, append_proofs};
use std::alloc::{AllocError, Global};
use tv_cert::Node;
use tv_lines::{Head, NodeKind};

/// The first of the kinds.
fn first_kind(kinds: &[NodeKind]) -> NodeKind
    ensures { result ≡ first_kind kinds.now }
{
    match kinds {
        [] => NodeKind::Atom,
        [kind, ..] => *kind,
    }
}

/// Adds a node with those below it, given their kinds, each before its children. It answers how many nodes they are.
pub fn append_node(
    alloc: Global,
    out: &mut Vec<u8>,
    kinds: &[NodeKind],
    node: &Node,
) -> Result<usize, AllocError>
    requires { size node.now ≤ length kinds.now }
    ensures { IfOk result (λ count. (out.new.items ≡ out.old.items ++ all_spelled (lines_with kinds.now node.now)) × (count ≡ size node.now)) }
{
    let numbers = [node.pieces.list().len() as i128, node.ranks as i128];
    append_line(alloc, out, Head::Node(first_kind(kinds)), &numbers)?;
    append_pieces(alloc, out, node.pieces.list())?;
    let mut count = 1;
    for child in &node.children {
        let (_, rest) = kinds.split_at(count);
        count += append_node(alloc, out, rest, child)?;
    }
    append_proofs(alloc, out, &node.proofs)?;
    Ok(count)
}
