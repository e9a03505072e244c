ghost use Rattle.std.specs.Prelude.{◌↔◌, ◌≤◌, ◌<◌, ◌^◌, IsTrue, length, map};
ghost use Rattle.std.specs.List.{flat_map};
ghost use Rattle.tv_cert.specs.NodeViews.{pieces_list};
ghost use Rattle.tv_cert.specs.TargetViews.{AreFew, AreFewAt, ranks_past};

use tv_cert::{Destination, Marked, Node, Targets};

/// How many targets there may be at most, and falls into one: they have numbers of 32 bits.
const MOST: usize = (1 << 32) - 1;

/// Whether the nodes have at most `most` pieces together.
fn joined_within(nodes: &[Node], most: usize) -> bool
    ensures { IsTrue result ↔ (length (flat_map (λ a. a) (map pieces_list nodes.now)) ≤ most) }
{
    match nodes {
        [] => true,
        [node, rest @ ..] => {
            let here = node.pieces.list().len();
            here <= most && joined_within(rest, most - here)
        }
    }
}

/// Whether the falls from a piece can be counted with 32 bits.
fn falls_are_few(from: Option<&Marked>) -> bool
    ensures { IsTrue result ↔ (length (ranks_past from.entry) < 2 ^ 32) }
{
    match from {
        None => true,
        Some(piece) => piece.ranks().len() <= MOST,
    }
}

/// Whether the targets and their falls can be counted with 32 bits.
pub fn are_few(targets: &Targets) -> bool
    ensures { IsTrue result ↔ AreFew targets.now }
{
    match targets {
        Targets::Nowhere => true,
        Targets::Lists(lists) => lists.len() <= MOST,
        Targets::Truth(_) => true,
        Targets::Joined { nodes, .. } => joined_within(nodes, MOST),
        Targets::Pieces { from, into, .. } => into.list().len() <= MOST && falls_are_few(*from),
    }
}

/// Whether the pieces that a choice leads into, and the falls from its piece, can be counted with 32 bits.
pub fn chosen_are_few(piece: &Marked, destination: &Destination) -> bool
    ensures { IsTrue result ↔ AreFewAt piece.now destination.now }
{
    match destination {
        Destination::Anywhere => true,
        Destination::Into { pieces, .. } => pieces.list().len() <= MOST
            && piece.ranks().len() <= MOST,
    }
}
