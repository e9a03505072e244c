// Ranks that show that a property holds only finitely often on every run.

use crate::shape::has_shape;
use crate::split_program::Split;
use tv_cert::{Node, Pieces, Proof};
use tv_linear::Cover;

/// Pieces of states with ranks: they fall over each step to a state where the property holds, and over each other step they fall or none of
/// them grows; with a proof for each step, and a cover of the start by the pieces.
#[derive(Drop)]
pub struct Visits {
    pub(crate) pieces: Pieces,
    /// How many ranks each piece has.
    pub(crate) ranks: u32,
    pub(crate) proofs: Vec<Proof>,
    pub(crate) root: Cover,
}

impl Visits {
    ghost use Rattle.std.specs.Prelude.{◌≡◌, MatchOption};
    ghost use Rattle.tv_finitely.specs.Obligations.{visits_of, offered_by};
    ghost use Rattle.tv_finitely.specs.Shapes.{NodeVisits};
    ghost use Rattle.tv_finitely.specs.Splits.{split_of};

    /// The pieces and proofs of a node, and a cover of the start by them; `None` where they do not have the shape of visits of this split
    /// program: the node has a child or a piece that does not go on, or a count is out of range, or there is not just one cover for each
    /// piece and each case from its location.
    pub fn new(about: &Split, node: Node, root: Cover) -> Option<Visits>
        ensures { let split = split_of about.now in
            MatchOption result (¬ (NodeVisits split node root))
            (λ v. NodeVisits split node root × (visits_of v ≡ offered_by node root)) }
    {
        if !node.children.is_empty() {
            return None;
        }
        if !has_shape(about, &node, root.tree()) {
            return None;
        }
        let Node {
            pieces,
            ranks,
            children: _children,
            proofs,
        } = node;
        Some(Visits {
            pieces,
            ranks,
            proofs,
            root,
        })
    }
}
