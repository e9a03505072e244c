ghost use Rattle.std.specs.Prelude.{IfOk};
ghost use Rattle.std.specs.List.{AllZip};
ghost use Rattle.tv_copy.specs.SameProofs.{SameProof};
ghost use Rattle.tv_copy.specs.SameNodes.{SameNode};

use crate::choices::copy_choice;
use crate::covers::copy_cover;
use crate::pieces::copy_all_marked;
use std::alloc::{AllocError, Global};
use tv_cert::{Node, Pieces, Proof};
use tv_linear::push_item;

/// A copy of the proof.
pub fn copy_proof(alloc: Global, proof: &Proof) -> Result<Proof, AllocError>
    ensures { IfOk result (SameProof proof.now) }
{
    match proof {
        Proof::Covered(cover) => Ok(Proof::Covered(copy_cover(alloc, cover)?)),
        Proof::Chosen(choice) => Ok(Proof::Chosen(copy_choice(alloc, choice)?)),
    }
}

/// Copies of the proofs, in order.
fn copy_proofs(alloc: Global, proofs: &[Proof]) -> Result<Vec<Proof>, AllocError>
    ensures { IfOk result (λ v. AllZip SameProof proofs.now v.items) }
{
    let mut copies = Vec::new(alloc);
    'proofs: for proof in proofs {
        push_item(&mut copies, copy_proof(alloc, proof)?)?;
    }
    Ok(copies)
}

/// A copy of the node and of those below it.
pub fn copy_node(alloc: Global, node: &Node) -> Result<Node, AllocError>
    ensures { IfOk result (SameNode node.now) }
{
    let pieces = copy_all_marked(alloc, node.pieces.list())?;
    let mut children = Vec::new(alloc);
    'children: for child in &node.children {
        push_item(&mut children, copy_node(alloc, child)?)?;
    }
    let proofs = copy_proofs(alloc, &node.proofs)?;
    Ok(Node {
        pieces: Pieces::new(alloc, pieces)?,
        ranks: node.ranks,
        children,
        proofs,
    })
}
