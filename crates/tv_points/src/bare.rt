// Nodes of formulas that ask for no rows.

ghost use Rattle.std.specs.Prelude.{◌≡◌, ◌++◌, ◌∷◌, [], ◌-◌, ◌^◌, ◌<◌, IfOk};
ghost use Rattle.tv_cert.specs.declared.node.Marked.{Marked};
ghost use Rattle.tv_points.specs.Nodes.{IsBare, ArePushedBare, IsWholeNode, whole_piece, whole_pieces};

use crate::state::State;
use std::alloc::{AllocError, Global};
use tv_cert::{Mark, Marked, Node, Proof};
use tv_linear::{Cover, CoverTree, push_item};
use tv_shape::node_of;

/// The cover into the first target by no fall, with nothing to be shown.
pub fn bare_proof(alloc: Global) -> Proof
    ensures { IsBare result }
{
    let tree = CoverTree::Into {
        target: 0,
        fall: 0,
        refutations: Vec::new(alloc),
    };
    match Cover::new(tree) {
        Some(cover) => Proof::Covered(cover),
        None => unreachable!(),
    }
}

/// Puts such a proof for each of the pieces at the end of the list.
fn push_bare(alloc: Global, pieces: &[Marked], proofs: &mut Vec<Proof>) -> Result<(), AllocError>
    ensures { IfOk result (λ _. ArePushedBare pieces.now proofs.old.items proofs.new.items) }
{
    match pieces {
        [] => Ok(()),
        [_, rest @ ..] => {
            push_item(proofs, bare_proof(alloc))?;
            push_bare(alloc, rest, proofs)
        }
    }
}

/// The piece of all states at a location.
pub fn whole(alloc: Global, columns: u32, location: u32) -> Result<Marked, AllocError>
    requires bounded { columns < 2 ^ 32 - 1 }
    ensures { IfOk result (λ p. p ≡ whole_piece columns location) }
{
    match Marked::from_rows(alloc, location, Mark::Go, columns, &[], &[])? {
        Some(piece) => Ok(piece),
        None => unreachable!(),
    }
}

/// Puts the pieces of all states where these states are at the end of the list.
fn push_whole(
    alloc: Global,
    columns: u32,
    states: &[State],
    pieces: &mut Vec<Marked>,
) -> Result<(), AllocError>
    requires bounded { columns < 2 ^ 32 - 1 }
    ensures { IfOk result (λ _. pieces.new.items ≡ pieces.old.items ++ whole_pieces columns states.now) }
{
    match states {
        [] => Ok(()),
        [state, rest @ ..] => {
            push_item(pieces, whole(alloc, columns, state.location)?)?;
            push_whole(alloc, columns, rest, pieces)
        }
    }
}

/// The node of these pieces, which have no rows.
pub fn whole_node(alloc: Global, pieces: Vec<Marked>) -> Result<Node, AllocError>
    ensures { IfOk result (λ node. IsWholeNode node pieces.items) }
{
    let mut proofs = Vec::new(alloc);
    push_bare(alloc, &pieces, &mut proofs)?;
    node_of(alloc, pieces, 0, Vec::new(alloc), proofs)
}

/// The node of `true` where the states are.
pub(crate) fn truth_node(alloc: Global, columns: u32, states: &[State]) -> Result<Node, AllocError>
    requires bounded { columns < 2 ^ 32 - 1 }
    ensures { IfOk result (λ node. IsWholeNode node (whole_pieces columns states.now)) }
{
    let mut pieces = Vec::new(alloc);
    push_whole(alloc, columns, states, &mut pieces)?;
    whole_node(alloc, pieces)
}

/// The node of the test that the state is at the location.
pub(crate) fn location_node(alloc: Global, columns: u32, location: u32) -> Result<Node, AllocError>
    requires bounded { columns < 2 ^ 32 - 1 }
    ensures { IfOk result (λ node. IsWholeNode node (whole_piece columns location ∷ [])) }
{
    let mut pieces = Vec::new(alloc);
    push_item(&mut pieces, whole(alloc, columns, location)?)?;
    whole_node(alloc, pieces)
}
