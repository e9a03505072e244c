// Nodes without the pieces that are not needed.

use crate::copying::Counting;
use crate::entering::{mark_target, push_targets};
use crate::marks::Marks;
use crate::numbering::Numbering;
use crate::owner::{Among, counted_among};
use std::alloc::{AllocError, Global};
use tv_cases::Cases;
use tv_cert::{Aim, Node, Pieces, Proof};

/// What a node is to show, and of what program.
#[derive(Clone, Copy)]
pub(crate) struct Context<'a> {
    pub alloc: Global,
    pub about: &'a Cases,
    pub aim: &'a Aim,
}

/// What the child at this place is to show.
fn aim_of_child(aim: &Aim, place: usize) -> Option<&Aim> {
    match aim {
        Aim::EachOf(parts) | Aim::OneOf(parts) => parts.get(place),
        Aim::After(_, inner) => Some(inner),
        Aim::Along(_, _, first, second) => Some(if place == 0 { first } else { second }),
        _ => None,
    }
}

/// For each piece, the pieces among which the targets of its proofs are counted.
fn all_among(context: Context, node: &Node) -> Result<Vec<Vec<Among>>, AllocError> {
    let Context { alloc, about, aim } = context;
    let mut all = Vec::new(alloc);
    for piece in node.pieces.list() {
        all.push(counted_among(alloc, about, aim, piece, node.children.len())?)?;
    }
    Ok(all)
}

/// Where the proofs of each piece begin.
fn starts_of(alloc: Global, all: &[Vec<Among>]) -> Result<Vec<usize>, AllocError> {
    let mut starts = Vec::new(alloc);
    let mut start: usize = 0;
    for list in all {
        starts.push(start)?;
        start = start.saturating_add(list.len());
    }
    Ok(starts)
}

/// A node, and the pieces among which the targets of its proofs are counted.
#[derive(Drop)]
struct Plan<'a> {
    node: &'a Node,
    among: Vec<Vec<Among>>,
    starts: Vec<usize>,
}

impl<'a> Plan<'a> {
    fn new(context: Context, node: &'a Node) -> Result<Plan<'a>, AllocError> {
        let among = all_among(context, node)?;
        let starts = starts_of(context.alloc, &among)?;
        Ok(Plan {
            node,
            among,
            starts,
        })
    }

    /// What is counted for the proofs of the piece at this place.
    fn among_at(&self, place: usize) -> &[Among] {
        match self.among.get(place) {
            None => &[],
            Some(list) => list,
        }
    }

    /// The proof of this number of the piece at this place.
    fn proof_at(&self, place: usize, number: usize) -> Option<&Proof> {
        let start = self.starts.get(place)?;
        self.node.proofs.get(start.saturating_add(number))
    }
}

/// Marks what the proofs of the piece at this place enter; the places of the node's own pieces that were not marked before are put at the
/// end of the list.
fn mark_from(
    context: Context,
    plan: &Plan,
    place: usize,
    own: &mut Marks,
    children: &mut [Marks],
    pending: &mut Vec<usize>,
) -> Result<(), AllocError> {
    let mut targets = Vec::new(context.alloc);
    for (number, among) in plan.among_at(place).iter().enumerate() {
        if let Some(proof) = plan.proof_at(place, number) {
            targets.clear();
            push_targets(context.about, *among, proof, &mut targets)?;
            for target in &targets {
                if let Some(more) = mark_target(among.owner, *target, own, children) {
                    pending.push(more)?;
                }
            }
        }
    }
    Ok(())
}

/// The places of the marked pieces.
fn marked_places(alloc: Global, node: &Node, own: &Marks) -> Result<Vec<usize>, AllocError> {
    let mut places = Vec::new(alloc);
    for place in 0..node.pieces.list().len() {
        if own.is_needed(place) {
            places.push(place)?;
        }
    }
    Ok(places)
}

/// Marks all that is entered from the marked pieces of the node, and from there; what is entered of its children.
fn mark_all(context: Context, plan: &Plan, own: &mut Marks) -> Result<Vec<Marks>, AllocError> {
    let mut children = Marks::none_of_each(context.alloc, &plan.node.children)?;
    let mut pending = marked_places(context.alloc, plan.node, own)?;
    for _ in 0..plan.node.pieces.list().len() {
        let Some(place) = pending.pop() else {
            return Ok(children);
        };
        mark_from(context, plan, place, own, &mut children, &mut pending)?;
    }
    Ok(children)
}

/// The proofs of the pieces that stay; `None` where one is too deep.
fn proofs_of(
    context: Context,
    plan: &Plan,
    numbering: Numbering,
) -> Result<Option<Vec<Proof>>, AllocError> {
    let mut proofs = Vec::new(context.alloc);
    for place in 0..plan.node.pieces.list().len() {
        if numbering.own.is_needed(place)
            && !push_proofs(context, plan, place, numbering, &mut proofs)?
        {
            return Ok(None);
        }
    }
    Ok(Some(proofs))
}

/// Puts the proofs of the piece at this place at the end of the list; whether none is too deep.
fn push_proofs(
    context: Context,
    plan: &Plan,
    place: usize,
    numbering: Numbering,
    proofs: &mut Vec<Proof>,
) -> Result<bool, AllocError> {
    let Context { alloc, about, .. } = context;
    for (number, among) in plan.among_at(place).iter().enumerate() {
        let among = *among;
        let counting = Counting {
            alloc,
            about,
            numbering,
            among,
        };
        if let Some(proof) = plan.proof_at(place, number) {
            match counting.proof(proof)? {
                None => return Ok(false),
                Some(proof) => proofs.push(proof)?,
            }
        }
    }
    Ok(true)
}

/// The node of the pieces that stay; `None` where it cannot be made.
fn rebuilt(
    context: Context,
    plan: &Plan,
    numbering: Numbering,
    children: Vec<Node>,
) -> Result<Option<Node>, AllocError> {
    let mut pieces = Vec::new(context.alloc);
    for (place, piece) in plan.node.pieces.list().iter().enumerate() {
        if numbering.own.is_needed(place) {
            pieces.push(piece.copy(context.alloc)?)?;
        }
    }
    match proofs_of(context, plan, numbering)? {
        None => Ok(None),
        Some(proofs) => Ok(Some(Node {
            pieces: Pieces::new(context.alloc, pieces)?,
            ranks: plan.node.ranks,
            children,
            proofs,
        })),
    }
}

/// The children without what is not needed; their marks are completed.
#[cycle(nodes)]
fn pruned_children(
    context: Context,
    nodes: &[Node],
    marks: &mut [Marks],
) -> Result<Option<Vec<Node>>, AllocError> {
    let mut list = Vec::new(context.alloc);
    for (place, node) in nodes.iter().enumerate() {
        let (Some(aim), Some(own)) = (aim_of_child(context.aim, place), marks.get_mut(place)) else {
            return Ok(None);
        };
        let alloc = context.alloc;
        let about = context.about;
        match pruned(Context { alloc, about, aim }, node, own)? {
            None => return Ok(None),
            Some(node) => list.push(node)?,
        }
    }
    Ok(Some(list))
}

/// The node without the pieces that are not needed, where those that are marked are, which are completed; `None` where it cannot be made.
#[cycle(nodes)]
pub(crate) fn pruned(
    context: Context,
    node: &Node,
    own: &mut Marks,
) -> Result<Option<Node>, AllocError> {
    let plan = Plan::new(context, node)?;
    let mut marks = mark_all(context, &plan, own)?;
    match pruned_children(context, &node.children, &mut marks)? {
        None => Ok(None),
        Some(children) => {
            let numbering = Numbering {
                own,
                children: &marks,
            };
            rebuilt(context, &plan, numbering, children)
        }
    }
}
