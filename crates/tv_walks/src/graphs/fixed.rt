// Nodes of fixpoints in a graph.

use crate::graphs::choosing::push_successor;
use crate::graphs::graph::Graph;
use crate::graphs::made::{Made, Marks, Parts};
use crate::graphs::making::push_onward;
use crate::graphs::proving::{Entered, push_inside};
use crate::graphs::rule::layer_at;
use crate::graphs::selecting::{is_set, piece_place, with_layer};
use crate::question::Question;
use std::alloc::{AllocError, Global};
use tv_cert::Proof;
use tv_formula::{Path, Shape};

/// A fixpoint, and the nodes of its arguments.
#[derive(Drop)]
pub(crate) struct Fixed {
    pub path: Path,
    pub shape: Shape,
    pub first: Made,
    pub second: Made,
}

/// Whether ranks fall in the fixpoint.
pub(crate) fn has_falls(shape: Shape) -> bool {
    match shape {
        Shape::Until | Shape::Strong => true,
        Shape::Weak | Shape::Release => false,
    }
}

/// Whether what holds on the way is the first argument.
fn holds_first(shape: Shape) -> bool {
    match shape {
        Shape::Until | Shape::Weak => true,
        Shape::Release | Shape::Strong => false,
    }
}

/// Puts the cover of the state into its piece of a node at the end of the list.
fn push_part(
    question: &Question,
    graph: &Graph,
    place: usize,
    made: &Made,
    proofs: &mut Vec<Proof>,
) -> Result<bool, AllocError> {
    let target = piece_place(graph, &made.selected, place);
    push_inside(question.alloc, graph, place, target, proofs)
}

/// Puts the covers that the end is reached at the state at the end of the list.
fn push_done(
    question: &Question,
    graph: &Graph,
    place: usize,
    fixed: &Fixed,
    proofs: &mut Vec<Proof>,
) -> Result<bool, AllocError> {
    if !holds_first(fixed.shape) && !push_part(question, graph, place, &fixed.first, proofs)? {
        return Ok(false);
    }
    push_part(question, graph, place, &fixed.second, proofs)
}

/// Puts what the state owes that goes on at the end of the list.
fn push_going(
    question: &Question,
    graph: &Graph,
    place: usize,
    fixed: &Fixed,
    entered: &Entered,
    proofs: &mut Vec<Proof>,
) -> Result<bool, AllocError> {
    let hold = if holds_first(fixed.shape) {
        &fixed.first
    } else {
        &fixed.second
    };
    if !push_part(question, graph, place, hold, proofs)? {
        return Ok(false);
    }
    if owes_successor(fixed.path, fixed.shape) && !push_successor(question, graph, place, proofs)? {
        return Ok(false);
    }
    push_onward(question, graph, place, fixed.path, entered, proofs)
}

/// Whether a state that goes on owes that some case can be taken.
fn owes_successor(path: Path, shape: Shape) -> bool {
    match path {
        Path::Every => has_falls(shape),
        Path::Any => false,
    }
}

/// The proofs of a fixpoint.
fn fixed_proofs(
    question: &Question,
    graph: &Graph,
    fixed: &Fixed,
    entered: &Entered,
) -> Result<Option<Vec<Proof>>, AllocError> {
    let mut proofs = Vec::new(question.alloc);
    for place in 0..graph.len() {
        if is_set(entered.selected, place) {
            let made = if layer_at(entered.layers, place) == Some(0) {
                push_done(question, graph, place, fixed, &mut proofs)?
            } else {
                push_going(question, graph, place, fixed, entered, &mut proofs)?
            };
            if !made {
                return Ok(None);
            }
        }
    }
    Ok(Some(proofs))
}

/// The node of a fixpoint at the selected states.
pub(crate) fn fixed_node(
    question: &Question,
    graph: &Graph,
    layers: &[Option<u32>],
    selected: Vec<bool>,
    fixed: Fixed,
) -> Result<Option<Made>, AllocError> {
    let entered = Entered {
        selected: &selected,
        layers,
        falls: has_falls(fixed.shape),
    };
    let Some(proofs) = fixed_proofs(question, graph, &fixed, &entered)? else {
        return Ok(None);
    };
    let Fixed {
        path: _,
        shape,
        first,
        second,
    } = fixed;
    let marks = if has_falls(shape) {
        Marks::Ranked
    } else {
        Marks::Ended
    };
    let mut children = Vec::new(question.alloc);
    children.push(first.node)?;
    children.push(second.node)?;
    let parts = Parts { children, proofs };
    Made::new(question, graph, layers, marks, selected, parts)
}

/// The arguments of a fixpoint that its states need: where they go on, and where they are at the end.
#[derive(Drop)]
pub(crate) struct Needed {
    pub first: Vec<bool>,
    pub second: Vec<bool>,
}

/// Which states need the arguments of a fixpoint.
pub(crate) fn needed_of(
    alloc: Global,
    shape: Shape,
    layers: &[Option<u32>],
    selected: &[bool],
) -> Result<Needed, AllocError> {
    let done = with_layer(alloc, selected, layers, true)?;
    if holds_first(shape) {
        let going = with_layer(alloc, selected, layers, false)?;
        return Ok(Needed {
            first: going,
            second: done,
        });
    }
    let all = Vec::from_slice(alloc, selected)?;
    Ok(Needed {
        first: done,
        second: all,
    })
}
