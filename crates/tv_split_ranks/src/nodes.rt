// Nodes of constants, and of formulas that say the same as one of their parts.

use crate::area::{Area, number_among, plain_pieces};
use crate::budget::Spending;
use crate::covers::push_same;
use crate::effect::Steps;
use crate::goal::{has_constant, is_constant};
use std::alloc::{AllocError, Global};
use tv_cert::{Aim, Node, Proof};
use tv_linear::{Cover, CoverTree, Row};
use tv_shape::node_of;

/// A node without pieces for each of the formulas.
#[cycle(empty)]
fn empty_nodes(alloc: Global, parts: &[Aim]) -> Result<Vec<Node>, AllocError> {
    let mut nodes = Vec::new(alloc);
    for part in parts {
        nodes.push(empty_node(alloc, part)?)?;
    }
    Ok(nodes)
}

/// The node of the formula without pieces, which shows nothing.
#[cycle(empty)]
pub(crate) fn empty_node(alloc: Global, aim: &Aim) -> Result<Node, AllocError> {
    let children = match aim {
        Aim::EachOf(parts) => empty_nodes(alloc, parts)?,
        Aim::OneOf(parts) => empty_nodes(alloc, parts)?,
        Aim::After(_, inner) => {
            let mut nodes = Vec::new(alloc);
            nodes.push(empty_node(alloc, inner)?)?;
            nodes
        }
        Aim::Along(_, _, first, second) => {
            let mut nodes = Vec::new(alloc);
            nodes.push(empty_node(alloc, first)?)?;
            nodes.push(empty_node(alloc, second)?)?;
            nodes
        }
        _ => Vec::new(alloc),
    };
    node_of(alloc, Vec::new(alloc), 0, children, Vec::new(alloc))
}

/// The node with these areas as pieces, which go on without ranks; `None` where a row does not fit.
pub(crate) fn plain_node(
    steps: &Steps,
    areas: &[Area],
    children: Vec<Node>,
    proofs: Vec<Proof>,
) -> Result<Option<Node>, AllocError> {
    match plain_pieces(steps.alloc, steps.columns, areas)? {
        None => Ok(None),
        Some(pieces) => Ok(Some(node_of(steps.alloc, pieces, 0, children, proofs)?)),
    }
}

/// The place of the first list without rows.
fn empty_list(lists: &[Vec<Row>]) -> Option<u32> {
    match lists.iter().position(|rows| rows.is_empty()) {
        None => None,
        Some(place) => u32::try_from(place).ok(),
    }
}

/// Puts the cover into a target without rows at the end of the list; whether there is one.
pub(crate) fn push_true(
    alloc: Global,
    target: u32,
    proofs: &mut Vec<Proof>,
) -> Result<bool, AllocError> {
    match Cover::new(CoverTree::Into {
        target,
        fall: 0,
        refutations: Vec::new(alloc),
    }) {
        None => Ok(false),
        Some(cover) => {
            proofs.push(Proof::Covered(cover))?;
            Ok(true)
        }
    }
}

/// The node of lists of rows, one of which has none, with these areas as pieces.
fn true_node(
    steps: &Steps,
    lists: &[Vec<Row>],
    areas: &[Area],
) -> Result<Option<Node>, AllocError> {
    let Some(target) = empty_list(lists) else {
        return Ok(None);
    };
    let mut proofs = Vec::new(steps.alloc);
    for _ in areas {
        if !push_true(steps.alloc, target, &mut proofs)? {
            return Ok(None);
        }
    }
    plain_node(steps, areas, Vec::new(steps.alloc), proofs)
}

/// For each of the areas covers by the areas of the same rows, `count` times; `None` where one was not found.
fn same_proofs(
    steps: &Steps,
    areas: &[Area],
    count: usize,
    spending: &mut Spending,
) -> Result<Option<Vec<Proof>>, AllocError> {
    let mut proofs = Vec::new(steps.alloc);
    for (at, area) in areas.iter().enumerate() {
        let number = number_among(areas, at);
        for _ in 0..count {
            if !push_same(
                steps.alloc,
                steps.columns,
                area,
                number,
                spending,
                &mut proofs,
            )? {
                return Ok(None);
            }
        }
    }
    Ok(Some(proofs))
}

/// The node over these children, each of whose pieces, if it has any, are these areas; a proof is owed for each area `count` times.
fn node_above(
    steps: &Steps,
    areas: &[Area],
    children: Vec<Node>,
    count: usize,
    spending: &mut Spending,
) -> Result<Option<Node>, AllocError> {
    match same_proofs(steps, areas, count, spending)? {
        None => Ok(None),
        Some(proofs) => plain_node(steps, areas, children, proofs),
    }
}

/// Whether the formula is one that holds: one that is true by its constants, if some are, and else one that is not false by them.
fn may_hold(aim: &Aim, some_are_true: bool) -> bool {
    if some_are_true {
        is_constant(aim, true)
    } else {
        !is_constant(aim, false)
    }
}

/// A node for each of the formulas, with these areas as pieces; `None` where one was not found.
#[cycle(above)]
fn nodes_over(
    steps: &Steps,
    parts: &[Aim],
    areas: &[Area],
    inner: &mut Option<Node>,
    spending: &mut Spending,
) -> Result<Option<Vec<Node>>, AllocError> {
    let mut nodes = Vec::new(steps.alloc);
    for part in parts {
        match node_over(steps, part, areas, inner, spending)? {
            None => return Ok(None),
            Some(node) => nodes.push(node)?,
        }
    }
    Ok(Some(nodes))
}

/// A node for each of the formulas, where the first that holds alone has pieces; `None` where it was not found.
#[cycle(above)]
fn nodes_beside(
    steps: &Steps,
    parts: &[Aim],
    areas: &[Area],
    inner: &mut Option<Node>,
    spending: &mut Spending,
) -> Result<Option<Vec<Node>>, AllocError> {
    let some_are_true = has_constant(parts, true);
    let mut is_shown = false;
    let mut nodes = Vec::new(steps.alloc);
    for part in parts {
        if is_shown || !may_hold(part, some_are_true) {
            nodes.push(empty_node(steps.alloc, part)?)?;
            continue;
        }
        match node_over(steps, part, areas, inner, spending)? {
            None => return Ok(None),
            Some(node) => {
                nodes.push(node)?;
                is_shown = true;
            }
        }
    }
    Ok(Some(nodes))
}

/// The node of the formula with these areas as pieces: the inner node itself, where the formula is that of the inner node, and else one above
/// it; of a formula that is true by its constants it needs none. `None` where it was not found.
#[cycle(above)]
pub(crate) fn node_over(
    steps: &Steps,
    aim: &Aim,
    areas: &[Area],
    inner: &mut Option<Node>,
    spending: &mut Spending,
) -> Result<Option<Node>, AllocError> {
    match aim {
        Aim::Rows(lists) => true_node(steps, lists, areas),
        Aim::EachOf(parts) => match nodes_over(steps, parts, areas, inner, spending)? {
            None => Ok(None),
            Some(nodes) => {
                let count = nodes.len();
                node_above(steps, areas, nodes, count, spending)
            }
        },
        Aim::OneOf(parts) => match nodes_beside(steps, parts, areas, inner, spending)? {
            None => Ok(None),
            Some(nodes) => node_above(steps, areas, nodes, 1, spending),
        },
        _ => Ok(inner.take()),
    }
}
