// Nodes of the formulas that hold in a graph.

use crate::graphs::choosing::{push_choice, push_no_step};
use crate::graphs::fixed::{Fixed, Needed, fixed_node, has_falls, needed_of};
use crate::graphs::graph::Graph;
use crate::graphs::holding::{Holding, first_with};
use crate::graphs::made::{Made, Marks, Parts};
use crate::graphs::proving::{Entered, push_inside, push_rows_met, push_steps, push_true};
use crate::graphs::rule::layer_at;
use crate::graphs::selecting::{
    Onward, close, count_before, is_set, next_of, piece_place, step_into,
};
use crate::graphs::spot::Spot;
use crate::question::Question;
use std::alloc::{AllocError, Global};
use tv_cert::{Aim, Node, Proof};
use tv_formula::{Path, Shape};

/// Puts the proof of a formula without arguments at the spot at the end of the list.
fn push_plain(
    alloc: Global,
    variables: usize,
    aim: &Aim,
    spot: &Spot,
    proofs: &mut Vec<Proof>,
) -> Result<bool, AllocError> {
    match aim {
        Aim::Rows(lists) => push_rows_met(alloc, variables, lists, spot, proofs),
        _ => push_true(alloc, proofs),
    }
}

/// The node of a formula without arguments at these states.
fn plain(
    question: &Question,
    graph: &Graph,
    aim: &Aim,
    selected: Vec<bool>,
) -> Result<Option<Made>, AllocError> {
    let mut proofs = Vec::new(question.alloc);
    for (place, spot) in graph.spots.iter().enumerate() {
        if is_set(&selected, place)
            && !push_plain(question.alloc, graph.variables, aim, spot, &mut proofs)?
        {
            return Ok(None);
        }
    }
    let children = Vec::new(question.alloc);
    let parts = Parts { children, proofs };
    Made::new(question, graph, &[], Marks::Plain, selected, parts)
}

/// The nodes that were made.
fn nodes_of(alloc: Global, list: Vec<Made>) -> Result<Vec<Node>, AllocError> {
    let mut nodes = Vec::new(alloc);
    for made in list {
        let Made { node, selected: _ } = made;
        nodes.push(node)?;
    }
    Ok(nodes)
}

/// Puts a cover of the state into its piece of each of the nodes at the end of the list.
fn push_each(
    question: &Question,
    graph: &Graph,
    place: usize,
    list: &[Made],
    proofs: &mut Vec<Proof>,
) -> Result<bool, AllocError> {
    for made in list {
        let target = piece_place(graph, &made.selected, place);
        if !push_inside(question.alloc, graph, place, target, proofs)? {
            return Ok(false);
        }
    }
    Ok(true)
}

/// The place of the state's piece of the node of this number among those of all nodes at its location.
fn joined_place(graph: &Graph, place: usize, list: &[Made], number: usize) -> Option<u32> {
    let spot = graph.spots.get(place)?;
    let mut before: u32 = 0;
    for (other, made) in list.iter().enumerate() {
        if other < number {
            let count = count_before(graph, &made.selected, spot.location, graph.len());
            before = before.saturating_add(count);
        }
    }
    let made = list.get(number)?;
    before.checked_add(piece_place(graph, &made.selected, place))
}

/// Puts the cover of the state into its piece of the first node that has one at the end of the list.
fn push_one(
    question: &Question,
    graph: &Graph,
    place: usize,
    holdings: &[Holding],
    list: &[Made],
    proofs: &mut Vec<Proof>,
) -> Result<bool, AllocError> {
    let Some(number) = first_with(holdings, place) else {
        return Ok(false);
    };
    match joined_place(graph, place, list, number) {
        None => Ok(false),
        Some(target) => push_inside(question.alloc, graph, place, target, proofs),
    }
}

/// The node of formulas that all hold at these states.
fn each_of(
    question: &Question,
    graph: &Graph,
    selected: Vec<bool>,
    list: Vec<Made>,
) -> Result<Option<Made>, AllocError> {
    let mut proofs = Vec::new(question.alloc);
    for place in 0..graph.len() {
        if is_set(&selected, place) && !push_each(question, graph, place, &list, &mut proofs)? {
            return Ok(None);
        }
    }
    let children = nodes_of(question.alloc, list)?;
    let parts = Parts { children, proofs };
    Made::new(question, graph, &[], Marks::Plain, selected, parts)
}

/// The node of formulas where one of them holds at each of these states.
fn one_of(
    question: &Question,
    graph: &Graph,
    holdings: &[Holding],
    selected: Vec<bool>,
    list: Vec<Made>,
) -> Result<Option<Made>, AllocError> {
    let mut proofs = Vec::new(question.alloc);
    for place in 0..graph.len() {
        if is_set(&selected, place)
            && !push_one(question, graph, place, holdings, &list, &mut proofs)?
        {
            return Ok(None);
        }
    }
    let children = nodes_of(question.alloc, list)?;
    let parts = Parts { children, proofs };
    Made::new(question, graph, &[], Marks::Plain, selected, parts)
}

/// The selected states at which this formula is the first that holds.
fn first_at(
    alloc: Global,
    holdings: &[Holding],
    number: usize,
    selected: &[bool],
) -> Result<Vec<bool>, AllocError> {
    let mut flags = Vec::new(alloc);
    for (place, flag) in selected.iter().enumerate() {
        flags.push(*flag && first_with(holdings, place) == Some(number))?;
    }
    Ok(flags)
}

/// Puts what the state owes where a step of each case, or of one, leads into the pieces that are entered, at the end of the list.
pub(crate) fn push_onward(
    question: &Question,
    graph: &Graph,
    place: usize,
    path: Path,
    entered: &Entered,
    proofs: &mut Vec<Proof>,
) -> Result<bool, AllocError> {
    match path {
        Path::Every => push_steps(question, graph, place, entered, proofs),
        Path::Any => {
            let layer = if entered.falls {
                layer_at(entered.layers, place)
            } else {
                None
            };
            match step_into(graph, place, entered.layers, layer, entered.falls) {
                Some(step) => push_choice(question, graph, place, step, entered, proofs),
                None => push_no_step(question, graph, place, proofs),
            }
        }
    }
}

/// How a node goes on by these paths.
fn onward_by(path: Path, falls: bool) -> Onward {
    match path {
        Path::Every => Onward::Each,
        Path::Any => Onward::One { falls },
    }
}

/// The node of what holds at the states after a step.
fn after(
    question: &Question,
    graph: &Graph,
    path: Path,
    inner: &[Option<u32>],
    selected: Vec<bool>,
    made: Made,
) -> Result<Option<Made>, AllocError> {
    let mut proofs = Vec::new(question.alloc);
    let entered = Entered {
        selected: &made.selected,
        layers: inner,
        falls: false,
    };
    for place in 0..graph.len() {
        if is_set(&selected, place)
            && !push_onward(question, graph, place, path, &entered, &mut proofs)?
        {
            return Ok(None);
        }
    }
    let mut children = Vec::new(question.alloc);
    children.push(made.node)?;
    let parts = Parts { children, proofs };
    Made::new(question, graph, &[], Marks::Plain, selected, parts)
}

/// The node of `term` or its negation at these states.
fn endings(
    question: &Question,
    graph: &Graph,
    path: Path,
    layers: &[Option<u32>],
    mut selected: Vec<bool>,
) -> Result<Option<Made>, AllocError> {
    let falls = matches!(path, Path::Every);
    close(graph, layers, onward_by(path, falls), &mut selected);
    let entered = Entered {
        selected: &selected,
        layers,
        falls,
    };
    let mut proofs = Vec::new(question.alloc);
    for place in 0..graph.len() {
        if is_set(&selected, place)
            && !push_onward(question, graph, place, path, &entered, &mut proofs)?
        {
            return Ok(None);
        }
    }
    let children = Vec::new(question.alloc);
    let parts = Parts { children, proofs };
    let marks = if falls { Marks::Ranked } else { Marks::Ended };
    Made::new(question, graph, layers, marks, selected, parts)
}

/// The states of a fixpoint and of what follows them, and those at which its arguments are needed.
fn needed_along(
    question: &Question,
    graph: &Graph,
    path: Path,
    shape: Shape,
    layers: &[Option<u32>],
    mut selected: Vec<bool>,
) -> Result<(Vec<bool>, Needed), AllocError> {
    let onward = onward_by(path, has_falls(shape));
    close(graph, layers, onward, &mut selected);
    let needed = needed_of(question.alloc, shape, layers, &selected)?;
    Ok((selected, needed))
}

/// The node that shows that the formula holds at these states, where it does; `None` where a part of it is too large.
#[cycle(nodes)]
pub(crate) fn made_of(
    question: &Question,
    graph: &Graph,
    aim: &Aim,
    holding: &Holding,
    selected: Vec<bool>,
) -> Result<Option<Made>, AllocError> {
    let layers: &[Option<u32>] = &holding.layers;
    match aim {
        Aim::EachOf(parts) => each_made(question, graph, parts, &holding.parts, selected),
        Aim::OneOf(parts) => first_made(question, graph, parts, &holding.parts, selected),
        Aim::After(path, inner) => {
            let Some(part) = holding.parts.first() else {
                return Ok(None);
            };
            let onward = onward_by(*path, false);
            let next = next_of(question.alloc, graph, &part.layers, onward, &selected)?;
            let Some(made) = made_of(question, graph, inner, part, next)? else {
                return Ok(None);
            };
            after(question, graph, *path, &part.layers, selected, made)
        }
        Aim::Along(path, shape, first, second) => {
            let [first_part, second_part] = holding.parts.as_slice() else {
                return Ok(None);
            };
            let (all, needed) = needed_along(question, graph, *path, *shape, layers, selected)?;
            let Some(first) = made_of(question, graph, first, first_part, needed.first)? else {
                return Ok(None);
            };
            let Some(second) = made_of(question, graph, second, second_part, needed.second)? else {
                return Ok(None);
            };
            let fixed = Fixed {
                path: *path,
                shape: *shape,
                first,
                second,
            };
            fixed_node(question, graph, layers, all, fixed)
        }
        Aim::Ends => endings(question, graph, Path::Every, layers, selected),
        Aim::NeverEnds => endings(question, graph, Path::Any, layers, selected),
        _ => plain(question, graph, aim, selected),
    }
}

/// The node of formulas that all hold at these states.
#[cycle(nodes)]
fn each_made(
    question: &Question,
    graph: &Graph,
    aims: &[Aim],
    holdings: &[Holding],
    selected: Vec<bool>,
) -> Result<Option<Made>, AllocError> {
    let mut list = Vec::new(question.alloc);
    for (aim, holding) in aims.iter().zip(holdings) {
        let flags = Vec::from_slice(question.alloc, &selected)?;
        match made_of(question, graph, aim, holding, flags)? {
            None => return Ok(None),
            Some(made) => list.push(made)?,
        }
    }
    each_of(question, graph, selected, list)
}

/// The node of formulas where one of them holds at each of these states. The first that does shows it.
#[cycle(nodes)]
fn first_made(
    question: &Question,
    graph: &Graph,
    aims: &[Aim],
    holdings: &[Holding],
    selected: Vec<bool>,
) -> Result<Option<Made>, AllocError> {
    let mut list = Vec::new(question.alloc);
    for (number, (aim, holding)) in aims.iter().zip(holdings).enumerate() {
        let flags = first_at(question.alloc, holdings, number, &selected)?;
        match made_of(question, graph, aim, holding, flags)? {
            None => return Ok(None),
            Some(made) => list.push(made)?,
        }
    }
    one_of(question, graph, holdings, selected, list)
}
