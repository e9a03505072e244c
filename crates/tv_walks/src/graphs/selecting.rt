// Which states a node needs pieces for.

use crate::graphs::graph::{Graph, Step};
use crate::graphs::rule::{is_in, layer_at};
use std::alloc::{AllocError, Global};

/// How a node goes on from a state: by all of its steps, or by one of them.
#[derive(Clone, Copy)]
pub(crate) enum Onward {
    Each,
    One { falls: bool },
}

/// Whether the flag at a place is set.
pub(crate) fn is_set(flags: &[bool], place: usize) -> bool {
    flags.get(place).copied().unwrap_or(false)
}

/// Sets the flag at a place; whether it was not set before.
pub(crate) fn set(flags: &mut Vec<bool>, place: usize) -> bool {
    match flags.get_mut(place) {
        None => false,
        Some(flag) => {
            let was = *flag;
            *flag = true;
            !was
        }
    }
}

/// `count` flags that are not set.
pub(crate) fn unset(alloc: Global, count: usize) -> Result<Vec<bool>, AllocError> {
    let flags = vec![in alloc; false; count]?;
    Ok(flags)
}

/// Whether the step leads into the set, and to a lower layer where that is asked for.
fn is_onward(step: &Step, layers: &[Option<u32>], layer: Option<u32>, falls: bool) -> bool {
    match (layer_at(layers, step.next as usize), layer) {
        (None, _) => false,
        (Some(_), None) => !falls,
        (Some(next), Some(here)) => !falls || next < here,
    }
}

/// The first step of the state that leads into the set, and to a lower layer than this one where that is asked for.
pub(crate) fn step_into<'a>(
    graph: &'a Graph,
    place: usize,
    layers: &[Option<u32>],
    layer: Option<u32>,
    falls: bool,
) -> Option<&'a Step> {
    for step in graph.steps_of(place) {
        if is_onward(step, layers, layer, falls) {
            return Some(step);
        }
    }
    None
}

/// Selects where all steps of the state lead; whether that is new.
fn select_each(graph: &Graph, place: usize, selected: &mut Vec<bool>) -> bool {
    let mut more = false;
    for step in graph.steps_of(place) {
        if set(selected, step.next as usize) {
            more = true;
        }
    }
    more
}

/// Selects where one step of the state leads; whether that is new.
fn select_one(
    graph: &Graph,
    place: usize,
    layers: &[Option<u32>],
    falls: bool,
    selected: &mut Vec<bool>,
) -> bool {
    match step_into(graph, place, layers, layer_at(layers, place), falls) {
        None => false,
        Some(step) => set(selected, step.next as usize),
    }
}

/// Selects where the state goes on; whether that is new.
fn select_onward(
    graph: &Graph,
    place: usize,
    layers: &[Option<u32>],
    onward: Onward,
    selected: &mut Vec<bool>,
) -> bool {
    match onward {
        Onward::Each => select_each(graph, place, selected),
        Onward::One { falls } => select_one(graph, place, layers, falls, selected),
    }
}

/// Selects what selected states that go on lead to, once for each state; whether something was new.
fn select_round(
    graph: &Graph,
    layers: &[Option<u32>],
    onward: Onward,
    selected: &mut Vec<bool>,
) -> bool {
    let mut more = false;
    for place in 0..graph.len() {
        let goes_on = is_set(selected, place) && layer_at(layers, place) != Some(0);
        if goes_on && select_onward(graph, place, layers, onward, selected) {
            more = true;
        }
    }
    more
}

/// Selects all that the selected states lead to while they go on.
pub(crate) fn close(
    graph: &Graph,
    layers: &[Option<u32>],
    onward: Onward,
    selected: &mut Vec<bool>,
) {
    for _ in 0..graph.len() {
        if !select_round(graph, layers, onward, selected) {
            return;
        }
    }
}

/// The states that the selected ones lead to in one step.
pub(crate) fn next_of(
    alloc: Global,
    graph: &Graph,
    layers: &[Option<u32>],
    onward: Onward,
    selected: &[bool],
) -> Result<Vec<bool>, AllocError> {
    let mut next = unset(alloc, graph.len())?;
    for place in 0..graph.len() {
        if is_set(selected, place) {
            select_next(graph, place, layers, onward, &mut next);
        }
    }
    Ok(next)
}

/// Selects where the state leads in one step into the layers, which are not its own.
fn select_next(
    graph: &Graph,
    place: usize,
    layers: &[Option<u32>],
    onward: Onward,
    selected: &mut Vec<bool>,
) {
    match onward {
        Onward::Each => {
            let _ = select_each(graph, place, selected);
        }
        Onward::One { .. } => {
            if let Some(step) = step_into(graph, place, layers, None, false) {
                let _ = set(selected, step.next as usize);
            }
        }
    }
}

/// How many of the selected states before a place are at the location.
pub(crate) fn count_before(graph: &Graph, selected: &[bool], location: u32, end: usize) -> u32 {
    let mut count: u32 = 0;
    for (place, spot) in graph.spots.iter().enumerate() {
        if place < end && spot.location == location && is_set(selected, place) {
            count = count.saturating_add(1);
        }
    }
    count
}

/// The place of the piece of a state among those at its location.
pub(crate) fn piece_place(graph: &Graph, selected: &[bool], place: usize) -> u32 {
    match graph.spots.get(place) {
        None => 0,
        Some(spot) => count_before(graph, selected, spot.location, place),
    }
}

/// The selected states with this layer, or with another one where `same` is false.
pub(crate) fn with_layer(
    alloc: Global,
    selected: &[bool],
    layers: &[Option<u32>],
    same: bool,
) -> Result<Vec<bool>, AllocError> {
    let mut flags = Vec::new(alloc);
    for (place, flag) in selected.iter().enumerate() {
        let done = layer_at(layers, place) == Some(0);
        flags.push(*flag && is_in(layers, place) && done == same)?;
    }
    Ok(flags)
}
