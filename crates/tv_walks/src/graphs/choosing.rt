// Choices at the pieces of a graph: each is one leaf.

use crate::cycles::way::{Way, way_of};
use crate::graphs::graph::{Graph, Step};
use crate::graphs::lines::Known;
use crate::graphs::proving::{
    Entered, barred_cover, fall_into, push_entering, push_falls, push_proof,
};
use crate::graphs::selecting::piece_place;
use crate::graphs::spot::Spot;
use crate::question::Question;
use crate::rows::combining::all_put_in;
use std::alloc::{AllocError, Global};
use tv_cert::Proof;
use tv_linear::{Choice, ChoiceTree, Cover, Row, copies};

/// A step that is taken from a spot into another.
#[derive(Drop)]
struct Taking<'a> {
    from: &'a Spot,
    into: &'a Spot,
    step: &'a Step,
    /// The place of the target among the pieces at its location.
    target: u32,
    fall: u32,
}

/// The choice that takes the step into a target by these lines.
fn taken(
    alloc: Global,
    step: &Step,
    target: u32,
    fall: u32,
    lines: Vec<Vec<i64>>,
) -> Result<Option<Proof>, AllocError> {
    let tree = ChoiceTree::Take {
        taken: step.taken,
        target,
        fall,
        draws: copies(alloc, &step.draws)?,
        refutations: lines,
    };
    match Choice::new(tree) {
        None => Ok(None),
        Some(choice) => Ok(Some(Proof::Chosen(choice))),
    }
}

/// The way of the step: its case with the terms of its draws.
fn way_by(question: &Question, step: &Step) -> Result<Option<Way>, AllocError> {
    let columns = question.about.variables() as usize;
    let Some(case) = question.about.list().get(step.taken as usize) else {
        return Ok(None);
    };
    let draws = copies(question.alloc, &step.draws)?;
    way_of(question.alloc, columns, step.taken, case, draws)
}

/// Puts the choice that some step can be taken, wherever it leads, at the end of the list.
pub(crate) fn push_successor(
    question: &Question,
    graph: &Graph,
    place: usize,
    proofs: &mut Vec<Proof>,
) -> Result<bool, AllocError> {
    let (Some(step), Some(spot)) = (graph.steps_of(place).first(), graph.spots.get(place)) else {
        return Ok(false);
    };
    let Some(way) = way_by(question, step)? else {
        return Ok(false);
    };
    let mut lines = Vec::new(question.alloc);
    if !spot.push_lines(question.alloc, graph.variables, &way.guards, &mut lines)? {
        return Ok(false);
    }
    let proof = taken(question.alloc, step, 0, 0, lines)?;
    push_proof(proofs, proof)
}

/// Puts the lines of the rows of the spot that is entered at the end of the list; whether all are shown.
fn push_target(
    question: &Question,
    taking: &Taking,
    way: &Way,
    lines: &mut Vec<Vec<i64>>,
) -> Result<bool, AllocError> {
    let columns = question.about.variables() as usize;
    let Some(rows) = rows_entered(question, taking.into, way)? else {
        return Ok(false);
    };
    if !taking
        .from
        .push_lines(question.alloc, columns, &rows, lines)?
    {
        return Ok(false);
    }
    push_falls(question.alloc, taking.from.row_count(), taking.fall, lines)?;
    Ok(true)
}

/// The rows of the spot that is entered, read before the way; `None` where one is too wide.
fn rows_entered(
    question: &Question,
    into: &Spot,
    way: &Way,
) -> Result<Option<Vec<Row>>, AllocError> {
    let columns = question.about.variables() as usize;
    match into.rows(question.alloc)? {
        None => Ok(None),
        Some(rows) => all_put_in(question.alloc, columns, &rows, &way.terms),
    }
}

/// Puts the same of a step from a state to another at the end of the list.
fn push_point_target(
    question: &Question,
    taking: &Taking,
    variables: usize,
    lines: &mut Vec<Vec<i64>>,
) -> Result<bool, AllocError> {
    let Some(case) = question.about.list().get(taking.step.taken as usize) else {
        return Ok(false);
    };
    let known = Known {
        variables,
        guards: 0,
    };
    push_entering(question.alloc, known, case, taking.fall, lines)?;
    Ok(true)
}

/// Puts the choice of the step at the end of the list.
fn push_taking(
    question: &Question,
    taking: &Taking,
    proofs: &mut Vec<Proof>,
) -> Result<bool, AllocError> {
    match lines_of(question, taking)? {
        None => Ok(false),
        Some(lines) => {
            let (target, fall) = (taking.target, taking.fall);
            let proof = taken(question.alloc, taking.step, target, fall, lines)?;
            push_proof(proofs, proof)
        }
    }
}

/// The lines of the guards and of the rows of the spot that is entered; `None` where one is not shown.
fn lines_of(question: &Question, taking: &Taking) -> Result<Option<Vec<Vec<i64>>>, AllocError> {
    let alloc = question.alloc;
    let columns = question.about.variables() as usize;
    let Some(way) = way_by(question, taking.step)? else {
        return Ok(None);
    };
    let mut lines = Vec::new(alloc);
    let are_points = taking.from.is_point() && taking.into.is_point();
    let shown = taking
        .from
        .push_lines(alloc, columns, &way.guards, &mut lines)?
        && if are_points {
            push_point_target(question, taking, columns, &mut lines)?
        } else {
            push_target(question, taking, &way, &mut lines)?
        };
    Ok(if shown { Some(lines) } else { None })
}

/// Puts the choice of the step from this place into the pieces that are entered at the end of the list.
pub(crate) fn push_choice(
    question: &Question,
    graph: &Graph,
    place: usize,
    step: &Step,
    entered: &Entered,
    proofs: &mut Vec<Proof>,
) -> Result<bool, AllocError> {
    let next = step.next as usize;
    let (Some(from), Some(into)) = (graph.spots.get(place), graph.spots.get(next)) else {
        return Ok(false);
    };
    let taking = Taking {
        from,
        into,
        step,
        target: piece_place(graph, entered.selected, next),
        fall: fall_into(entered, next),
    };
    push_taking(question, &taking, proofs)
}

/// The covers that no case can be taken at the state at this place.
fn barred_covers(
    question: &Question,
    graph: &Graph,
    place: usize,
) -> Result<Option<Vec<Cover>>, AllocError> {
    let mut covers = Vec::new(question.alloc);
    let Some(values) = graph.values_at(place) else {
        return Ok(None);
    };
    for case in question.about.list() {
        if graph.is_at(place, case.from) {
            match barred_cover(question.alloc, case, values)? {
                None => return Ok(None),
                Some(cover) => covers.push(cover)?,
            }
        }
    }
    Ok(Some(covers))
}

/// Puts the choice that there is no step at the end of the list.
pub(crate) fn push_no_step(
    question: &Question,
    graph: &Graph,
    place: usize,
    proofs: &mut Vec<Proof>,
) -> Result<bool, AllocError> {
    match barred_covers(question, graph, place)? {
        None => Ok(false),
        Some(covers) => match Choice::new(ChoiceTree::NoStep(covers)) {
            None => Ok(false),
            Some(choice) => push_proof(proofs, Some(Proof::Chosen(choice))),
        },
    }
}
