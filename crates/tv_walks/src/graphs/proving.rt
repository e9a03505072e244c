// Covers at the pieces of a graph: each is one leaf.

ghost use Rattle.std.specs.Prelude.{◌≡◌, IfOk, IfSome, length};

use crate::graphs::expanding::is_without_draws;
use crate::graphs::graph::{Graph, Step};
use crate::graphs::holding::met_list;
use crate::graphs::lines::{Known, plain_line, push_next_lines, refuting_line};
use crate::graphs::rule::layer_at;
use crate::graphs::selecting::piece_place;
use crate::graphs::spot::Spot;
use crate::question::Question;
use crate::rows::values::is_met_at;
use std::alloc::{AllocError, Global};
use tv_cases::Case;
use tv_cert::Proof;
use tv_linear::{Cover, CoverTree, Row};

/// The pieces that a step enters: the states selected, their layers, and whether a fall of the ranks is owed.
#[derive(Drop)]
pub(crate) struct Entered<'a> {
    pub selected: &'a [bool],
    pub layers: &'a [Option<u32>],
    pub falls: bool,
}

/// The cover into a target by these lines.
fn covered(target: u32, fall: u32, lines: Vec<Vec<i64>>) -> Option<Proof> {
    let cover = Cover::new(CoverTree::Into {
        target,
        fall,
        refutations: lines,
    })?;
    Some(Proof::Covered(cover))
}

/// Puts the proof at the end of the list, where there is one; whether there is.
pub(crate) fn push_proof(
    proofs: &mut Vec<Proof>,
    proof: Option<Proof>,
) -> Result<bool, AllocError> {
    match proof {
        None => Ok(false),
        Some(proof) => {
            proofs.push(proof)?;
            Ok(true)
        }
    }
}

/// Puts the cover that a spot is in its own piece of a node, at this place among those at its location, at the end of the list.
pub(crate) fn push_inside(
    alloc: Global,
    graph: &Graph,
    place: usize,
    target: u32,
    proofs: &mut Vec<Proof>,
) -> Result<bool, AllocError> {
    let Some(spot) = graph.spots.get(place) else {
        return Ok(false);
    };
    let mut lines = Vec::new(alloc);
    if !spot.push_own(alloc, graph.variables, &mut lines)? {
        return Ok(false);
    }
    push_proof(proofs, covered(target, 0, lines))
}

/// Puts the cover that the states of the spot meet one of the lists of rows at the end of the list.
pub(crate) fn push_rows_met(
    alloc: Global,
    variables: usize,
    lists: &[Vec<Row>],
    spot: &Spot,
    proofs: &mut Vec<Proof>,
) -> Result<bool, AllocError> {
    let Some(target) = met_list(alloc, variables, lists, spot)? else {
        return Ok(false);
    };
    let Some(rows) = lists.get(target) else {
        return Ok(false);
    };
    let Ok(target) = u32::try_from(target) else {
        return Ok(false);
    };
    let mut lines = Vec::new(alloc);
    if !spot.push_lines(alloc, variables, rows, &mut lines)? {
        return Ok(false);
    }
    push_proof(proofs, covered(target, 0, lines))
}

/// Puts the cover of a true test without rows at the end of the list.
pub(crate) fn push_true(alloc: Global, proofs: &mut Vec<Proof>) -> Result<bool, AllocError> {
    push_proof(proofs, covered(0, 0, Vec::new(alloc)))
}

/// The place of the first guard in which no draw has a part and that the values do not meet.
fn unmet_guard(case: &Case, values: &[i64]) -> Option<usize> {
    for (place, guard) in case.guards.rows.iter().enumerate() {
        if is_without_draws(guard, values.len()) && !is_met_at(guard, values, &[]) {
            return Some(place);
        }
    }
    None
}

/// The cover that the case cannot be taken at the values, where a guard shows it.
pub(crate) fn barred_cover(
    alloc: Global,
    case: &Case,
    values: &[i64],
) -> Result<Option<Cover>, AllocError> {
    let known = Known {
        variables: values.len(),
        guards: case.guards.rows.len(),
    };
    let Some(place) = unmet_guard(case, values) else {
        return Ok(None);
    };
    let Some(guard) = case.guards.rows.get(place) else {
        return Ok(None);
    };
    let line = refuting_line(alloc, known, guard, place)?;
    Ok(Cover::new(CoverTree::Empty(line)))
}

/// The fall that is owed on entering a state of this layer.
pub(crate) fn fall_into(entered: &Entered, next: usize) -> u32 {
    if entered.falls && layer_at(entered.layers, next) != Some(0) {
        1
    } else {
        0
    }
}

/// Puts the lines of the rows and of the fall that are owed after the case at the end of the list.
pub(crate) fn push_entering(
    alloc: Global,
    known: Known,
    case: &Case,
    fall: u32,
    lines: &mut Vec<Vec<i64>>,
) -> Result<(), AllocError> {
    push_next_lines(alloc, known, case, lines)?;
    let count = known
        .variables
        .saturating_mul(2)
        .saturating_add(known.guards);
    push_falls(alloc, count, fall, lines)
}

/// Puts the lines of the fall from a layer to a lower one, where one is owed, at the end of the list; `known` counts the known rows.
pub(crate) fn push_falls(
    alloc: Global,
    known: usize,
    fall: u32,
    lines: &mut Vec<Vec<i64>>,
) -> Result<(), AllocError> {
    if fall == 1 {
        lines.push(plain_line(alloc, known)?)?;
        lines.push(plain_line(alloc, known)?)?;
    }
    Ok(())
}

/// The step of the state by the case of this number.
fn step_by(steps: &[Step], number: u32) -> Option<&Step> {
    for step in steps {
        if step.taken == number {
            return Some(step);
        }
    }
    None
}

/// The cover of a step by a case that leads to one state.
fn step_cover(
    alloc: Global,
    graph: &Graph,
    case: &Case,
    values: &[i64],
    next: usize,
    entered: &Entered,
) -> Result<Option<Cover>, AllocError> {
    let known = Known {
        variables: values.len(),
        guards: case.guards.rows.len(),
    };
    let fall = fall_into(entered, next);
    let mut lines = Vec::new(alloc);
    push_entering(alloc, known, case, fall, &mut lines)?;
    Ok(Cover::new(CoverTree::Into {
        target: piece_place(graph, entered.selected, next),
        fall,
        refutations: lines,
    }))
}

/// The cover of the case at the state at this place: it cannot be taken, or it leads to the one state.
fn case_cover(
    alloc: Global,
    graph: &Graph,
    place: usize,
    number: u32,
    case: &Case,
    entered: &Entered,
) -> Result<Option<Cover>, AllocError> {
    let Some(values) = graph.values_at(place) else {
        return Ok(None);
    };
    match barred_cover(alloc, case, values)? {
        Some(cover) => Ok(Some(cover)),
        None => match step_by(graph.steps_of(place), number) {
            None => Ok(None),
            Some(step) => step_cover(alloc, graph, case, values, step.next as usize, entered),
        },
    }
}

/// Puts a cover for each case from the state at this place at the end of the list.
pub(crate) fn push_steps(
    question: &Question,
    graph: &Graph,
    place: usize,
    entered: &Entered,
    proofs: &mut Vec<Proof>,
) -> Result<bool, AllocError> {
    for (number, case) in question.about.list().iter().enumerate() {
        if graph.is_at(place, case.from) {
            match case_cover(question.alloc, graph, place, number as u32, case, entered)? {
                None => return Ok(false),
                Some(cover) => proofs.push(Proof::Covered(cover))?,
            }
        }
    }
    Ok(true)
}

/// The row of a number over `variables` variables.
pub fn number_row(alloc: Global, variables: usize, number: i64) -> Result<Option<Row>, AllocError>
    ensures { IfOk result (λ made. IfSome made (λ row. length row.coefficients ≡ variables)) }
{
    let zeros = vec![in alloc; 0; variables]?;
    if zeros.len() >= 1 << 31 {
        return Ok(None);
    }
    Row::new(alloc, &zeros, i128::from(number))
}

/// The draws of a step as terms.
pub(crate) fn draw_rows(
    alloc: Global,
    variables: usize,
    draws: &[i64],
) -> Result<Option<Vec<Row>>, AllocError> {
    let mut rows = Vec::new(alloc);
    for draw in draws {
        match number_row(alloc, variables, *draw)? {
            None => return Ok(None),
            Some(row) => rows.push(row)?,
        }
    }
    Ok(Some(rows))
}
