// Graphs of runs that end in a closed walk: single states, and then regions round the walk.

ghost use Rattle.std.specs.Prelude.{◌≡◌, IfOk, IfSome, length};

use crate::cycles::closing::rows_before;
use crate::cycles::way::Way;
use crate::graphs::graph::{Graph, Step};
use crate::graphs::proving::number_row;
use crate::graphs::spot::{Inside, Spot};
use crate::rows::values::{bounded, value_at};
use std::alloc::{AllocError, Global};
use tv_linear::{Row, copies};

/// The bounded value of a term at the values.
fn number_at(term: &Row, values: &[i64]) -> Option<i64> {
    bounded(value_at(term, values, &[])?)
}

/// The values after the way.
fn next_values(alloc: Global, way: &Way, values: &[i64]) -> Result<Option<Vec<i64>>, AllocError> {
    let mut next = Vec::new(alloc);
    for term in &way.terms {
        match number_at(term, values) {
            None => return Ok(None),
            Some(number) => next.push(number)?,
        }
    }
    Ok(Some(next))
}

/// The numbers of the draws at the values, as terms.
fn draws_at(
    alloc: Global,
    columns: usize,
    way: &Way,
    values: &[i64],
) -> Result<Option<Vec<Row>>, AllocError> {
    let mut rows = Vec::new(alloc);
    for draw in &way.draws {
        let Some(number) = number_at(draw, values) else {
            return Ok(None);
        };
        match number_row(alloc, columns, number)? {
            None => return Ok(None),
            Some(row) => rows.push(row)?,
        }
    }
    Ok(Some(rows))
}

/// The next place of a graph, in half the bits.
fn place_after(graph: &Graph) -> u32 {
    match u32::try_from(graph.len()) {
        Ok(place) => place.saturating_add(1),
        Err(_) => 0,
    }
}

/// Puts a place with its one step at the end of the graph.
fn push_spot(alloc: Global, graph: &mut Graph, spot: Spot, step: Step) -> Result<(), AllocError> {
    let mut steps = Vec::new(alloc);
    steps.push(step)?;
    graph.spots.push(spot)?;
    graph.steps.push(steps)?;
    graph.open.push(true)?;
    Ok(())
}

/// Puts the states of a path from these values at the end of the graph; whether no number is too large.
pub(crate) fn push_states(
    alloc: Global,
    graph: &mut Graph,
    ways: &[Way],
    path: &[usize],
    values: &[i64],
) -> Result<bool, AllocError> {
    let mut now = Vec::from_slice(alloc, values)?;
    for place in path {
        let Some(way) = ways.get(*place) else {
            return Ok(false);
        };
        match push_state(alloc, graph, way, now)? {
            None => return Ok(false),
            Some(after) => now = after,
        }
    }
    Ok(true)
}

/// Puts the state with these values, from which the way is taken, at the end of the graph. Gives the values after it; `None` where a number
/// is too large.
fn push_state(
    alloc: Global,
    graph: &mut Graph,
    way: &Way,
    values: Vec<i64>,
) -> Result<Option<Vec<i64>>, AllocError> {
    let Some(draws) = draws_at(alloc, graph.variables, way, &values)? else {
        return Ok(None);
    };
    let Some(after) = next_values(alloc, way, &values)? else {
        return Ok(None);
    };
    let step = Step {
        taken: way.number,
        draws,
        next: place_after(graph),
    };
    let spot = Spot {
        location: way.from,
        inside: Inside::Point(values),
    };
    push_spot(alloc, graph, spot, step)?;
    Ok(Some(after))
}

/// The rows that are met at each place of a closed walk, the last first, where these rows are met at its first.
pub fn regions_of(
    alloc: Global,
    columns: usize,
    ways: &[Way],
    walk: &[usize],
    rows: &[Row],
) -> Result<Option<Vec<Vec<Row>>>, AllocError>
    ensures { IfOk result (λ made. IfSome made (λ regions. length regions.items ≡ length walk.now)) }
{
    let mut regions: Vec<Vec<Row>> = Vec::new(alloc);
    for number in walk.iter().rev() {
        let Some(way) = ways.get(*number) else {
            return Ok(None);
        };
        let after: &[Row] = match regions.last() {
            Some(last) => last,
            None => rows,
        };
        match rows_before(alloc, columns, way, after)? {
            None => return Ok(None),
            Some(before) => regions.push(before)?,
        }
    }
    Ok(Some(regions))
}

/// Puts the region of these rows, from which the way is taken, at the end of the graph.
fn push_region(
    alloc: Global,
    graph: &mut Graph,
    way: &Way,
    rows: Vec<Row>,
    next: u32,
) -> Result<(), AllocError> {
    let step = Step {
        taken: way.number,
        draws: copies(alloc, &way.draws)?,
        next,
    };
    let spot = Spot {
        location: way.from,
        inside: Inside::Region(rows),
    };
    push_spot(alloc, graph, spot, step)
}

/// Puts the regions round the closed walk at the end of the graph, where these rows are met at its first place; whether no row is too wide.
pub(crate) fn push_regions(
    alloc: Global,
    graph: &mut Graph,
    ways: &[Way],
    walk: &[usize],
    rows: &[Row],
) -> Result<bool, AllocError> {
    let Some(mut regions) = regions_of(alloc, graph.variables, ways, walk, rows)? else {
        return Ok(false);
    };
    let first = place_after(graph).saturating_sub(1);
    for (place, number) in walk.iter().enumerate() {
        let (Some(way), Some(region)) = (ways.get(*number), regions.pop()) else {
            return Ok(false);
        };
        let is_last = place + 1 == walk.len();
        let next = if is_last { first } else { place_after(graph) };
        let inside = if place == 0 {
            copies(alloc, rows)?
        } else {
            region
        };
        push_region(alloc, graph, way, inside, next)?;
    }
    Ok(true)
}
