// Closed cycles inside of the hold side of a fixpoint that may go on for ever.

use crate::areas::area::{Area, place_among};
use crate::areas::covers::cover_into;
use crate::areas::sides::Sides;
use crate::formulas::found::Found;
use crate::limits::{AREAS, TRIED_CYCLE_CALLS, TRIED_CYCLES};
use crate::strategies::link::{distinct_ways, owed_into};
use std::alloc::{AllocError, Global};
use tv_cert::Proof;
use tv_linear::{Choice, ChoiceTree, Row, copies};
use tv_walks::{Effort, Question, Way, all_shown_by, closed, closed_walks, regions_of};

/// The same way, where these rows are asked of the values before it besides.
fn way_inside(alloc: Global, way: &Way, rows: &[Row]) -> Result<Way, AllocError> {
    Ok(Way {
        number: way.number,
        from: way.from,
        to: way.to,
        draws: copies(alloc, &way.draws)?,
        guards: copies(alloc, &way.guards)?,
        conditions: copies(alloc, rows)?,
        terms: copies(alloc, &way.terms)?,
    })
}

/// Puts the ways from the area at the end of the list.
fn push_ways_from(
    alloc: Global,
    area: &Area,
    all: &[Way],
    ways: &mut Vec<Way>,
) -> Result<(), AllocError> {
    for way in all {
        if way.from == area.location {
            ways.push(way_inside(alloc, way, &area.rows)?)?;
        }
    }
    Ok(())
}

/// The ways from the areas.
fn ways_inside(question: &Question, areas: &[Area]) -> Result<Vec<Way>, AllocError> {
    let all = distinct_ways(question)?;
    let mut ways = Vec::new(question.alloc);
    for area in areas {
        push_ways_from(question.alloc, area, &all, &mut ways)?;
    }
    Ok(ways)
}

/// A cycle that can be gone through again and again: the areas on it, and the way that is taken from each.
#[derive(Drop)]
struct Cycle<'a> {
    areas: Vec<Area>,
    ways: Vec<&'a Way>,
}

/// The areas of a closed walk, whose first one has these rows.
fn cycle_of<'a>(
    alloc: Global,
    columns: usize,
    ways: &'a [Way],
    walk: &[usize],
    rows: Vec<Row>,
) -> Result<Option<Cycle<'a>>, AllocError> {
    let Some(mut regions) = regions_of(alloc, columns, ways, walk, &rows)? else {
        return Ok(None);
    };
    let mut cycle = Cycle {
        areas: Vec::new(alloc),
        ways: Vec::new(alloc),
    };
    let mut first = Some(rows);
    for number in walk {
        let (Some(way), Some(region)) = (ways.get(*number), regions.pop()) else {
            return Ok(None);
        };
        let rows = match first.take() {
            Some(rows) => rows,
            None => region,
        };
        let location = way.from;
        cycle.areas.push(Area { location, rows })?;
        cycle.ways.push(way)?;
    }
    Ok(Some(cycle))
}

/// The choice that takes the way from the one area into the other, which is the target of this number.
fn choice_into(
    question: &Question,
    from: &Area,
    way: &Way,
    to: &Area,
    target: u32,
    effort: &mut Effort,
) -> Result<Option<Choice>, AllocError> {
    let alloc = question.alloc;
    let columns = question.about.variables() as usize;
    let Some(owed) = owed_into(alloc, columns, way, to)? else {
        return Ok(None);
    };
    let Some(refutations) = all_shown_by(alloc, &from.rows, &owed, columns, effort)? else {
        return Ok(None);
    };
    Ok(Choice::new(ChoiceTree::Take {
        taken: way.number,
        target,
        fall: 0,
        draws: copies(alloc, &way.draws)?,
        refutations,
    }))
}

/// The number of an area of the cycle as a target, where its areas stand after others.
fn target_of(known: &[Area], cycle: &Cycle, place: usize) -> u32 {
    let Some(area) = cycle.areas.get(place) else {
        return 0;
    };
    let mut number = place_among(&cycle.areas, place);
    for other in known {
        if other.location == area.location {
            number = number.saturating_add(1);
        }
    }
    number
}

/// The proofs of a cycle whose areas stand after the known ones; `None` where one was not found.
fn proofs_of(
    question: &Question,
    sides: &Sides,
    known: &[Area],
    cycle: &Cycle,
    effort: &mut Effort,
) -> Result<Option<Vec<Proof>>, AllocError> {
    let mut proofs = Vec::new(question.alloc);
    for (place, area) in cycle.areas.iter().enumerate() {
        if !sides.push_hold(question, area, effort, &mut proofs)? {
            return Ok(None);
        }
        match choice_after(question, known, cycle, place, effort)? {
            None => return Ok(None),
            Some(choice) => proofs.push(Proof::Chosen(choice))?,
        }
    }
    Ok(Some(proofs))
}

/// The choice that takes the way from the area of the cycle at this place into the next one.
fn choice_after(
    question: &Question,
    known: &[Area],
    cycle: &Cycle,
    place: usize,
    effort: &mut Effort,
) -> Result<Option<Choice>, AllocError> {
    let after = place.saturating_add(1);
    let next = if after < cycle.areas.len() { after } else { 0 };
    let target = target_of(known, cycle, next);
    match (
        cycle.areas.get(place),
        cycle.ways.get(place),
        cycle.areas.get(next),
    ) {
        (Some(area), Some(way), Some(to)) => {
            choice_into(question, area, way, to, target, effort)
        }
        _ => Ok(None),
    }
}

/// Whether the first area of the cycle lies in the areas.
fn is_known(
    question: &Question,
    known: &[Area],
    cycle: &Cycle,
    effort: &mut Effort,
) -> Result<bool, AllocError> {
    let columns = question.about.variables() as usize;
    match cycle.areas.first() {
        None => Ok(true),
        Some(area) => {
            let location = area.location;
            let cover = cover_into(question.alloc, columns, &area.rows, known, location, effort)?;
            Ok(cover.is_some())
        }
    }
}

/// Adds the cycle to what was found, unless it is known or there are too many areas.
fn add_cycle(
    question: &Question,
    sides: &Sides,
    cycle: Cycle,
    found: &mut Found,
    effort: &mut Effort,
) -> Result<(), AllocError> {
    let known = &found.stages.areas;
    if known.len().saturating_add(cycle.areas.len()) > AREAS
        || is_known(question, known, &cycle, effort)?
    {
        return Ok(());
    }
    if let Some(mut proofs) = proofs_of(question, sides, known, &cycle, effort)? {
        let mut areas = cycle.areas;
        found.stages.areas.append(&mut areas)?;
        found.proofs.append(&mut proofs)?;
    }
    Ok(())
}

/// What was found, and closed cycles on which the hold side holds.
pub(crate) fn with_cycles(
    question: &Question,
    sides: &Sides,
    found: Found,
    effort: &mut Effort,
) -> Result<Found, AllocError> {
    let columns = question.about.variables() as usize;
    let ways = ways_inside(question, sides.hold)?;
    let walks = closed_walks(question.alloc, &ways)?;
    let mut found = found;
    let least = effort.left.saturating_sub(TRIED_CYCLE_CALLS);
    for (tried, walk) in walks.iter().enumerate() {
        if tried < TRIED_CYCLES
            && effort.left > least
            && let Some(rows) = closed(question.alloc, columns, &ways, walk, effort)?
            && let Some(cycle) = cycle_of(question.alloc, columns, &ways, walk, rows)?
        {
            add_cycle(question, sides, cycle, &mut found, effort)?;
        }
    }
    Ok(found)
}
