// The places that the search begins with.

use crate::area::Area;
use crate::budget::Spending;
use crate::effect::{Effect, Steps};
use crate::place::{Origin, Place, place_of};
use crate::strongest::push_strongest;
use std::alloc::{AllocError, Global};
use tv_candidates::Candidate;
use tv_linear::{Row, copies, push_copies};
use tv_walks::{denied, is_known, is_without_draws, less, number_row};

/// Which places the search begins with.
#[derive(Clone, Copy)]
pub(crate) enum Beginning {
    /// Each area as it is.
    Areas,
    /// Each area, with the rows that are known at its location.
    Known,
    /// Each area for each case that leads there, with the rows that hold after it, and those where runs begin.
    Cases,
}

/// Copies of the rows that are known at the location.
fn known_at(steps: &Steps, known: &[Candidate], location: u32) -> Result<Vec<Row>, AllocError> {
    let mut rows = Vec::new(steps.alloc);
    for candidate in known {
        if candidate.location == location {
            rows.push(candidate.row.copy(steps.alloc)?)?;
        }
    }
    Ok(rows)
}

/// Puts the place of these rows at the end of the list, where some point may meet them.
fn push_place(
    steps: &Steps,
    location: u32,
    origin: Origin,
    rows: &[Row],
    places: &mut Vec<Place>,
) -> Result<(), AllocError> {
    let name = places.len();
    if let Some(place) = place_of(steps.alloc, location, origin, rows, name)? {
        places.push(place)?;
    }
    Ok(())
}

/// The rows, and then those of the area.
fn with_area(alloc: Global, rows: &[Row], area: &Area) -> Result<Vec<Row>, AllocError> {
    let mut all = copies(alloc, rows)?;
    push_copies(alloc, &area.rows, &mut all)?;
    Ok(all)
}

/// Each area, with the rows that are known at its location.
fn whole_places(
    steps: &Steps,
    areas: &[Area],
    known: &[Candidate],
) -> Result<Vec<Place>, AllocError> {
    let mut places = Vec::new(steps.alloc);
    for area in areas {
        let rows = known_at(steps, known, area.location)?;
        let rows = with_area(steps.alloc, &rows, area)?;
        push_place(steps, area.location, Origin::Any, &rows, &mut places)?;
    }
    Ok(places)
}

/// Puts the place of each of the areas at the location, with the rows, at the end of the list.
fn push_places(
    steps: &Steps,
    areas: &[Area],
    location: u32,
    origin: Origin,
    rows: &[Row],
    places: &mut Vec<Place>,
) -> Result<(), AllocError> {
    for area in areas {
        if area.location == location {
            let rows = with_area(steps.alloc, rows, area)?;
            push_place(steps, location, origin, &rows, places)?;
        }
    }
    Ok(())
}

/// Puts the row over the variables at the end of the list, where it holds after each step by the case from states that meet the rows.
fn push_held(
    steps: &Steps,
    effect: &Effect,
    before: &[Row],
    row: &Row,
    spending: &mut Spending,
    held: &mut Vec<Row>,
) -> Result<(), AllocError> {
    let alloc = steps.alloc;
    if let Some(after) = effect.after(alloc, row)?
        && is_known(alloc, before, &after, effect.width, &mut spending.effort)?
    {
        let _ = push_strongest(alloc, row, held)?;
    }
    Ok(())
}

/// The same of the row and its denial.
fn push_held_or_denied(
    steps: &Steps,
    effect: &Effect,
    before: &[Row],
    row: &Row,
    spending: &mut Spending,
    held: &mut Vec<Row>,
) -> Result<(), AllocError> {
    push_held(steps, effect, before, row, spending, held)?;
    if let Some(denial) = denied(steps.alloc, row)? {
        push_held(steps, effect, before, &denial, spending, held)?;
    }
    Ok(())
}

/// Puts those of the guards over the variables, or of their denials, that hold after the case at the end of the list.
fn push_held_guards(
    steps: &Steps,
    effect: &Effect,
    before: &[Row],
    guards: &[Row],
    spending: &mut Spending,
    held: &mut Vec<Row>,
) -> Result<(), AllocError> {
    let alloc = steps.alloc;
    for guard in guards {
        if is_without_draws(guard, steps.columns)
            && let Some(zero) = number_row(alloc, steps.columns, 0)?
            && let Some(row) = less(alloc, steps.columns, guard, &zero)?
        {
            push_held_or_denied(steps, effect, before, &row, spending, held)?;
        }
    }
    Ok(())
}

/// The rows that are known to hold after the case: those known at its end, and guards there that hold after it.
fn rows_after(
    steps: &Steps,
    known: &[Candidate],
    effect: &Effect,
    spending: &mut Spending,
) -> Result<Vec<Row>, AllocError> {
    let alloc = steps.alloc;
    let mut held = known_at(steps, known, effect.to)?;
    let mut before = copies(alloc, &effect.guards)?;
    for row in known_at(steps, known, effect.from)? {
        if let Some(row) = effect.before(alloc, &row)? {
            before.push(row)?;
        }
    }
    for next in &steps.effects {
        if next.from == effect.to {
            push_held_guards(steps, effect, &before, &next.guards, spending, &mut held)?;
        }
    }
    Ok(held)
}

/// A place in each area for each case, with the rows that hold after it, and one where runs begin.
fn places_after(
    steps: &Steps,
    areas: &[Area],
    known: &[Candidate],
    spending: &mut Spending,
) -> Result<Vec<Place>, AllocError> {
    let mut places = Vec::new(steps.alloc);
    let start = steps.start;
    let rows = known_at(steps, known, start)?;
    push_places(steps, areas, start, Origin::Start, &rows, &mut places)?;
    for (number, effect) in steps.effects.iter().enumerate() {
        let rows = rows_after(steps, known, effect, spending)?;
        let origin = Origin::Case(number);
        push_places(steps, areas, effect.to, origin, &rows, &mut places)?;
    }
    Ok(places)
}

/// The places in these areas that the search begins with; there may be too many.
pub(crate) fn first_places(
    steps: &Steps,
    areas: &[Area],
    known: &[Candidate],
    beginning: Beginning,
    spending: &mut Spending,
) -> Result<Vec<Place>, AllocError> {
    match beginning {
        Beginning::Areas => whole_places(steps, areas, &[]),
        Beginning::Known => whole_places(steps, areas, known),
        Beginning::Cases => places_after(steps, areas, known, spending),
    }
}
