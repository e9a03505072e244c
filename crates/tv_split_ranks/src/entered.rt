// Which places runs come to.

use crate::budget::Spending;
use crate::effect::Steps;
use crate::partition::{Fall, Partition};
use crate::passage::{Passage, passage_between};
use crate::place::Place;
use std::alloc::AllocError;

/// Whether a flag is set at the place.
fn is_set(flags: &[bool], at: usize) -> bool {
    flags.get(at).copied().unwrap_or(false)
}

/// Whether one of the passages leads to the place from one that is reached.
fn is_led_to(passages: &[Passage], reached: &[bool], at: usize) -> bool {
    passages.iter().any(|passage| passage.to == at && is_set(reached, passage.from))
}

/// Whether a passage over which a rank falls leads to the place from one that is reached.
fn is_fallen_to(
    steps: &Steps,
    partition: &Partition,
    fall: &Fall,
    reached: &[bool],
    at: usize,
    spending: &mut Spending,
) -> Result<bool, AllocError> {
    for (from, place) in partition.places.iter().enumerate() {
        if is_set(reached, from)
            && place.names.contains(&fall.from)
            && passage_between(
                steps,
                &partition.places,
                from,
                fall.number,
                at,
                spending,
            )?.is_some()
        {
            return Ok(true);
        }
    }
    Ok(false)
}

/// Whether the place is reached by one step from those that are, or by none.
fn is_entered(
    steps: &Steps,
    partition: &Partition,
    reached: &[bool],
    at: usize,
    spending: &mut Spending,
) -> Result<bool, AllocError> {
    let Some(place) = partition.places.get(at) else {
        return Ok(false);
    };
    if (place.is_first() && place.location == steps.start)
        || is_led_to(&partition.left, reached, at)
        || is_led_to(&partition.stuck, reached, at)
    {
        return Ok(true);
    }
    for fall in &partition.falls {
        if place.names.contains(&fall.to)
            && is_fallen_to(steps, partition, fall, reached, at, spending)?
        {
            return Ok(true);
        }
    }
    Ok(false)
}

/// Notes each place that is reached by one more step; whether one was noted that was not before.
fn note_entered(
    steps: &Steps,
    partition: &Partition,
    reached: &mut [bool],
    spending: &mut Spending,
) -> Result<bool, AllocError> {
    let mut is_more = false;
    for at in 0..partition.places.len() {
        if !is_set(reached, at)
            && is_entered(steps, partition, reached, at, spending)?
            && let Some(flag) = reached.get_mut(at)
        {
            *flag = true;
            is_more = true;
        }
    }
    Ok(is_more)
}

/// The passages between places that are reached.
fn among_reached(
    steps: &Steps,
    passages: &[Passage],
    reached: &[bool],
) -> Result<Vec<Passage>, AllocError> {
    let mut list = Vec::new(steps.alloc);
    for passage in passages {
        if is_set(reached, passage.from) && is_set(reached, passage.to) {
            list.push(passage.copy(steps.alloc)?)?;
        }
    }
    Ok(list)
}

/// For each place whether it is reached for sure: it is not left out, and has a name before this one.
fn reached_before(steps: &Steps, places: &[Place], names: usize) -> Result<Vec<bool>, AllocError> {
    let mut reached = Vec::new(steps.alloc);
    for place in places {
        reached.push(!place.is_out && place.name() < names)?;
    }
    Ok(reached)
}

/// Leaves out the places to which no run comes by passages from places that are not left out, and their passages. Places with a name before
/// this one are taken to be reached.
pub(crate) fn leave_out_unreached(
    steps: &Steps,
    partition: &mut Partition,
    names: usize,
    spending: &mut Spending,
) -> Result<(), AllocError> {
    let mut reached = reached_before(steps, &partition.places, names)?;
    for _ in 0..partition.places.len() {
        if !note_entered(steps, partition, &mut reached, spending)? {
            break;
        }
    }
    for (at, place) in partition.places.iter_mut().enumerate() {
        place.is_out = !is_set(&reached, at);
    }
    partition.left = among_reached(steps, &partition.left, &reached)?;
    partition.stuck = among_reached(steps, &partition.stuck, &reached)?;
    Ok(())
}
