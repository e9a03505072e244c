// Closed walks over the locations of a program.

ghost use Rattle.std.specs.Prelude.{◌≤◌, ◌+◌, IfOk, length};

use crate::cycles::way::Way;
use crate::limits::{CYCLES, LONGEST_CYCLE, LONGEST_WALK, PATHS, WALKS};
use std::alloc::{AllocError, Global};

/// Which closed walks are sought: how long they are at most, how many, and whether a location may come again.
#[derive(Clone, Copy)]
struct Wanted {
    longest: usize,
    most: usize,
    simple: bool,
}

/// Where the walk begins.
fn first_of(ways: &[Way], walk: &[usize]) -> Option<u32> {
    let first = walk.first()?;
    Some(ways.get(*first)?.from)
}

/// Where the walk leads.
fn last_of(ways: &[Way], walk: &[usize]) -> Option<u32> {
    let last = walk.last()?;
    Some(ways.get(*last)?.to)
}

/// Whether the walk comes from the location at some step.
fn leaves(ways: &[Way], walk: &[usize], location: u32) -> bool {
    for place in walk {
        if let Some(way) = ways.get(*place)
            && way.from == location
        {
            return true;
        }
    }
    false
}

/// Whether the walk leads back to where it began.
fn is_closed(ways: &[Way], walk: &[usize]) -> bool {
    match (first_of(ways, walk), last_of(ways, walk)) {
        (Some(first), Some(last)) => first == last,
        _ => false,
    }
}

/// Whether the way goes on after the walk. A walk that meets no location twice begins at the least of its locations.
fn goes_on(ways: &[Way], walk: &[usize], way: &Way, wanted: Wanted) -> bool {
    let (Some(first), Some(last)) = (first_of(ways, walk), last_of(ways, walk)) else {
        return false;
    };
    if way.from != last {
        return false;
    }
    if !wanted.simple {
        return true;
    }
    way.to == first || (way.to > first && !leaves(ways, walk, way.to))
}

/// The walk and one way after it.
pub(crate) fn longer_walk(
    alloc: Global,
    walk: &[usize],
    way: usize,
) -> Result<Vec<usize>, AllocError> {
    let mut list = Vec::from_slice(alloc, walk)?;
    list.push(way)?;
    Ok(list)
}

/// Puts the walks that are one way longer at the end of the list.
fn push_longer(
    alloc: Global,
    ways: &[Way],
    walk: &[usize],
    wanted: Wanted,
    walks: &mut Vec<Vec<usize>>,
) -> Result<(), AllocError> {
    for (place, way) in ways.iter().enumerate() {
        if walks.len() < PATHS && goes_on(ways, walk, way, wanted) {
            walks.push(longer_walk(alloc, walk, place)?)?;
        }
    }
    Ok(())
}

/// The walks of one way.
fn short_walks(alloc: Global, ways: &[Way]) -> Result<Vec<Vec<usize>>, AllocError> {
    let mut walks = Vec::new(alloc);
    for place in 0..ways.len() {
        walks.push(longer_walk(alloc, &[], place)?)?;
    }
    Ok(walks)
}

/// Whether a walk is one of those sought. Those that meet no location twice are sought by themselves.
fn is_sought(ways: &[Way], walk: &[usize], wanted: Wanted) -> bool {
    is_closed(ways, walk) && (wanted.simple || walk.len() > 1)
}

/// Puts the walks that are sought at the end of the list, the shortest first.
fn push_closed(
    alloc: Global,
    ways: &[Way],
    wanted: Wanted,
    closed: &mut Vec<Vec<usize>>,
) -> Result<(), AllocError>
    ensures { length closed.new.items ≤ length closed.old.items + wanted.most }
{
    let mut walks = short_walks(alloc, ways)?;
    let mut count = 0;
    for place in 0..PATHS {
        let Some(next) = walks.get(place) else {
            return Ok(());
        };
        let walk = Vec::from_slice(alloc, next)?;
        let sought = is_sought(ways, &walk, wanted);
        if walk.len() < wanted.longest && !(wanted.simple && sought) {
            push_longer(alloc, ways, &walk, wanted, &mut walks)?;
        }
        if sought && count < wanted.most {
            closed.push(walk)?;
            count += 1;
        }
    }
    Ok(())
}

/// Closed walks, the shortest first: those that meet no location twice, and then others.
pub fn closed_walks(alloc: Global, ways: &[Way]) -> Result<Vec<Vec<usize>>, AllocError>
    ensures { IfOk result (λ walks. length walks.items ≤ 500) }
{
    let mut closed = Vec::new(alloc);
    let cycles = Wanted {
        longest: LONGEST_CYCLE,
        most: CYCLES,
        simple: true,
    };
    push_closed(alloc, ways, cycles, &mut closed)?;
    let others = Wanted {
        longest: LONGEST_WALK,
        most: WALKS,
        simple: false,
    };
    push_closed(alloc, ways, others, &mut closed)?;
    Ok(closed)
}
