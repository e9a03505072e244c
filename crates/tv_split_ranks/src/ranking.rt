// Ranks of places, found round by round until none is left to be found.

use crate::budget::Spending;
use crate::components::numbers_of;
use crate::effect::Steps;
use crate::falling::falls_over;
use crate::family::{LocalTerm, Part, family_of};
use crate::limits::RANKS;
use crate::partition::Partition;
use crate::passage::Passage;
use std::alloc::{AllocError, Global};
use std::mem;
use tv_linear::Row;
use tv_walks::number_row;

/// The number at a place; none has the number that is answered past the end.
pub(crate) fn number_of(numbers: &[u32], place: usize) -> u32 {
    numbers.get(place).copied().unwrap_or(u32::MAX)
}

/// Whether both ends of the passage have the same number.
fn stays(numbers: &[u32], passage: &Passage) -> bool {
    number_of(numbers, passage.from) == number_of(numbers, passage.to)
}

/// The part with this number.
pub(crate) fn part_of(
    alloc: Global,
    numbers: &[u32],
    passages: &[Passage],
    number: u32,
) -> Result<Part, AllocError> {
    let mut places = Vec::new(alloc);
    for (place, other) in numbers.iter().enumerate() {
        if *other == number {
            places.push(place)?;
        }
    }
    let mut inside = Vec::new(alloc);
    for passage in passages {
        if number_of(numbers, passage.from) == number && stays(numbers, passage) {
            inside.push(passage.copy(alloc)?)?;
        }
    }
    Ok(Part {
        places,
        passages: inside,
    })
}

/// The numbers of the parts in which passages are left, each once.
fn parts_left(
    alloc: Global,
    numbers: &[u32],
    passages: &[Passage],
) -> Result<Vec<u32>, AllocError> {
    let mut list = Vec::new(alloc);
    for passage in passages {
        let number = number_of(numbers, passage.from);
        if !list.contains(&number) {
            list.push(number)?;
        }
    }
    Ok(list)
}

/// The numbers of the parts as terms.
fn terms_of_numbers(steps: &Steps, numbers: &[u32]) -> Result<Vec<Option<Row>>, AllocError> {
    let mut terms = Vec::new(steps.alloc);
    for number in numbers {
        terms.push(number_row(steps.alloc, steps.columns, i64::from(*number))?)?;
    }
    Ok(terms)
}

/// Adds the numbers of the parts as a rank, which falls over the passages that never come back, where some passage does not.
fn add_numbers(
    steps: &Steps,
    partition: &mut Partition,
    numbers: &[u32],
) -> Result<(), AllocError> {
    if partition.left.iter().all(|passage| stays(numbers, passage)) {
        return Ok(());
    }
    let terms = terms_of_numbers(steps, numbers)?;
    partition.add_rank(steps, &terms)?;
    let left = mem::replace(&mut partition.left, Vec::new(steps.alloc));
    for passage in left {
        if stays(numbers, &passage) {
            partition.left.push(passage)?;
        } else {
            partition.push_fall(&passage)?;
        }
    }
    Ok(())
}

/// What a round finds: terms of places, and the numbers of the parts that have none.
#[derive(Drop)]
struct Found {
    terms: Vec<Option<Row>>,
    stuck: Vec<u32>,
}

/// Puts the terms where their places stand.
fn put_terms(family: Vec<LocalTerm>, terms: &mut [Option<Row>]) {
    for LocalTerm { place, row } in family {
        if let Some(slot) = terms.get_mut(place) {
            *slot = Some(row);
        }
    }
}

/// No term for any of the places.
fn no_terms(alloc: Global, count: usize) -> Result<Vec<Option<Row>>, AllocError> {
    let mut terms = Vec::new(alloc);
    for _ in 0..count {
        terms.push(None)?;
    }
    Ok(terms)
}

/// The terms of the parts in which passages are left.
fn found_of(
    steps: &Steps,
    partition: &Partition,
    numbers: &[u32],
    spending: &mut Spending,
) -> Result<Found, AllocError> {
    let alloc = steps.alloc;
    let mut found = Found {
        terms: no_terms(alloc, partition.places.len())?,
        stuck: Vec::new(alloc),
    };
    for number in parts_left(alloc, numbers, &partition.left)? {
        let part = part_of(alloc, numbers, &partition.left, number)?;
        match family_of(steps, &part, spending)? {
            Some(family) => put_terms(family, &mut found.terms),
            None => found.stuck.push(number)?,
        }
    }
    Ok(found)
}

/// Whether the terms fall over the passage.
fn is_falling(
    steps: &Steps,
    terms: &[Option<Row>],
    passage: &Passage,
    spending: &mut Spending,
) -> Result<bool, AllocError> {
    match (terms.get(passage.from), terms.get(passage.to)) {
        (Some(Some(before)), Some(Some(after))) => {
            falls_over(steps, passage, before, after, spending)
        }
        _ => Ok(false),
    }
}

/// Adds the terms that were found as a rank, and puts each passage that is left where it belongs.
fn add_found(
    steps: &Steps,
    partition: &mut Partition,
    numbers: &[u32],
    found: &Found,
    spending: &mut Spending,
) -> Result<(), AllocError> {
    if found.terms.iter().any(|term| term.is_some()) {
        partition.add_rank(steps, &found.terms)?;
    }
    let left = mem::replace(&mut partition.left, Vec::new(steps.alloc));
    for passage in left {
        if found.stuck.contains(&number_of(numbers, passage.from)) {
            partition.stuck.push(passage)?;
        } else if is_falling(steps, &found.terms, &passage, spending)? {
            partition.push_fall(&passage)?;
        } else {
            partition.left.push(passage)?;
        }
    }
    Ok(())
}

/// One round: the numbers of the parts, and then a term for each place of a part that has such terms.
fn add_round(
    steps: &Steps,
    partition: &mut Partition,
    spending: &mut Spending,
) -> Result<(), AllocError> {
    let numbers = numbers_of(
        steps.alloc,
        partition.places.len(),
        &partition.left,
        &partition.stuck,
    )?;
    add_numbers(steps, partition, &numbers)?;
    let found = found_of(steps, partition, &numbers, spending)?;
    add_found(steps, partition, &numbers, &found, spending)
}

/// Adds ranks until each passage has one that falls over it or is stuck.
pub(crate) fn advance(
    steps: &Steps,
    partition: &mut Partition,
    spending: &mut Spending,
) -> Result<(), AllocError> {
    for _ in 0..RANKS {
        if partition.left.is_empty() || partition.ranks >= RANKS {
            break;
        }
        add_round(steps, partition, spending)?;
    }
    partition.stuck.append(&mut partition.left)?;
    Ok(())
}
