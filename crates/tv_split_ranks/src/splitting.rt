// Places of a part where no ranks fall, split by rows, one more split at a time.

use crate::budget::Spending;
use crate::candidates::candidates_of;
use crate::components::numbers_of;
use crate::effect::Steps;
use crate::entered::leave_out_unreached;
use crate::family::Part;
use crate::limits::{KEPT, PASSAGES, ROUNDS, SPLITS_OF_A_PLACE};
use crate::partition::Partition;
use crate::passage::{Passage, passage_between};
use crate::place::Place;
use crate::ranking::{advance, number_of, part_of};
use std::alloc::AllocError;
use tv_linear::Row;

/// The places after a split, and where the second half of each place of before stands.
#[derive(Drop)]
struct Halved {
    places: Vec<Place>,
    others: Vec<Option<usize>>,
    names: usize,
}

impl Halved {
    /// Whether the place at this place of before was split.
    fn is_split(&self, at: usize) -> bool {
        self.other(at).is_some()
    }

    /// Where the second half of the place stands.
    fn other(&self, at: usize) -> Option<usize> {
        match self.others.get(at) {
            Some(other) => *other,
            None => None,
        }
    }

    /// Puts the halves of the place there in, where the row splits it.
    fn split_at(
        &mut self,
        steps: &Steps,
        at: usize,
        row: &Row,
        spending: &mut Spending,
    ) -> Result<(), AllocError> {
        let end = self.places.len();
        let (Some(place), Some(other)) = (self.places.get_mut(at), self.others.get_mut(at)) else {
            return Ok(());
        };
        if place.splits() >= SPLITS_OF_A_PLACE {
            return Ok(());
        }
        if let Some((met, rest)) = place.halves(
            steps.alloc,
            steps.columns,
            row,
            self.names,
            spending,
        )? {
            self.names = self.names.saturating_add(2);
            *place = met;
            *other = Some(end);
            self.places.push(rest)?;
        }
        Ok(())
    }
}

/// The places where those of the part are split by the row.
fn split_places(
    steps: &Steps,
    partition: &Partition,
    part: &Part,
    row: &Row,
    spending: &mut Spending,
) -> Result<Halved, AllocError> {
    let mut others = Vec::new(steps.alloc);
    let mut places = Vec::new(steps.alloc);
    for place in &partition.places {
        places.push(place.copy(steps.alloc)?)?;
        others.push(None)?;
    }
    let mut halved = Halved {
        places,
        others,
        names: partition.names,
    };
    for at in &part.places {
        halved.split_at(steps, *at, row, spending)?;
    }
    Ok(halved)
}

/// Puts the passage between each half of its places at the end of the list, where there is one.
fn push_halves(
    steps: &Steps,
    halved: &Halved,
    passage: &Passage,
    spending: &mut Spending,
    list: &mut Vec<Passage>,
) -> Result<(), AllocError> {
    let lefts = [Some(passage.from), halved.other(passage.from)];
    let entereds = [Some(passage.to), halved.other(passage.to)];
    for from in lefts.iter().flatten() {
        for to in entereds.iter().flatten() {
            if let Some(made) = passage_between(
                steps,
                &halved.places,
                *from,
                passage.number,
                *to,
                spending,
            )? {
                list.push(made)?;
            }
        }
    }
    Ok(())
}

/// The passages over which no rank falls, in two lists: those of the part between the halves of its places, and the others.
fn divided(
    steps: &Steps,
    partition: &Partition,
    part: &Part,
    halved: &Halved,
    spending: &mut Spending,
) -> Result<(Vec<Passage>, Vec<Passage>), AllocError> {
    let mut inside = Vec::new(steps.alloc);
    let mut others = Vec::new(steps.alloc);
    for passage in &partition.stuck {
        if halved.is_split(passage.from) || halved.is_split(passage.to) {
            push_halves(steps, halved, passage, spending, &mut inside)?;
        } else if part.places.contains(&passage.from) {
            inside.push(passage.copy(steps.alloc)?)?;
        } else {
            others.push(passage.copy(steps.alloc)?)?;
        }
    }
    Ok((inside, others))
}

/// The partition where the places of the part are split by the row, and ranks are added as far as they are found; `None` where it splits
/// none, or there are too many places or passages.
fn split_by(
    steps: &Steps,
    partition: &Partition,
    part: &Part,
    row: &Row,
    spending: &mut Spending,
) -> Result<Option<Partition>, AllocError> {
    let halved = split_places(steps, partition, part, row, spending)?;
    if halved.names == partition.names || halved.places.len() > spending.pieces {
        return Ok(None);
    }
    let (left, stuck) = divided(steps, partition, part, &halved, spending)?;
    if left.len() > PASSAGES {
        return Ok(None);
    }
    let mut next = Partition {
        places: halved.places,
        ranks: partition.ranks,
        left,
        stuck,
        falls: Vec::from_slice(steps.alloc, &partition.falls)?,
        names: halved.names,
    };
    leave_out_unreached(steps, &mut next, partition.names, spending)?;
    advance(steps, &mut next, spending)?;
    Ok(Some(next))
}

/// Puts a partition among those that are kept, which are those with the fewest passages over which no rank falls.
fn keep(partition: Partition, kept: &mut Vec<Partition>) -> Result<(), AllocError> {
    let count = partition.stuck.len();
    let place = kept
        .iter()
        .position(|other| other.stuck.len() > count)
        .unwrap_or(kept.len());
    if place < KEPT {
        kept.insert(place, partition)?;
    }
    if kept.len() > KEPT {
        let _ = kept.pop();
    }
    Ok(())
}

/// Tries each row to split the first part of the partition where no ranks fall; the first partition whose ranks are all found, if there is
/// one.
fn try_rows(
    steps: &Steps,
    partition: &Partition,
    spending: &mut Spending,
    kept: &mut Vec<Partition>,
) -> Result<Option<Partition>, AllocError> {
    let alloc = steps.alloc;
    let Some(first) = partition.stuck.first() else {
        return Ok(None);
    };
    let numbers = numbers_of(alloc, partition.places.len(), &partition.stuck, &[])?;
    let number = number_of(&numbers, first.from);
    let part = part_of(alloc, &numbers, &partition.stuck, number)?;
    for row in candidates_of(steps, &part)? {
        if spending.is_spent() {
            return Ok(None);
        }
        if let Some(next) = split_by(steps, partition, &part, &row, spending)? {
            if next.stuck.is_empty() {
                return Ok(Some(next));
            }
            keep(next, kept)?;
        }
    }
    Ok(None)
}

/// One more split of each of the partitions, and those that are kept of what comes out.
fn try_all(
    steps: &Steps,
    partitions: &[Partition],
    spending: &mut Spending,
    kept: &mut Vec<Partition>,
) -> Result<Option<Partition>, AllocError> {
    for partition in partitions {
        if let Some(found) = try_rows(steps, partition, spending, kept)? {
            return Ok(Some(found));
        }
    }
    Ok(None)
}

/// A partition whose ranks are all found; `None` where none was found.
pub(crate) fn settled(
    steps: &Steps,
    start: Partition,
    spending: &mut Spending,
) -> Result<Option<Partition>, AllocError> {
    let mut first = start;
    advance(steps, &mut first, spending)?;
    if first.stuck.is_empty() {
        return Ok(Some(first));
    }
    let mut partitions = Vec::new(steps.alloc);
    partitions.push(first)?;
    for _ in 0..ROUNDS {
        let mut kept = Vec::new(steps.alloc);
        if let Some(found) = try_all(steps, &partitions, spending, &mut kept)? {
            return Ok(Some(found));
        }
        partitions = kept;
    }
    Ok(None)
}
