// Places, and how far their ranks are found.

use crate::effect::Steps;
use crate::passage::Passage;
use crate::place::Place;
use std::alloc::{AllocError, Global};
use tv_linear::Row;
use tv_walks::number_row;

/// A passage over which a rank falls, by the names of its places.
#[derive(Clone, Copy)]
pub(crate) struct Fall {
    pub from: usize,
    pub number: usize,
    pub to: usize,
    /// Which of the ranks falls, from 1.
    pub fall: u32,
}

/// Places, and the passages between them.
#[derive(Drop)]
pub(crate) struct Partition {
    pub places: Vec<Place>,
    /// How many ranks each place has.
    pub ranks: u32,
    /// The passages that are to be looked at.
    pub left: Vec<Passage>,
    /// The passages over which no rank falls. No ranks were found for the places that they join.
    pub stuck: Vec<Passage>,
    /// The other passages.
    pub falls: Vec<Fall>,
    /// The first name that no place has.
    pub names: usize,
}

/// Copies of the passages.
fn copies_of(alloc: Global, passages: &[Passage]) -> Result<Vec<Passage>, AllocError> {
    let mut list = Vec::new(alloc);
    for passage in passages {
        list.push(passage.copy(alloc)?)?;
    }
    Ok(list)
}

/// Copies of the places.
fn copies_of_places(alloc: Global, places: &[Place]) -> Result<Vec<Place>, AllocError> {
    let mut list = Vec::new(alloc);
    for place in places {
        list.push(place.copy(alloc)?)?;
    }
    Ok(list)
}

impl Partition {
    /// These places and passages, without ranks.
    pub(crate) fn new(alloc: Global, places: Vec<Place>, left: Vec<Passage>) -> Partition {
        let names = places.len();
        Partition {
            places,
            ranks: 0,
            left,
            stuck: Vec::new(alloc),
            falls: Vec::new(alloc),
            names,
        }
    }

    /// A copy of the partition.
    pub(crate) fn copy(&self, alloc: Global) -> Result<Partition, AllocError> {
        Ok(Partition {
            places: copies_of_places(alloc, &self.places)?,
            ranks: self.ranks,
            left: copies_of(alloc, &self.left)?,
            stuck: copies_of(alloc, &self.stuck)?,
            falls: Vec::from_slice(alloc, &self.falls)?,
            names: self.names,
        })
    }

    /// Adds a rank: of each place the term that stands where it does in the list, or 0 where none does.
    pub(crate) fn add_rank(
        &mut self,
        steps: &Steps,
        terms: &[Option<Row>],
    ) -> Result<(), AllocError> {
        self.ranks = self.ranks.saturating_add(1);
        for (at, place) in self.places.iter_mut().enumerate() {
            push_rank(steps, terms, at, place)?;
        }
        Ok(())
    }

    /// Notes that the rank that was added last falls over the passage.
    pub(crate) fn push_fall(&mut self, passage: &Passage) -> Result<(), AllocError> {
        if let (Some(from), Some(to)) = (
            self.places.get(passage.from),
            self.places.get(passage.to),
        ) {
            self.falls.push(Fall {
                from: from.name(),
                number: passage.number,
                to: to.name(),
                fall: self.ranks,
            })?;
        }
        Ok(())
    }

    /// The rank that falls over the case of this number between two places, from 1; `None` where it is not known to be taken.
    pub(crate) fn fall_over(&self, from: &Place, number: usize, to: &Place) -> Option<u32> {
        for it in &self.falls {
            if it.number == number && from.names.contains(&it.from) && to.names.contains(&it.to) {
                return Some(it.fall);
            }
        }
        None
    }
}

/// Puts the term that stands at a place of the list, or 0, at the end of the ranks.
fn push_rank(
    steps: &Steps,
    terms: &[Option<Row>],
    at: usize,
    place: &mut Place,
) -> Result<(), AllocError> {
    match terms.get(at) {
        Some(Some(term)) => place.ranks.push(term.copy(steps.alloc)?)?,
        _ => {
            if let Some(zero) = number_row(steps.alloc, steps.columns, 0)? {
                place.ranks.push(zero)?;
            }
        }
    }
    Ok(())
}
