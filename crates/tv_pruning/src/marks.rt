use crate::entering::Target;
use std::alloc::{AllocError, Global};
use tv_cert::{Node, Pieces};
use tv_places::{Stand, count_of, index, place_at};

/// Which pieces of a node are needed.
#[derive(Drop)]
pub(crate) struct Marks {
    /// Where the pieces of each location stand.
    index: Vec<Stand>,
    needed: Vec<bool>,
}

/// Where the pieces of each location stand; nothing of 2^32 pieces or more.
fn index_of(alloc: Global, pieces: &Pieces) -> Result<Vec<Stand>, AllocError> {
    let mut locations = Vec::new(alloc);
    for piece in pieces.list() {
        locations.push(piece.location())?;
    }
    if locations.len() >= 1 << 32 {
        return Ok(Vec::new(alloc));
    }
    index(alloc, &locations)
}

impl Marks {
    /// None of the pieces.
    pub(crate) fn none_of(alloc: Global, pieces: &Pieces) -> Result<Marks, AllocError> {
        let index = index_of(alloc, pieces)?;
        let needed = vec![in alloc; false; pieces.list().len()]?;
        Ok(Marks { index, needed })
    }

    /// None of the pieces of each node.
    pub(crate) fn none_of_each(alloc: Global, nodes: &[Node]) -> Result<Vec<Marks>, AllocError> {
        let mut list = Vec::new(alloc);
        for node in nodes {
            list.push(Marks::none_of(alloc, &node.pieces)?)?;
        }
        Ok(list)
    }

    /// Marks the piece of the target; its place, where it was not marked before.
    pub(crate) fn mark(&mut self, target: Target) -> Option<usize> {
        let place = place_at(&self.index, target.location, target.number as usize)?;
        let needed = self.needed.get_mut(place as usize)?;
        if *needed {
            return None;
        }
        *needed = true;
        Some(place as usize)
    }

    /// Whether the piece at this place is needed.
    pub(crate) fn is_needed(&self, place: usize) -> bool {
        self.needed.get(place).copied().unwrap_or(false)
    }

    /// How many pieces are at the location.
    pub(crate) fn count_at(&self, location: u32) -> usize {
        count_of(&self.index, location)
    }

    /// How many of the first `count` pieces at the location are needed.
    pub(crate) fn needed_among(&self, location: u32, count: usize) -> u32 {
        let mut needed: u32 = 0;
        for k in 0..count {
            if let Some(place) = place_at(&self.index, location, k)
                && self.is_needed(place as usize)
            {
                needed = needed.saturating_add(1);
            }
        }
        needed
    }
}
