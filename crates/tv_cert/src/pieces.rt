ghost use Rattle.std.specs.Prelude.{◌≡◌, ◌↔◌, [], IfOk, IsTrue, MatchOption, None, Some, slice_get, length, map};
ghost use Rattle.std.specs.List.{flat_map};
ghost use Rattle.std.specs.Option.{option_map};
ghost use Rattle.tv_cert.specs.Pieces.{place_of, pieces_at, rows_of, AreOver};
ghost use Rattle.tv_cert.specs.Obligations.{PointMet};
ghost use Rattle.tv_cert.specs.Indexed.{IsIndexed};
ghost use Rattle.tv_cert.specs.NodeViews.{pieces_list};

use crate::node::{Marked, Node};
use std::alloc::{AllocError, Global};
use std::marker::Model;
use tv_places::{Stand, count_of, index, place_at};
use tv_refute::meets_all;

/// The pieces of a node, in order. Those at a location are found in time logarithmic in how many there are.
#[derive(Drop)]
pub struct Pieces {
    list: Vec<Marked>,
    /// Where the pieces of each location stand in the list; nothing where the list is gone through instead.
    index: Vec<Stand>,
}

impl Model for Pieces {
    ghost use Rattle.std.specs.Prelude.{List};
    ghost use Rattle.tv_cert.specs.declared.node.Marked.{Marked};
    ghost use Rattle.tv_cert.specs.Indexed.{IsIndexed};

    ghost Value = { List Marked };

    ghost view = { λ p. p.list.items };

    ghost invariant = { λ p. IsIndexed p.list.items p.index.items };
}

/// It takes less time to go through this many pieces than to look them up.
const SHORT: usize = 16;

/// The locations of the pieces, in order.
fn locations(alloc: Global, list: &[Marked]) -> Result<Vec<u32>, AllocError>
    ensures { IfOk result (λ v. v.items ≡ map place_of list.now) }
{
    let mut locations = Vec::with_capacity(alloc, list.len())?;
    for piece in list {
        locations.push(piece.location())?;
    }
    Ok(locations)
}

/// Where the pieces of each location stand. There is no index of a short list, nor of 2^32 pieces or more.
fn index_of(alloc: Global, list: &[Marked]) -> Result<Vec<Stand>, AllocError>
    ensures { IfOk result (λ stands. IsIndexed list.now stands.items) }
{
    if list.len() <= SHORT || list.len() >= 1 << 32 {
        return Ok(Vec::new(alloc));
    }
    let locations = locations(alloc, list)?;
    let stands = index(alloc, &locations)?;
    Ok(stands)
}

impl Pieces {
    pub fn new(alloc: Global, list: Vec<Marked>) -> Result<Pieces, AllocError>
        ensures { IfOk result (λ pieces. pieces ≡ list.items) }
    {
        let index = index_of(alloc, &list)?;
        Ok(Pieces { list, index })
    }

    /// No pieces. It takes no memory.
    pub fn none(&self) -> Pieces
        ensures { result ≡ [] }
    {
        let alloc = *self.list.allocator();
        Pieces {
            list: Vec::new(alloc),
            index: Vec::new(alloc),
        }
    }

    pub fn list(&self) -> &[Marked]
        ensures { result.now ≡ self.now }
    {
        &self.list
    }

    /// The piece at place `k` among those at the location.
    pub fn at(&self, location: u32, k: u32) -> Option<&Marked>
        ensures { let there = slice_get (pieces_at self.now location) k in
            MatchOption result (there ≡ None) (λ q. there ≡ Some q.now) }
    {
        if self.index.is_empty() {
            return piece_at(&self.list, location, k);
        }
        match place_at(&self.index, location, k as usize) {
            None => None,
            Some(place) => self.list.get(place as usize),
        }
    }

    /// Whether the values are in the piece at place `k` among those at the location.
    pub fn hold(&self, location: u32, k: u32, values: &[i128]) -> bool
        requires { AreOver (length values.now) self.now }
        ensures { let there = slice_get (pieces_at self.now location) k in
            IsTrue result ↔ PointMet values.now (option_map rows_of there) }
    {
        match self.at(location, k) {
            None => false,
            Some(piece) => meets_all(values, piece.rows()),
        }
    }

    /// How many of the pieces are at the location.
    fn count_at(&self, location: u32) -> usize
        ensures { result ≡ length (pieces_at self.now location) }
    {
        if self.index.is_empty() {
            return count_at(&self.list, location);
        }
        count_of(&self.index, location)
    }
}

/// The piece at place `k` among those at the location.
fn piece_at(pieces: &[Marked], location: u32, k: u32) -> Option<&Marked>
    ensures { let there = slice_get (pieces_at pieces.now location) k in
        MatchOption result (there ≡ None) (λ q. there ≡ Some q.now) }
{
    let mut left = k;
    for piece in pieces {
        if piece.location() == location {
            if left == 0 {
                return Some(piece);
            }
            left -= 1;
        }
    }
    None
}

/// How many of the pieces are at the location.
fn count_at(pieces: &[Marked], location: u32) -> usize
    ensures { result ≡ length (pieces_at pieces.now location) }
{
    pieces.iter().filter(|p| p.location() == location).count()
}

/// The piece at place `k` among those of all nodes at the location, in the order of the nodes.
pub(crate) fn joined_piece_at(nodes: &[Node], location: u32, k: u32) -> Option<&Marked>
    ensures { let there = pieces_at (flat_map (λ a. a) (map pieces_list nodes.now)) location in
        MatchOption result (slice_get there k ≡ None) (λ q. slice_get there k ≡ Some q.now) }
{
    match nodes {
        [] => None,
        [node, rest @ ..] => {
            let here = node.pieces.count_at(location);
            if (k as usize) < here {
                node.pieces.at(location, k)
            } else {
                joined_piece_at(rest, location, k - here as u32)
            }
        }
    }
}
