// How far a search is with each node.

ghost use Rattle.std.specs.Prelude.{◌≡◌, ℕ, ◌<◌, ◌≤◌, ◌↔◌, length, take, slice_index, IfOk, sum_by, map, IsTrue};
ghost use Rattle.tv_graph.specs.Marks.{mark_at, unseen, number_of, Closes};

use std::alloc::{AllocError, Global};

/// How far the search is with a node.
#[derive(Clone, Copy)]
pub enum Mark {
    /// It was not reached.
    New,
    /// It stands at this place of the path.
    Open(usize),
    /// It is in the component with this number.
    Closed(u32),
}

impl Mark {
    pub fn is_new(self) -> bool
        ensures { IsTrue result ↔ (self ≡ Mark.New) }
    {
        match self {
            Mark::New => true,
            _ => false,
        }
    }

    /// The number of the component, or 0 where there is none yet.
    pub fn number(self) -> u32
        ensures { result ≡ number_of self }
    {
        match self {
            Mark::Closed(number) => number,
            _ => 0,
        }
    }
}

pub fn numbers_of(alloc: Global, marks: &[Mark]) -> Result<Vec<u32>, AllocError>
    ensures { IfOk result (λ numbers. numbers.items ≡ map number_of marks.now) }
{
    marks.iter().map(|mark| mark.number()).collect(alloc)
}

/// Takes the nodes from a place on off the path and puts them into a component.
pub fn close_nodes(marks: &mut Vec<Mark>, path: &mut Vec<u32>, place: usize, number: u32)
    requires inside { place ≤ length path.old.items }
    requires placed { (u i : ℕ) → mark_at marks.old.items u ≡ Mark.Open i →
        (i < length path.old.items) × (slice_index path.old.items i ≡ u) }
    requires seated { (i : ℕ) → i < length path.old.items →
        mark_at marks.old.items (slice_index path.old.items i) ≡ Mark.Open i }
    requires nodes { (i : ℕ) → i < length path.old.items →
        slice_index path.old.items i < length marks.old.items }
    ensures path { path.new.items ≡ take place path.old.items }
    ensures closes { Closes (mark_at marks.old.items) (mark_at marks.new.items) place number }
    ensures nodes { length marks.new.items ≡ length marks.old.items }
    ensures unseen { sum_by unseen marks.new.items ≡ sum_by unseen marks.old.items }
{
    'nodes: while path.len() > place {
        let node = path[path.len() - 1] as usize;
        let _ = path.pop();
        marks[node] = Mark::Closed(number);
    }
}
