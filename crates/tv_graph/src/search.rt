// A depth-first search that keeps the components it may still join as segments of its path.

ghost use Rattle.std.specs.Prelude.{◌≡◌, ◌≢◌, ℕ, ◌+◌, ◌-◌, ◌<◌, ◌≤◌, ◌++◌, ◌∷◌, [], length, slice_index, IfOk, IfSome, IfNone};
ghost use Rattle.tv_graph.specs.Arcs.{InRange, HasLatest, HasEarlier, from_at};
ghost use Rattle.tv_graph.specs.Graph.{IsNumbering};
ghost use Rattle.tv_graph.specs.Marks.{mark_at, AreReached};
ghost use Rattle.tv_graph.specs.Stacks.{Has, IsLastOf, Cuts};
ghost use Rattle.tv_graph.specs.PathSearch.{IsValid, KeepsReached, EntersNode, ClosesSegment, FollowsArc, Steps};

use crate::Arc;
use crate::marks::{Mark, close_nodes, numbers_of};
use std::alloc::{AllocError, Global};
use tv_linear::push_item;

/// The state of the search.
///
/// Each node of the path reaches the nodes after it. The path is cut into segments, and the nodes
/// of a segment reach each other, so that a segment is a component or a part of one.
#[derive(Drop)]
pub struct PathSearch {
    /// How far the search is with each node.
    pub marks: Vec<Mark>,
    /// The place just past the next arc of each node, or 0 where all its arcs were followed.
    pub cursors: Vec<usize>,
    /// The nodes that were reached and are in no component yet.
    pub path: Vec<u32>,
    /// The places of the path whose nodes may have arcs left.
    pub waiting: Vec<usize>,
    /// The places of the path where the segments start.
    pub boundaries: Vec<usize>,
    /// How many components are complete.
    pub count: u32,
}

/// Takes away the boundaries after a place.
fn cut(boundaries: &mut Vec<usize>, place: usize)
    requires { Has boundaries.old.items 0 }
    ensures cuts { Cuts place boundaries.old.items boundaries.new.items }
    ensures top { slice_index boundaries.new.items (length boundaries.new.items - 1) ≤ place }
{
    'cut: while boundaries[boundaries.len() - 1] > place {
        let _ = boundaries.pop();
    }
}

impl PathSearch {
    /// A search that reached no node, with the links to the last arc of each.
    pub fn new(
        alloc: Global,
        nodes: u32,
        arcs: &[Arc],
        latest: Vec<usize>,
    ) -> Result<Self, AllocError>
        requires bounded { nodes ≤ 1024 }
        requires range { InRange nodes arcs.now }
        requires latest { HasLatest nodes arcs.now latest.items }
        ensures valid { IfOk result (λ search. IsValid arcs.now search) }
        ensures rests { IfOk result (λ search. length search.path.items ≡ 0) }
        ensures nodes { IfOk result (λ search. length search.marks.items ≡ nodes) }
    {
        let marks = vec![in alloc; Mark::New; nodes as usize]?;
        Ok(PathSearch {
            marks,
            cursors: latest,
            path: Vec::new(alloc),
            waiting: Vec::new(alloc),
            boundaries: Vec::new(alloc),
            count: 0,
        })
    }

    /// Reaches all that a node reaches, and completes its components.
    pub fn explore(&mut self, arcs: &[Arc], earlier: &[usize], root: u32) -> Result<(), AllocError>
        requires valid { IsValid arcs.now self.old }
        requires range { InRange (length self.old.marks.items) arcs.now }
        requires earlier { HasEarlier arcs.now earlier.now }
        requires root { root < length self.old.marks.items }
        requires rests { length self.old.path.items ≡ 0 }
        ensures valid { IfOk result (λ _. IsValid arcs.now self.new) }
        ensures rests { IfOk result (λ _. length self.new.path.items ≡ 0) }
        ensures nodes { IfOk result (λ _. length self.new.marks.items ≡ length self.old.marks.items) }
        ensures grows { IfOk result (λ _. KeepsReached self.old self.new) }
        ensures root { IfOk result (λ _. mark_at self.new.marks.items root ≢ Mark.New) }
    {
        if !self.marks[root as usize].is_new() {
            return Ok(());
        }
        self.enter(root)?;
        'steps: while self.waiting.len() > 0 {
            self.step(arcs, earlier)?;
        }
        Ok(())
    }

    /// The component of each node, where the search is done.
    pub fn numbers(&self, alloc: Global, arcs: &[Arc]) -> Result<Vec<u32>, AllocError>
        requires valid { IsValid arcs.now self.now }
        requires range { InRange (length self.now.marks.items) arcs.now }
        requires rests { length self.now.path.items ≡ 0 }
        requires reached { AreReached (length self.now.marks.items) self.now.marks.items }
        ensures { IfOk result (λ numbers.
            IsNumbering (length self.now.marks.items) arcs.now numbers.items) }
    {
        let numbers = numbers_of(alloc, &self.marks)?;
        Ok(numbers)
    }

    /// Puts a node at the end of the path, as a segment of its own.
    fn enter(&mut self, node: u32) -> Result<(), AllocError>
        requires { node < length self.old.marks.items }
        ensures { IfOk result (λ _. EntersNode self.old self.new node) }
    {
        let place = self.path.len();
        push_item(&mut self.path, node)?;
        push_item(&mut self.waiting, place)?;
        push_item(&mut self.boundaries, place)?;
        self.marks[node as usize] = Mark::Open(place);
        Ok(())
    }

    /// Makes a component of the last segment, which starts at a place.
    fn close_segment(&mut self, arcs: &[Arc], place: usize)
        requires valid { IsValid arcs.now self.old }
        requires boundary { Has self.old.boundaries.items place }
        ensures { ClosesSegment self.old self.new place }
    {
        close_nodes(&mut self.marks, &mut self.path, place, self.count);
        self.count += 1;
        let _ = self.waiting.pop();
        let _ = self.boundaries.pop();
    }

    /// Follows an arc of the node at a place: its head is entered, or the segments from its head's
    /// on become one.
    fn follow_arc(&mut self, arcs: &[Arc], place: usize, a: usize) -> Result<(), AllocError>
        requires valid { IsValid arcs.now self.old }
        requires range { InRange (length self.old.marks.items) arcs.now }
        requires arc { a < length arcs.now }
        requires here { mark_at self.old.marks.items (from_at arcs.now a) ≡ Mark.Open place }
        requires waits { Has self.old.waiting.items place }
        requires top { (b : ℕ) → Has self.old.boundaries.items b → b ≤ place }
        ensures { IfOk result (λ _. FollowsArc arcs.now place a self.old self.new) }
    {
        let head = arcs[a].to;
        match self.marks[head as usize] {
            Mark::New => {
                self.enter(head)?;
                Ok(())
            }
            Mark::Open(at) => {
                cut(&mut self.boundaries, at);
                Ok(())
            }
            Mark::Closed(_) => Ok(()),
        }
    }

    /// The arc of a node that is to be followed next.
    fn next_arc(&self, node: u32) -> Option<usize>
        requires { node < length self.now.cursors.items }
        ensures none { IfNone result (slice_index self.now.cursors.items node ≡ 0) }
        ensures some { IfSome result (λ a. slice_index self.now.cursors.items node ≡ a + 1) }
    {
        match self.cursors[node as usize] {
            0 => None,
            link => Some(link - 1),
        }
    }

    /// Follows the next arc of the last place that waits.
    fn advance(
        &mut self,
        arcs: &[Arc],
        earlier: &[usize],
        place: usize,
        a: usize,
    ) -> Result<(), AllocError>
        requires valid { IsValid arcs.now self.old }
        requires range { InRange (length self.old.marks.items) arcs.now }
        requires earlier { HasEarlier arcs.now earlier.now }
        requires waits { IsLastOf self.old.waiting.items place }
        requires arc { a < length arcs.now }
        requires here { mark_at self.old.marks.items (from_at arcs.now a) ≡ Mark.Open place }
        requires next { slice_index self.old.cursors.items (from_at arcs.now a) ≡ a + 1 }
        ensures { IfOk result (λ _. Steps arcs.now self.old self.new) }
    {
        self.follow_arc(arcs, place, a)?;
        self.cursors[arcs[a].from as usize] = earlier[a];
        Ok(())
    }

    /// Ends the wait of the last place that waits, whose node has no arc left.
    fn retreat(&mut self, arcs: &[Arc], place: usize)
        requires valid { IsValid arcs.now self.old }
        requires waits { IsLastOf self.old.waiting.items place }
        requires no_arc_left { slice_index self.old.cursors.items (slice_index self.old.path.items place) ≡ 0 }
        ensures { Steps arcs.now self.old self.new }
    {
        if self.boundaries[self.boundaries.len() - 1] == place {
            self.close_segment(arcs, place);
            return;
        }
        let _ = self.waiting.pop();
    }

    /// One step of the depth-first search, from the last place that waits.
    fn step(&mut self, arcs: &[Arc], earlier: &[usize]) -> Result<(), AllocError>
        requires valid { IsValid arcs.now self.old }
        requires range { InRange (length self.old.marks.items) arcs.now }
        requires earlier { HasEarlier arcs.now earlier.now }
        requires waits { 0 < length self.old.waiting.items }
        ensures { IfOk result (λ _. Steps arcs.now self.old self.new) }
    {
        let place = self.waiting[self.waiting.len() - 1];
        match self.next_arc(self.path[place]) {
            Some(a) => self.advance(arcs, earlier, place, a)?,
            None => self.retreat(arcs, place),
        }
        Ok(())
    }
}
