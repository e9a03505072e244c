// A list of candidates that was handed in.

ghost use Rattle.std.specs.Prelude.{◌≡◌, Some, length, List, reverse};
ghost use Rattle.tv_cases.specs.LinearCases.{CaseSystem};

use crate::proposer::Proposer;
use std::alloc::{AllocError, Global};
use tv_candidates::Candidate;
use tv_cases::Cases;

/// Offers the candidates of a list, in order.
#[derive(Drop)]
pub struct Scripted {
    /// Those that are still to come, the last first.
    reversed: Vec<Candidate>,
}

impl Scripted {
    /// Offers these candidates.
    pub fn new(candidates: Vec<Candidate>) -> Scripted
        ensures left { ⟦<Scripted as Proposer>⟧.left result ≡ length candidates.items }
        ensures rest { (about : CaseSystem) → ⟦<Scripted as Proposer>⟧.rest result about ≡ Some candidates.items }
    {
        let mut reversed = candidates;
        reversed.reverse();
        Scripted { reversed }
    }
}

impl Proposer for Scripted {
    ghost left = { λ s. length s.reversed.items };

    ghost rest = { λ s about. Some (reverse s.reversed.items) };

    fn left(&self) -> u64 {
        self.reversed.len() as u64
    }

    fn next(&mut self, _alloc: Global, _about: &Cases) -> Result<Option<Candidate>, AllocError> {
        Ok(self.reversed.pop())
    }
}
