// Proposers that offer what is of no use.

ghost use Rattle.std.specs.Prelude.{◌^◌, ◌-◌, ◌<◌, None};

use std::alloc::{AllocError, Global};
use tv_candidates::Candidate;
use tv_cases::Cases;
use tv_linear::Row;
use tv_propose::Proposer;

/// Offers a row of zeros over `columns` columns at a location, again and again. After each, `left` is smaller by `less`.
#[derive(Drop)]
pub struct Hostile {
    pub left: u64,
    pub less: u64,
    pub location: u32,
    pub columns: u32,
    ghost some: { 0 < less },
    ghost bounded: { columns < 2 ^ 32 - 1 },
}

impl Proposer for Hostile {
    ghost left = { λ s. s.left };

    ghost rest = { λ _ _. None };

    fn left(&self) -> u64 {
        self.left
    }

    fn next(&mut self, alloc: Global, _about: &Cases) -> Result<Option<Candidate>, AllocError> {
        if self.left == 0 {
            return Ok(None);
        }
        let row = Row::zero(alloc, self.columns)?;
        self.left = self.left.saturating_sub(self.less);
        Ok(Some(Candidate {
            location: self.location,
            row,
        }))
    }
}
