// Copies of proofs, in which targets are counted among the pieces that stay.

use crate::entering::{Target, led_to};
use crate::numbering::Numbering;
use crate::owner::Among;
use std::alloc::{AllocError, Global};
use tv_cases::Cases;
use tv_cert::Proof;
use tv_linear::{Choice, ChoiceTree, Cover, CoverTree, copies, copies_of_lists};

/// How the targets of a proof are counted.
#[derive(Clone, Copy)]
pub(crate) struct Counting<'a> {
    pub alloc: Global,
    pub about: &'a Cases,
    pub numbering: Numbering<'a>,
    pub among: Among,
}

impl Counting<'_> {
    /// The number of the target, which is at the location if there is one.
    fn number(&self, location: Option<u32>, number: u32) -> u32 {
        match location {
            None => number,
            Some(location) => {
                let target = Target { location, number };
                self.numbering.number_of(self.among.owner, target)
            }
        }
    }

    /// A copy of the cover.
    fn covered(&self, tree: &CoverTree) -> Result<CoverTree, AllocError> {
        match tree {
            CoverTree::Split(row, holds, fails) => {
                let holds = Box::new(self.alloc, self.covered(holds)?)?;
                let fails = Box::new(self.alloc, self.covered(fails)?)?;
                Ok(CoverTree::Split(row.copy(self.alloc)?, holds, fails))
            }
            CoverTree::Empty(multipliers) => {
                Ok(CoverTree::Empty(Vec::from_slice(self.alloc, multipliers)?))
            }
            CoverTree::Into {
                target,
                fall,
                refutations,
            } => Ok(CoverTree::Into {
                target: self.number(self.among.location, *target),
                fall: *fall,
                refutations: copies_of_lists(self.alloc, refutations)?,
            }),
        }
    }

    /// A copy of the choice; `None` where a cover in it is too deep.
    fn chosen(&self, tree: &ChoiceTree) -> Result<Option<ChoiceTree>, AllocError> {
        match tree {
            ChoiceTree::Split(row, holds, fails) => {
                let (Some(holds), Some(fails)) = (self.chosen(holds)?, self.chosen(fails)?) else {
                    return Ok(None);
                };
                let holds = Box::new(self.alloc, holds)?;
                let fails = Box::new(self.alloc, fails)?;
                let row = row.copy(self.alloc)?;
                Ok(Some(ChoiceTree::Split(row, holds, fails)))
            }
            ChoiceTree::Empty(multipliers) => {
                let multipliers = Vec::from_slice(self.alloc, multipliers)?;
                Ok(Some(ChoiceTree::Empty(multipliers)))
            }
            ChoiceTree::NoStep(covers) => self.stopped(covers),
            ChoiceTree::Take {
                taken,
                target,
                fall,
                draws,
                refutations,
            } => Ok(Some(ChoiceTree::Take {
                taken: *taken,
                target: self.number(led_to(self.about, *taken), *target),
                fall: *fall,
                draws: copies(self.alloc, draws)?,
                refutations: copies_of_lists(self.alloc, refutations)?,
            })),
        }
    }

    /// A copy of what shows that no step leads on; `None` where a cover in it is too deep.
    fn stopped(&self, covers: &[Cover]) -> Result<Option<ChoiceTree>, AllocError> {
        let mut list = Vec::new(self.alloc);
        for cover in covers {
            match Cover::new(self.covered(cover.tree())?) {
                None => return Ok(None),
                Some(cover) => list.push(cover)?,
            }
        }
        Ok(Some(ChoiceTree::NoStep(list)))
    }

    /// A copy of the cover; `None` where it is too deep.
    pub(crate) fn cover(&self, cover: &Cover) -> Result<Option<Cover>, AllocError> {
        Ok(Cover::new(self.covered(cover.tree())?))
    }

    /// A copy of the proof; `None` where it is too deep.
    pub(crate) fn proof(&self, proof: &Proof) -> Result<Option<Proof>, AllocError> {
        match proof {
            Proof::Covered(cover) => match self.cover(cover)? {
                None => Ok(None),
                Some(cover) => Ok(Some(Proof::Covered(cover))),
            },
            Proof::Chosen(choice) => match self.chosen(choice.tree())? {
                None => Ok(None),
                Some(tree) => match Choice::new(tree) {
                    None => Ok(None),
                    Some(choice) => Ok(Some(Proof::Chosen(choice))),
                },
            },
        }
    }
}
