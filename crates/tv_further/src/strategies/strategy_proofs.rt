// The proofs of a strategy.

use crate::areas::area::place_among;
use crate::areas::passage::Passage;
use crate::areas::ranks::{Ranks, push_fall_over};
use crate::areas::sides::Sides;
use crate::areas::stages::Stages;
use crate::areas::taking::split_choice;
use crate::strategies::link::Link;
use crate::strategies::plan::{Leaf, Plan};
use std::alloc::AllocError;
use tv_cert::Proof;
use tv_linear::{Choice, ChoiceTree, Row, copies};
use tv_walks::{Effort, Question, Way, all_shown_by};

/// A plan for each area that goes on, and the ranks that fall over what is taken; without ranks none need fall.
#[derive(Drop)]
pub(crate) struct Strategy {
    pub plans: Vec<Plan>,
    pub leaves: Vec<Leaf>,
    /// The passages over the leaves, in their order, with the falls.
    pub passages: Vec<Passage>,
    pub ranks: Ranks,
}

/// What the proofs of a strategy speak of.
#[derive(Drop)]
pub(crate) struct Proving<'a> {
    pub question: &'a Question<'a>,
    pub stages: &'a Stages,
    pub ways: &'a [Way],
    pub links: &'a [Link],
    pub strategy: &'a Strategy,
}

impl Proving<'_> {
    /// Puts the rows of the fall over the passage at the end of the list, and gives the number of the rank that falls; 0 where none is to.
    fn push_fall(&self, passage: &Passage, owed: &mut Vec<Row>) -> Result<Option<u32>, AllocError> {
        let ranks = &self.strategy.ranks;
        if passage.to < self.stages.done || ranks.count == 0 {
            return Ok(Some(0));
        }
        let (Some(old), Some(new)) = (ranks.rows.get(passage.from), ranks.rows.get(passage.to))
        else {
            return Ok(None);
        };
        let fall = passage.fall as usize;
        if push_fall_over(self.question, &passage.effect, fall, old, new, owed)? {
            Ok(Some(passage.fall))
        } else {
            Ok(None)
        }
    }

    /// The number of the rank that falls over the passage, and the multipliers that show what is owed for it and the link; `None` where
    /// these were not found.
    fn refutations(
        &self,
        known: &[Row],
        link: &Link,
        passage: &Passage,
        effort: &mut Effort,
    ) -> Result<Option<(u32, Vec<Vec<i64>>)>, AllocError> {
        let alloc = self.question.alloc;
        let columns = self.question.about.variables() as usize;
        let mut owed = copies(alloc, &link.owed)?;
        let Some(fall) = self.push_fall(passage, &mut owed)? else {
            return Ok(None);
        };
        match all_shown_by(alloc, known, &owed, columns, effort)? {
            None => Ok(None),
            Some(lines) => Ok(Some((fall, lines))),
        }
    }

    /// The choice that takes the link of the leaf.
    fn take(
        &self,
        leaf: &Leaf,
        passage: &Passage,
        effort: &mut Effort,
    ) -> Result<Option<ChoiceTree>, AllocError> {
        let Some(link) = self.links.get(leaf.link) else {
            return Ok(None);
        };
        let Some(way) = self.ways.get(link.way) else {
            return Ok(None);
        };
        match self.refutations(&leaf.known, link, passage, effort)? {
            None => Ok(None),
            Some((fall, refutations)) => Ok(Some(ChoiceTree::Take {
                taken: way.number,
                target: place_among(&self.stages.areas, passage.to),
                fall,
                draws: copies(self.question.alloc, &way.draws)?,
                refutations,
            })),
        }
    }

    /// The choice that takes the link of the leaf at this place.
    fn take_at(&self, place: usize, effort: &mut Effort) -> Result<Option<ChoiceTree>, AllocError> {
        match (
            self.strategy.leaves.get(place),
            self.strategy.passages.get(place),
        ) {
            (Some(leaf), Some(passage)) => self.take(leaf, passage, effort),
            _ => Ok(None),
        }
    }
}

/// The choice that follows the plan.
fn choice_by(
    proving: &Proving,
    plan: &Plan,
    effort: &mut Effort,
) -> Result<Option<ChoiceTree>, AllocError> {
    match plan {
        Plan::Take(place) => proving.take_at(*place, effort),
        Plan::Split(row, holds, fails) => {
            let Some(holds) = choice_by(proving, holds, effort)? else {
                return Ok(None);
            };
            match choice_by(proving, fails, effort)? {
                None => Ok(None),
                Some(fails) => {
                    let alloc = proving.question.alloc;
                    Ok(Some(split_choice(alloc, row, holds, fails)?))
                }
            }
        }
    }
}

/// Puts the choice that follows the plan at the end of the list; whether there is one.
fn push_choice(
    proving: &Proving,
    plan: &Plan,
    effort: &mut Effort,
    proofs: &mut Vec<Proof>,
) -> Result<bool, AllocError> {
    let Some(tree) = choice_by(proving, plan, effort)? else {
        return Ok(false);
    };
    match Choice::new(tree) {
        None => Ok(false),
        Some(choice) => {
            proofs.push(Proof::Chosen(choice))?;
            Ok(true)
        }
    }
}

/// The proofs of the stages, in the order of the areas; `None` where one was not found.
pub(crate) fn proofs_of(
    proving: &Proving,
    sides: &Sides,
    effort: &mut Effort,
) -> Result<Option<Vec<Proof>>, AllocError> {
    let question = proving.question;
    let done = proving.stages.done;
    let mut proofs = Vec::new(question.alloc);
    for (place, area) in proving.stages.areas.iter().enumerate() {
        let shown = match place.checked_sub(done) {
            None => sides.push_done(question, area, effort, &mut proofs)?,
            Some(going) => match proving.strategy.plans.get(going) {
                None => false,
                Some(plan) => {
                    sides.push_hold(question, area, effort, &mut proofs)?
                        && push_choice(proving, plan, effort, &mut proofs)?
                }
            },
        };
        if !shown {
            return Ok(None);
        }
    }
    Ok(Some(proofs))
}
