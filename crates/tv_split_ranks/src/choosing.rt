// Choices that show that some step is possible.

use crate::budget::Spending;
use crate::covers::{Target, cover_into};
use crate::effect::Steps;
use crate::guards::{Way, ways_from};
use crate::place::Place;
use std::alloc::{AllocError, Global};
use tv_linear::{Choice, ChoiceTree, CoverTree, copies, copies_of_lists};

/// The ways as targets, by their places in the list.
fn targets_of(alloc: Global, ways: &[Way]) -> Result<Vec<Target>, AllocError> {
    let mut targets = Vec::new(alloc);
    let mut target: u32 = 0;
    for way in ways {
        let rows = copies(alloc, &way.rows)?;
        let fall = 0;
        targets.push(Target { rows, target, fall })?;
        target = target.saturating_add(1);
    }
    Ok(targets)
}

/// The case that is taken, where these lists of multipliers show its guards, wherever it leads.
fn taken_by(
    alloc: Global,
    way: &Way,
    refutations: &[Vec<i64>],
) -> Result<Option<ChoiceTree>, AllocError> {
    let Ok(taken) = u32::try_from(way.number) else {
        return Ok(None);
    };
    Ok(Some(ChoiceTree::Take {
        taken,
        target: 0,
        fall: 0,
        draws: copies(alloc, &way.draws)?,
        refutations: copies_of_lists(alloc, refutations)?,
    }))
}

/// The choice that the tree is, where a target is the way at its place.
fn choice_tree(
    alloc: Global,
    tree: &CoverTree,
    ways: &[Way],
) -> Result<Option<ChoiceTree>, AllocError> {
    match tree {
        CoverTree::Split(row, holds, fails) => {
            let Some(holds) = choice_tree(alloc, holds, ways)? else {
                return Ok(None);
            };
            let Some(fails) = choice_tree(alloc, fails, ways)? else {
                return Ok(None);
            };
            let holds = Box::new(alloc, holds)?;
            let fails = Box::new(alloc, fails)?;
            Ok(Some(ChoiceTree::Split(row.copy(alloc)?, holds, fails)))
        }
        CoverTree::Empty(multipliers) => Ok(Some(ChoiceTree::Empty(Vec::from_slice(
            alloc,
            multipliers,
        )?))),
        CoverTree::Into {
            target,
            fall: _,
            refutations,
        } => match ways.get(*target as usize) {
            None => Ok(None),
            Some(way) => taken_by(alloc, way, refutations),
        },
    }
}

/// The choice of some case at each state of the place; `None` where none was found.
pub(crate) fn some_step(
    steps: &Steps,
    place: &Place,
    spending: &mut Spending,
) -> Result<Option<Choice>, AllocError> {
    let alloc = steps.alloc;
    let ways = ways_from(steps, place.location)?;
    let targets = targets_of(alloc, &ways)?;
    let Some(cover) = cover_into(alloc, steps.columns, &place.rows, &targets, spending)? else {
        return Ok(None);
    };
    match choice_tree(alloc, cover.tree(), &ways)? {
        None => Ok(None),
        Some(tree) => Ok(Choice::new(tree)),
    }
}
