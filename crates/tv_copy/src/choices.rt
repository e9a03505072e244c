ghost use Rattle.std.specs.Prelude.{IfOk};
ghost use Rattle.tv_copy.specs.SameProofs.{SameChoice};

use crate::covers::copy_covers;
use std::alloc::{AllocError, Global};
use tv_linear::{Choice, ChoiceTree, copies, copies_of_lists};

/// A copy of the tree.
fn copy_tree(alloc: Global, tree: &ChoiceTree) -> Result<ChoiceTree, AllocError>
    ensures { IfOk result (SameChoice tree.now) }
{
    match tree {
        ChoiceTree::Split(row, holds, fails) => {
            let holds = Box::new(alloc, copy_tree(alloc, holds)?)?;
            let fails = Box::new(alloc, copy_tree(alloc, fails)?)?;
            Ok(ChoiceTree::Split(row.copy(alloc)?, holds, fails))
        }
        ChoiceTree::Empty(multipliers) => {
            Ok(ChoiceTree::Empty(Vec::from_slice(alloc, multipliers)?))
        }
        ChoiceTree::NoStep(covers) => Ok(ChoiceTree::NoStep(copy_covers(alloc, covers)?)),
        ChoiceTree::Take {
            taken,
            target,
            fall,
            draws,
            refutations,
        } => Ok(ChoiceTree::Take {
            taken: *taken,
            target: *target,
            fall: *fall,
            draws: copies(alloc, draws)?,
            refutations: copies_of_lists(alloc, refutations)?,
        }),
    }
}

/// A copy of the choice.
pub(crate) fn copy_choice(alloc: Global, choice: &Choice) -> Result<Choice, AllocError>
    ensures { IfOk result (SameChoice choice.now) }
{
    match Choice::new(copy_tree(alloc, choice.tree())?) {
        Some(copy) => Ok(copy),
        None => unreachable!(),
    }
}
