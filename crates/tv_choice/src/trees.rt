// Proof trees.

ghost use Rattle.std.specs.Prelude.{IfOk};
ghost use Rattle.tv_linear.specs.Linear.{IsNarrow};
ghost use Rattle.tv_farkas.specs.Trees.{TreeRows};
ghost use Rattle.tv_choice.specs.Settling.{IsSplitOf, IsTakeOf};

use crate::ways::Way;
use std::alloc::{AllocError, Global};
use tv_linear::{ChoiceTree, CoverTree, Row, push_copies};

/// Each split row of a cover is narrow, whatever the cover.
pub fn narrow_rows(tree: &CoverTree)
    ensures { TreeRows IsNarrow tree.now }
{
    if let CoverTree::Split(row, holds, fails) = tree {
        let _columns = row.columns();
        narrow_rows(holds);
        narrow_rows(fails);
    }
}

/// A split at a row, with the trees where it is met and where it is not.
pub fn split_of(
    alloc: Global,
    row: &Row,
    holds: ChoiceTree,
    fails: ChoiceTree,
) -> Result<ChoiceTree, AllocError>
    ensures { IfOk result (IsSplitOf row.now holds fails) }
{
    let _columns = row.columns();
    let row = row.copy(alloc)?;
    let holds = Box::new(alloc, holds)?;
    let fails = Box::new(alloc, fails)?;
    Ok(ChoiceTree::Split(row, holds, fails))
}

/// The way is taken.
pub fn take_of(alloc: Global, way: &Way, lists: Vec<Vec<i64>>) -> Result<ChoiceTree, AllocError>
    ensures { IfOk result (IsTakeOf way.now lists) }
{
    let mut draws = Vec::new(alloc);
    push_copies(alloc, &way.draws, &mut draws)?;
    Ok(ChoiceTree::Take {
        taken: way.taken,
        target: way.target,
        fall: 0,
        draws,
        refutations: lists,
    })
}
