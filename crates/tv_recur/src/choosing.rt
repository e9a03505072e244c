// Choices made of covers.

ghost use Rattle.std.specs.Prelude.{◌≡◌, IfOk};
ghost use Rattle.tv_recur.specs.Choosing.{IsChoiceOf, IsSplitOf, IsTakeOf};

use std::alloc::{AllocError, Global};
use tv_linear::{ChoiceTree, CoverTree, Row, copies_of_lists, copy_row, push_copies};

/// What a choice does where the cover that it is made of enters a target.
#[derive(Drop)]
pub(crate) struct Entered<'a> {
    /// The number of the case.
    pub number: u32,
    /// The place of the piece, among those at its location.
    pub place: u32,
    /// A term for each draw.
    pub draws: &'a [Row],
}

/// A split at a row, with the choices where it is met and where it is not.
fn split_of(
    alloc: Global,
    row: Row,
    holds: ChoiceTree,
    fails: ChoiceTree,
) -> Result<ChoiceTree, AllocError>
    ensures { IfOk result (IsSplitOf row holds fails) }
{
    let holds = Box::new(alloc, holds)?;
    let fails = Box::new(alloc, fails)?;
    Ok(ChoiceTree::Split(row, holds, fails))
}

/// The choice that takes the case into the piece.
fn take_of(alloc: Global, entered: &Entered, lines: &[Vec<i64>]) -> Result<ChoiceTree, AllocError>
    ensures { IfOk result (IsTakeOf entered.now lines.now) }
{
    let mut draws = Vec::new(alloc);
    push_copies(alloc, entered.draws, &mut draws)?;
    let refutations = copies_of_lists(alloc, lines)?;
    Ok(ChoiceTree::Take {
        taken: entered.number,
        target: entered.place,
        fall: 0,
        draws,
        refutations,
    })
}

/// The choice that the cover is, where it takes the case on entering a target.
pub(crate) fn choice_of(
    alloc: Global,
    tree: &CoverTree,
    entered: &Entered,
) -> Result<ChoiceTree, AllocError>
    ensures { IfOk result (IsChoiceOf entered.now.number entered.now.place entered.now.draws.now tree.now) }
{
    match tree {
        CoverTree::Split(row, holds, fails) => {
            let holds = choice_of(alloc, holds, entered)?;
            let fails = choice_of(alloc, fails, entered)?;
            split_of(alloc, copy_row(alloc, row)?, holds, fails)
        }
        CoverTree::Empty(multipliers) => {
            Ok(ChoiceTree::Empty(Vec::from_slice(alloc, multipliers)?))
        }
        CoverTree::Into {
            target: _,
            fall: _,
            refutations,
        } => take_of(alloc, entered, refutations),
    }
}
