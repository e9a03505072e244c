ghost use Rattle.std.specs.Prelude.{IfOk};
ghost use Rattle.std.specs.List.{AllZip};
ghost use Rattle.tv_copy.specs.SameProofs.{SameCover};

use std::alloc::{AllocError, Global};
use tv_linear::{Cover, CoverTree, copies_of_lists, push_item};

/// A copy of the tree.
fn copy_tree(alloc: Global, tree: &CoverTree) -> Result<CoverTree, AllocError>
    ensures { IfOk result (SameCover tree.now) }
{
    match tree {
        CoverTree::Split(row, holds, fails) => {
            let holds = Box::new(alloc, copy_tree(alloc, holds)?)?;
            let fails = Box::new(alloc, copy_tree(alloc, fails)?)?;
            Ok(CoverTree::Split(row.copy(alloc)?, holds, fails))
        }
        CoverTree::Empty(multipliers) => Ok(CoverTree::Empty(Vec::from_slice(alloc, multipliers)?)),
        CoverTree::Into {
            target,
            fall,
            refutations,
        } => Ok(CoverTree::Into {
            target: *target,
            fall: *fall,
            refutations: copies_of_lists(alloc, refutations)?,
        }),
    }
}

/// A copy of the cover.
pub fn copy_cover(alloc: Global, cover: &Cover) -> Result<Cover, AllocError>
    ensures { IfOk result (SameCover cover.now) }
{
    match Cover::new(copy_tree(alloc, cover.tree())?) {
        Some(copy) => Ok(copy),
        None => unreachable!(),
    }
}

/// Copies of the covers, in order.
pub(crate) fn copy_covers(alloc: Global, covers: &[Cover]) -> Result<Vec<Cover>, AllocError>
    ensures { IfOk result (λ v. AllZip SameCover covers.now v.items) }
{
    let mut copies = Vec::new(alloc);
    'covers: for cover in covers {
        push_item(&mut copies, copy_cover(alloc, cover)?)?;
    }
    Ok(copies)
}
