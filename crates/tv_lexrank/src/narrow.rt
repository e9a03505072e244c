// The numbers of covers.

ghost use Rattle.tv_farkas.specs.Refuting.{AreShort};
ghost use Rattle.tv_farkas.specs.Trees.{TreeNumbers};
ghost use Rattle.tv_linear.specs.Linear.{IsNarrow};
ghost use Rattle.tv_shape.specs.Narrow.{CountNarrow, CoverNarrow};

use tv_linear::{CoverTree, Row};

/// Each number of a row is below 2^62 in magnitude, whatever the row.
fn narrow_row(row: &Row)
    ensures { IsNarrow row.now }
{
    let _columns = row.columns();
}

/// So is a number of 32 bits.
fn narrow_count(count: u32)
    ensures { CountNarrow count }
{
    let _count = count;
}

/// So is each number of a cover, where its multipliers are.
pub fn narrow_tree(tree: &CoverTree)
    requires { TreeNumbers AreShort tree.now }
    ensures { CoverNarrow tree.now }
{
    match tree {
        CoverTree::Split(row, holds, fails) => {
            narrow_row(row);
            narrow_tree(holds);
            narrow_tree(fails);
        }
        CoverTree::Empty(_) => {}
        CoverTree::Into {
            target,
            fall,
            refutations: _,
        } => {
            narrow_count(*target);
            narrow_count(*fall);
        }
    }
}
