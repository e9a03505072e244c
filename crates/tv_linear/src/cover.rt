ghost use Rattle.std.specs.Prelude.{◌≡◌, ◌≤◌, ◌↔◌, IsTrue, SomeIff};
ghost use Rattle.tv_linear.specs.Depth.{splits};

use crate::row::Row;
use std::marker::Model;

/// A proof that each integer point of a place is in some target.
#[derive(Drop)]
pub enum CoverTree {
    /// A proof where the row is met, and one where it is not.
    Split(Row, Box<CoverTree>, Box<CoverTree>),
    /// Multipliers that refute the rows of the place.
    Empty(Vec<i64>),
    /// For each row of the target, and each row of a fall of the ranks (0 where none is owed), multipliers
    /// that refute the rows of the place together with its denial.
    Into {
        target: u32,
        fall: u32,
        refutations: Vec<Vec<i64>>,
    },
}

/// A cover tree with at most 128 splits on a path.
#[derive(Drop)]
pub struct Cover {
    tree: CoverTree,
}

impl Model for Cover {
    ghost use Rattle.std.specs.Prelude.{◌≤◌};
    ghost use Rattle.std.specs.Coded.{codes};
    ghost use Rattle.tv_linear.specs.declared.cover.CoverTree.{CoverTree};
    ghost use Rattle.tv_linear.specs.contracts.cover.CoverTree as tree_code;
    ghost use Rattle.tv_linear.specs.Depth.{splits};

    ghost Value = { CoverTree };

    ghost coded = { Prim.hlevel (codes, tree_code.the_row.coded) };

    ghost view = { λ c. c.tree };

    ghost invariant = { λ c. splits c.tree ≤ 128 };
}

/// How many splits may lie on a path of a tree.
pub const MAX_SPLITS: u32 = 128;

impl Cover {
    /// The tree as a cover; `None` where more than 128 splits lie on a path. It goes no deeper than that.
    pub fn new(tree: CoverTree) -> Option<Cover>
        ensures { SomeIff result (splits tree ≤ 128) tree }
    {
        if has_splits_within(&tree, MAX_SPLITS) {
            Some(Cover { tree })
        } else {
            None
        }
    }

    pub fn tree(&self) -> &CoverTree
        ensures same { result.now ≡ self.now }
        ensures shallow { splits self.now ≤ 128 }
    {
        &self.tree
    }
}

/// Whether at most `most` splits lie on a path.
pub(crate) fn has_splits_within(tree: &CoverTree, most: u32) -> bool
    ensures { IsTrue result ↔ (splits tree.now ≤ most) }
{
    match tree {
        CoverTree::Split(_, holds, fails) => {
            most > 0 && has_splits_within(holds, most - 1) && has_splits_within(fails, most - 1)
        }
        _ => true,
    }
}
