ghost use Rattle.std.specs.Prelude.{◌≡◌, ◌≤◌, ◌↔◌, IsTrue, SomeIff, All};
ghost use Rattle.tv_linear.specs.Depth.{splits};
ghost use Rattle.tv_linear.specs.ChoiceDepth.{choice_splits};

use crate::cover::{Cover, MAX_SPLITS, has_splits_within};
use crate::row::Row;
use std::marker::Model;

/// A proof that from each integer point of a place some step leads into a target, or that no step leads
/// anywhere.
#[derive(Drop)]
pub enum ChoiceTree {
    /// A proof where the row is met, and one where it is not.
    Split(Row, Box<ChoiceTree>, Box<ChoiceTree>),
    /// Multipliers that refute the rows of the place.
    Empty(Vec<i64>),
    /// For each case from the location a cover without targets.
    NoStep(Vec<Cover>),
    /// The case that is taken, with a term for each of its draws, and the refutations that show its guards,
    /// the rows of the target and those of a fall of the ranks.
    Take {
        taken: u32,
        target: u32,
        fall: u32,
        draws: Vec<Row>,
        refutations: Vec<Vec<i64>>,
    },
}

/// A choice tree with at most 128 splits on a path, counting into the covers.
#[derive(Drop)]
pub struct Choice {
    tree: ChoiceTree,
}

impl Model for Choice {
    ghost use Rattle.std.specs.Prelude.{◌≤◌};
    ghost use Rattle.std.specs.Coded.{codes};
    ghost use Rattle.tv_linear.specs.declared.choice.ChoiceTree.{ChoiceTree};
    ghost use Rattle.tv_linear.specs.contracts.choice.ChoiceTree as tree_code;
    ghost use Rattle.tv_linear.specs.ChoiceDepth.{choice_splits};

    ghost Value = { ChoiceTree };

    ghost coded = { Prim.hlevel (codes, tree_code.the_row.coded) };

    ghost view = { λ c. c.tree };

    ghost invariant = { λ c. choice_splits c.tree ≤ 128 };
}

impl Choice {
    /// The tree as a choice; `None` where more than 128 splits lie on a path, counting into the covers of a
    /// `NoStep`. It goes no deeper than that.
    pub fn new(tree: ChoiceTree) -> Option<Choice>
        ensures { SomeIff result (choice_splits tree ≤ 128) tree }
    {
        if choice_has_splits_within(&tree, MAX_SPLITS) {
            Some(Choice { tree })
        } else {
            None
        }
    }

    pub fn tree(&self) -> &ChoiceTree
        ensures same { result.now ≡ self.now }
        ensures shallow { choice_splits self.now ≤ 128 }
    {
        &self.tree
    }
}

/// Whether at most `most` splits lie on a path.
fn choice_has_splits_within(tree: &ChoiceTree, most: u32) -> bool
    ensures { IsTrue result ↔ (choice_splits tree.now ≤ most) }
{
    match tree {
        ChoiceTree::Split(_, holds, fails) => {
            most > 0
                && choice_has_splits_within(holds, most - 1)
                && choice_has_splits_within(fails, most - 1)
        }
        ChoiceTree::NoStep(covers) => have_splits_within(covers, most),
        _ => true,
    }
}

/// Whether at most `most` splits lie on a path of each cover.
fn have_splits_within(covers: &[Cover], most: u32) -> bool
    ensures { IsTrue result ↔ All (λ cover. splits cover ≤ most) covers.now }
{
    covers
        .iter()
        .all(|cover| has_splits_within(cover.tree(), most))
}
