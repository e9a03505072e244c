ghost use Rattle.std.specs.Prelude.{◌≤◌, ◌↔◌, IsTrue, All};
ghost use Rattle.tv_linear.specs.Depth.{splits};
ghost use Rattle.tv_linear.specs.ChoiceDepth.{choice_splits};
ghost use Rattle.tv_shape.specs.Depths.{proof_splits};

use tv_cert::Proof;
use tv_linear::{ChoiceTree, Cover, CoverTree};

/// Whether at most `most` splits lie on a path.
pub fn cover_goes_within(tree: &CoverTree, most: u32) -> bool
    ensures { IsTrue result ↔ (splits tree.now ≤ most) }
{
    match tree {
        CoverTree::Split(_, holds, fails) => {
            most > 0 && cover_goes_within(holds, most - 1) && cover_goes_within(fails, most - 1)
        }
        _ => true,
    }
}

fn covers_go_within(covers: &[Cover], most: u32) -> bool
    ensures { IsTrue result ↔ All (λ cover. splits cover ≤ most) covers.now }
{
    covers
        .iter()
        .all(|cover| cover_goes_within(cover.tree(), most))
}

fn choice_goes_within(tree: &ChoiceTree, most: u32) -> bool
    ensures { IsTrue result ↔ (choice_splits tree.now ≤ most) }
{
    match tree {
        ChoiceTree::Split(_, holds, fails) => {
            most > 0 && choice_goes_within(holds, most - 1) && choice_goes_within(fails, most - 1)
        }
        ChoiceTree::NoStep(covers) => covers_go_within(covers, most),
        _ => true,
    }
}

fn proof_goes_within(proof: &Proof, most: u32) -> bool
    ensures { IsTrue result ↔ (proof_splits proof.now ≤ most) }
{
    match proof {
        Proof::Covered(cover) => cover_goes_within(cover.tree(), most),
        Proof::Chosen(choice) => choice_goes_within(choice.tree(), most),
    }
}

/// Whether at most `most` splits lie on a path of each proof.
pub fn proofs_go_within(proofs: &[Proof], most: u32) -> bool
    ensures { IsTrue result ↔ All (λ p. proof_splits p ≤ most) proofs.now }
{
    proofs.iter().all(|proof| proof_goes_within(proof, most))
}
