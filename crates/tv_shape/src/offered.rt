ghost use Rattle.std.specs.Prelude.{◌≡◌, ◌↔◌, ◌+◌, ◌≤◌, IsTrue};
ghost use Rattle.tv_linear.specs.Depth.{splits};
ghost use Rattle.tv_linear.specs.ChoiceDepth.{choice_splits};
ghost use Rattle.tv_cases.specs.Systems.{cases_of};
ghost use Rattle.tv_cert.specs.declared.node.Proof.TheVariants.{Covered, Chosen};
ghost use Rattle.tv_cert.specs.OwesViews.{owed_by};
ghost use Rattle.tv_cert.specs.Shapes.{ProofShape};
ghost use Rattle.tv_shape.specs.Offered.{FirstShape};

use crate::choices::choice_has_shape;
use crate::covers::cover_has_shape;
use tv_cases::Cases;
use tv_cert::{Choosing, Owes, Proof};
use tv_linear::{ChoiceTree, CoverTree};

/// Whether the cover has the shape that is owed.
fn cover_is_owed(about: &Cases, owes: &Owes, tree: &CoverTree) -> bool
    requires { splits tree.now ≤ 128 }
    ensures { IsTrue result ↔ ProofShape (owed_by (cases_of about.now) owes.now) (Covered tree.now) }
{
    let columns = about.variables() as usize;
    match owes {
        Owes::Cover {
            piece,
            case,
            targets,
        } => {
            let known = piece.rows().len() as u128;
            match case {
                None => cover_has_shape(tree, columns, known, targets),
                Some(case) => {
                    let guarded = known + case.guards.rows.len() as u128;
                    cover_has_shape(tree, columns + case.draws as usize, guarded, targets)
                }
            }
        }
        Owes::Choice { .. } => false,
    }
}

/// Whether the choice has the shape that is owed.
fn choice_is_owed(about: &Cases, owes: &Owes, tree: &ChoiceTree) -> bool
    requires { choice_splits tree.now ≤ 128 }
    ensures { IsTrue result ↔ ProofShape (owed_by (cases_of about.now) owes.now) (Chosen tree.now) }
{
    match owes {
        Owes::Choice {
            piece,
            stop,
            destination,
        } => {
            let choosing = Choosing {
                about,
                piece,
                stop: *stop,
                destination,
            };
            choice_has_shape(&choosing, piece.rows().len() as u128, tree)
        }
        Owes::Cover { .. } => false,
    }
}

/// Whether the first of the proofs has the shape that is owed.
pub fn first_has_shape(about: &Cases, owes: &Owes, proofs: &[Proof]) -> bool
    ensures { IsTrue result ↔ FirstShape (owed_by (cases_of about.now) owes.now) proofs.now }
{
    match proofs {
        [] => false,
        [Proof::Covered(cover), ..] => cover_is_owed(about, owes, cover.tree()),
        [Proof::Chosen(choice), ..] => choice_is_owed(about, owes, choice.tree()),
    }
}
