ghost use Rattle.std.specs.Prelude.{◌↔◌, IsTrue, Some};
ghost use Rattle.tv_linear.specs.Known.{as_given};
ghost use Rattle.tv_cases.specs.Systems.{cases_of};
ghost use Rattle.tv_cert.specs.Pieces.{place_of, rows_of};
ghost use Rattle.tv_cert.specs.Choices.{IsMetChoice};
ghost use Rattle.tv_cert.specs.Obligations.{OwedMet};
ghost use Rattle.tv_cert.specs.OwesViews.{owed_by, destination_owes};
ghost use Rattle.tv_cert.specs.declared.node.Proof.TheVariants.{Covered, Chosen};
ghost use Rattle.tv_check.specs.Settling.{first_proof};

use crate::choosing::choice_is_met;
use crate::steps::{rows_are_covered, step_is_covered};
use tv_cases::Cases;
use tv_cert::{Choosing, Destination, Marked, Owes, Proof};
use tv_linear::{ChoiceTree, CoverTree};
use tv_refute::Frames;

/// Whether the choice shows a step from the piece to the destination, or that there is none.
fn piece_choice_is_met(
    about: &Cases,
    piece: &Marked,
    stop: bool,
    destination: &Destination,
    tree: &ChoiceTree,
) -> bool
    ensures { let system = cases_of about.now in
        let owes = destination_owes system.variables piece.now destination.now in
        let known = as_given (rows_of piece.now) in
        IsTrue result ↔ IsMetChoice system.variables system.cases (place_of piece.now) stop owes known tree.now }
{
    let end = Frames::End;
    let place = Frames::Rows {
        rows: piece.rows(),
        above: &end,
    };
    let choosing = Choosing {
        about,
        piece,
        stop,
        destination,
    };
    choice_is_met(&choosing, &place, tree)
}

/// Whether the tree covers what is owed.
fn is_covered(about: &Cases, owes: &Owes, tree: &CoverTree) -> bool
    ensures { IsTrue result ↔ OwedMet (owed_by (cases_of about.now) owes.now) (Some (Covered tree.now)) }
{
    let columns = about.variables();
    match owes {
        Owes::Cover {
            piece,
            case: None,
            targets,
        } => rows_are_covered(columns, piece.rows(), targets, tree),
        Owes::Cover {
            piece,
            case: Some(case),
            targets,
        } => step_is_covered(columns, piece.rows(), case, targets, tree),
        Owes::Choice { .. } => false,
    }
}

/// Whether the tree chooses as is owed.
fn is_chosen(about: &Cases, owes: &Owes, tree: &ChoiceTree) -> bool
    ensures { IsTrue result ↔ OwedMet (owed_by (cases_of about.now) owes.now) (Some (Chosen tree.now)) }
{
    match owes {
        Owes::Choice {
            piece,
            stop,
            destination,
        } => piece_choice_is_met(about, piece, *stop, destination, tree),
        Owes::Cover { .. } => false,
    }
}

/// Whether the first of the proofs meets what is owed.
pub fn is_met(about: &Cases, owes: &Owes, proofs: &[Proof]) -> bool
    ensures { IsTrue result ↔ OwedMet (owed_by (cases_of about.now) owes.now) (first_proof proofs.now) }
{
    match proofs {
        [] => false,
        [Proof::Covered(cover), ..] => is_covered(about, owes, cover.tree()),
        [Proof::Chosen(choice), ..] => is_chosen(about, owes, choice.tree()),
    }
}
