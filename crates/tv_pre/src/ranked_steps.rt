// Steps over which the ranks of a program fall.

ghost use Rattle.std.specs.Prelude.{◌≡◌, ◌≤◌, ℕ, [], Contains, List, IfOk};
ghost use Rattle.std.specs.Result.{IfErr};
ghost use Rattle.tv_formula.specs.declared.tree.Path.TheVariants.{Every};
ghost use Rattle.tv_cases.specs.Systems.{cases_of};
ghost use Rattle.tv_cases.specs.Views.{case_view};
ghost use Rattle.tv_cert.specs.declared.node.Marked.{Marked};
ghost use Rattle.tv_cert.specs.Claims.{about_with};
ghost use Rattle.tv_cert.specs.Nodes.{pieces_of};
ghost use Rattle.tv_cert.specs.Obligations.{steps_of, step_fall};
ghost use Rattle.tv_region.specs.Regions.{IsPieceOf};
ghost use Rattle.tv_lexrank.specs.Shown.{IsShownIn, AreShown};
ghost use Rattle.tv_lexrank.specs.Steps.{IsRefutation};
ghost use Rattle.tv_pre.specs.Inclusions.{OfPiece, LeadsTo};
ghost use Rattle.tv_pre.specs.Lowering.{IsPlaced, ShowsRankedStep};
ghost use Rattle.tv_pre.specs.Offers.{Adds};
ghost use Rattle.tv_pre.specs.Pieces.{ArePieces, InPieces};
ghost use Rattle.tv_pre.specs.Questions.{steps, IsRefusal, AsksSteps};

use crate::lowering::step_lowered;
use crate::{RankedCases, Setting};
use tv_cases::Case;
use tv_cert::Proof;
use tv_farkas::CoverFault;
use tv_lexrank::{CaseShown, under_more};
use tv_linear::{Cover, CoverTree, Piece, Row, push_item};

/// The cover of a case that is never taken.
fn refuted(multipliers: Vec<i64>) -> Cover
    ensures { IsRefutation multipliers.items result }
{
    match Cover::new(CoverTree::Empty(multipliers)) {
        Some(cover) => cover,
        None => unreachable!(),
    }
}

/// A cover of a piece and a case by pieces that are done and pieces that go on, where each step leads into one of them: where the case is
/// never taken, what refutes it is all of the cover, and no question is asked.
fn step_ranked(
    setting: &Setting,
    piece: &Piece,
    case: &Case,
    into: &[Piece],
    done: &[Piece],
    shown: &CaseShown,
) -> Result<Cover, CoverFault>
    requires splits { setting.now.budget.now.splits ≤ 128 }
    requires piece { IsPieceOf (cases_of setting.now.about.now).variables (cases_of setting.now.about.now).locations piece.now }
    requires among { Contains (cases_of setting.now.about.now).cases (case_view case.now) }
    requires from { case.now.from ≡ piece.now.location }
    requires into { ArePieces (cases_of setting.now.about.now) into.now }
    requires inside { let about = cases_of setting.now.about.now in
        OfPiece about piece.now (LeadsTo about Every (InPieces into.now)) }
    requires shown { let about = cases_of setting.now.about.now in
        (ranked : List Marked) × IsShownIn about [] ranked (case_view case.now) shown.now }
    ensures shows { let about = cases_of setting.now.about.now in
        let case = case_view case.now in
        IfOk result (λ tree. (ranked : List Marked) → IsShownIn about [] ranked case shown.now →
        ShowsRankedStep about ranked piece.now case done.now into.now tree) }
    ensures refusals { let system = cases_of setting.now.about.now in
        IfErr result (IsRefusal system setting.now.budget.now (λ a. a ≡ steps piece.now (case_view case.now) into.now)) }
{
    let rows: &[Row] = &piece.poly.rows;
    match under_more(setting.alloc, shown, 0, rows.len())? {
        CaseShown::Untaken(multipliers) => Ok(refuted(multipliers)),
        CaseShown::Falls(fall) => match step_lowered(setting, piece, case, into, done, &fall) {
            Err(fault) => Err(fault),
            Ok(cover) => Ok(cover),
        },
    }
}

/// Adds a cover for each case from the location of a piece, each step from which leads into pieces that are done or lowers the ranks.
pub(crate) fn prove_ranked_steps(
    setting: &Setting,
    ranking: &RankedCases,
    piece: &Piece,
    into: &[Piece],
    done: &[Piece],
    proofs: &mut Vec<Proof>,
) -> Result<(), CoverFault>
    requires splits { setting.now.budget.now.splits ≤ 128 }
    requires piece { IsPieceOf (cases_of setting.now.about.now).variables (cases_of setting.now.about.now).locations piece.now }
    requires into { ArePieces (cases_of setting.now.about.now) into.now }
    requires inside { let about = cases_of setting.now.about.now in
        OfPiece about piece.now (LeadsTo about Every (InPieces into.now)) }
    requires ranked { let ranked = pieces_of ranking.now.node.now in
        AreShown (cases_of setting.now.about.now) [] ranked ranking.now.shown.now }
    ensures adds { let about = cases_of setting.now.about.now in
        let ranked = pieces_of ranking.now.node.now in
        IfOk result (λ _. (number : ℕ) (p : Marked) (all : List Marked) → IsPlaced ranked piece.now done.now into.now p all →
        Adds (steps_of number (about_with about) p all (step_fall (about_with about) p)) proofs.old.items proofs.new.items) }
    ensures refusals { let system = cases_of setting.now.about.now in
        IfErr result (IsRefusal system setting.now.budget.now (AsksSteps system piece.now into.now)) }
{
    let list = setting.about.list();
    'cases: for number in 0..list.len() {
        let case = &list[number];
        if case.from == piece.location {
            match step_ranked(setting, piece, case, into, done, &ranking.shown[number]) {
                Err(fault) => return Err(fault),
                Ok(cover) => push_item(proofs, Proof::Covered(cover))?,
            }
        }
    }
    Ok(())
}
