// Covers and choices of pieces whose ranks are numbers.

ghost use Rattle.std.specs.Prelude.{◌≡◌, ◌≤◌, Contains, IfOk, false};
ghost use Rattle.std.specs.Result.{IfErr};
ghost use Rattle.tv_formula.specs.declared.tree.Path.TheVariants.{Every};
ghost use Rattle.tv_cases.specs.Systems.{cases_of};
ghost use Rattle.tv_cases.specs.Views.{case_view};
ghost use Rattle.tv_region.specs.Regions.{IsPieceOf};
ghost use Rattle.tv_pre.specs.Pieces.{ArePieces, InPieces};
ghost use Rattle.tv_pre.specs.Inclusions.{OfPiece, LeadsTo, Chooses};
ghost use Rattle.tv_pre.specs.Questions.{steps, chooses, IsRefusal};
ghost use Rattle.tv_pre.specs.Ranked.{ShowsFallingStep, ShowsFallingChoice};

use crate::Setting;
use crate::inside::{choice_inside, step_inside};
use crate::trees::{count_at, falling_choice, falling_cover};
use tv_cases::Case;
use tv_farkas::CoverFault;
use tv_linear::{Choice, Cover, Piece, Region, Row};

/// A cover of a piece and a case by pieces that are done and pieces of lesser ranks, where each step leads into one of them.
pub(crate) fn step_falling(
    setting: &Setting,
    piece: &Piece,
    case: &Case,
    into: &[Piece],
    done: &[Piece],
) -> Result<Cover, CoverFault>
    requires splits { setting.now.budget.now.splits ≤ 128 }
    requires piece { IsPieceOf (cases_of setting.now.about.now).variables (cases_of setting.now.about.now).locations piece.now }
    requires among { Contains (cases_of setting.now.about.now).cases (case_view case.now) }
    requires from { case.now.from ≡ piece.now.location }
    requires into { ArePieces (cases_of setting.now.about.now) into.now }
    requires inside { let about = cases_of setting.now.about.now in
        OfPiece about piece.now (LeadsTo about Every (InPieces into.now)) }
    ensures shows { IfOk result (ShowsFallingStep (cases_of setting.now.about.now) piece.now (case_view case.now) done.now into.now) }
    ensures refusals { let system = cases_of setting.now.about.now in
        IfErr result (IsRefusal system setting.now.budget.now (λ a. a ≡ steps piece.now (case_view case.now) into.now)) }
{
    let cover = match step_inside(setting, piece, case, into) {
        Err(fault) => return Err(fault),
        Ok(cover) => cover,
    };
    let rows: &[Row] = &piece.poly.rows;
    let guards: &[Row] = &case.guards.rows;
    let count = rows.len() + guards.len();
    let first = count_at(done, case.to);
    let tree = falling_cover(setting.alloc, cover.tree(), count, first)?;
    match Cover::new(tree) {
        Some(cover) => Ok(cover),
        None => unreachable!(),
    }
}

/// A choice at a piece into pieces that are done and pieces of lesser ranks, where from each of its states a step leads into one of them.
pub(crate) fn choice_falling(
    setting: &Setting,
    piece: &Piece,
    into: &Region,
    done: &[Piece],
) -> Result<Choice, CoverFault>
    requires splits { setting.now.budget.now.splits ≤ 128 }
    requires piece { IsPieceOf (cases_of setting.now.about.now).variables (cases_of setting.now.about.now).locations piece.now }
    requires into { ArePieces (cases_of setting.now.about.now) into.now.pieces.items }
    requires leads { let about = cases_of setting.now.about.now in
        OfPiece about piece.now (Chooses about false into.now.pieces.items) }
    ensures shows { IfOk result (ShowsFallingChoice (cases_of setting.now.about.now) piece.now done.now into.now.pieces.items) }
    ensures refusals { let system = cases_of setting.now.about.now in
        IfErr result (IsRefusal system setting.now.budget.now (λ a. a ≡ chooses piece.now false into.now.pieces.items)) }
{
    let choice = match choice_inside(setting, piece, into, false) {
        Err(fault) => return Err(fault),
        Ok(choice) => choice,
    };
    let rows: &[Row] = &piece.poly.rows;
    let tree = falling_choice(
        setting.alloc,
        setting.about,
        done,
        choice.tree(),
        rows.len(),
    )?;
    match Choice::new(tree) {
        Some(choice) => Ok(choice),
        None => unreachable!(),
    }
}
