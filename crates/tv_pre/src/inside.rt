// Covers and choices that have no hole.

ghost use Rattle.std.specs.Prelude.{◌≡◌, ◌≤◌, ◌<◌, ◌-◌, ◌^◌, All, List, length, ℤ, IfOk, Contains};
ghost use Rattle.std.specs.Result.{IfErr};
ghost use Rattle.tv_linear.specs.declared.region.Piece.{Piece};
ghost use Rattle.tv_farkas.specs.Paths.{IsWholePoint};
ghost use Rattle.tv_cases.specs.Systems.{cases_of};
ghost use Rattle.tv_cases.specs.Views.{case_view};
ghost use Rattle.tv_cover.specs.Covering.{IsCoverFault};
ghost use Rattle.tv_cover.specs.Targets.{lists_of, AreEven, IsInTarget};
ghost use Rattle.tv_region.specs.Regions.{IsPieceOf, lists_at};
ghost use Rattle.tv_choice.specs.Leading.{piece_rows};
ghost use Rattle.tv_pre.specs.Parts.{joined_pieces};
ghost use Rattle.tv_pre.specs.Pieces.{ArePieces, InPieces};
ghost use Rattle.tv_pre.specs.Inclusions.{OfPiece, LeadsTo, Chooses};
ghost use Rattle.tv_pre.specs.Offers.{ShowsInside, ShowsStep, ShowsChoice};
ghost use Rattle.tv_pre.specs.Questions.{lies, steps, chooses, IsRefusal};
ghost use Rattle.tv_pre.specs.Starting.{CoversOrLeaves};
ghost use Rattle.tv_formula.specs.declared.tree.Path.TheVariants.{Every};

use crate::Setting;
use crate::targets::{targets_at, targets_before, targets_in};
use tv_cases::Case;
use tv_choice::{Chosen, choose};
use tv_cover::{Covered, cover};
use tv_farkas::CoverFault;
use tv_lexrank::narrow_tree;
use tv_linear::{Choice, Cover, Piece, Poly, Region, all_padded, push_copies};

/// A cover of a piece by these targets, or values in the piece that lie in none of them.
pub(crate) fn cover_at(
    setting: &Setting,
    piece: &Piece,
    targets: &[Poly],
) -> Result<Covered, CoverFault>
    requires splits { setting.now.budget.now.splits ≤ 128 }
    requires piece { IsPieceOf (cases_of setting.now.about.now).variables (cases_of setting.now.about.now).locations piece.now }
    requires same { All (AreEven (cases_of setting.now.about.now).variables) (lists_of targets.now) }
    requires count { length targets.now < 2 ^ 32 - 1 }
    ensures answers { IfOk result (CoversOrLeaves (cases_of setting.now.about.now) piece.now (lists_of targets.now)) }
    ensures refusals { let budget = setting.now.budget.now in
        let n = (cases_of setting.now.about.now).variables in
        IfErr result (IsCoverFault n (lists_of targets.now) (piece_rows piece.now) budget.pivots budget.splits) }
{
    let _variables = setting.about.variables();
    match cover(setting.alloc, &piece.poly, targets, setting.budget) {
        Err(fault) => Err(fault),
        Ok(Covered::Hole(values)) => Ok(Covered::Hole(values)),
        Ok(Covered::Tree(cover)) => {
            narrow_tree(cover.tree());
            Ok(Covered::Tree(cover))
        }
    }
}

/// A cover of a piece by these targets, where it lies in them.
fn cover_by(setting: &Setting, piece: &Piece, targets: &[Poly]) -> Result<Cover, CoverFault>
    requires splits { setting.now.budget.now.splits ≤ 128 }
    requires piece { IsPieceOf (cases_of setting.now.about.now).variables (cases_of setting.now.about.now).locations piece.now }
    requires same { All (AreEven (cases_of setting.now.about.now).variables) (lists_of targets.now) }
    requires count { length targets.now < 2 ^ 32 - 1 }
    requires inside { (xs : List ℤ) → IsWholePoint (cases_of setting.now.about.now).variables (piece_rows piece.now) xs →
        IsInTarget (lists_of targets.now) xs }
    ensures shows { let about = cases_of setting.now.about.now in
        let lists = lists_of targets.now in
        IfOk result (λ tree. (into : List Piece) → lists ≡ lists_at piece.now.location into → ShowsInside about piece.now into tree) }
    ensures refusals { let budget = setting.now.budget.now in
        let n = (cases_of setting.now.about.now).variables in
        IfErr result (IsCoverFault n (lists_of targets.now) (piece_rows piece.now) budget.pivots budget.splits) }
{
    match cover_at(setting, piece, targets) {
        Err(fault) => Err(fault),
        Ok(Covered::Hole(_)) => unreachable!(),
        Ok(Covered::Tree(cover)) => Ok(cover),
    }
}

/// A cover of a piece by the pieces at its location, where it lies inside.
pub(crate) fn cover_inside(
    setting: &Setting,
    piece: &Piece,
    into: &[Piece],
) -> Result<Cover, CoverFault>
    requires splits { setting.now.budget.now.splits ≤ 128 }
    requires piece { IsPieceOf (cases_of setting.now.about.now).variables (cases_of setting.now.about.now).locations piece.now }
    requires into { ArePieces (cases_of setting.now.about.now) into.now }
    requires inside { OfPiece (cases_of setting.now.about.now) piece.now (InPieces into.now) }
    ensures shows { IfOk result (ShowsInside (cases_of setting.now.about.now) piece.now into.now) }
    ensures refusals { let system = cases_of setting.now.about.now in
        IfErr result (IsRefusal system setting.now.budget.now (λ a. a ≡ lies piece.now into.now)) }
{
    let targets = targets_at(setting.alloc, into, piece.location)?;
    match cover_by(setting, piece, &targets) {
        Err(fault) => Err(fault),
        Ok(cover) => Ok(cover),
    }
}

/// A cover of a piece by the pieces of all regions at its location, where it lies in one of them.
pub(crate) fn cover_joined(
    setting: &Setting,
    piece: &Piece,
    regions: &[Region],
) -> Result<Cover, CoverFault>
    requires splits { setting.now.budget.now.splits ≤ 128 }
    requires piece { IsPieceOf (cases_of setting.now.about.now).variables (cases_of setting.now.about.now).locations piece.now }
    requires into { ArePieces (cases_of setting.now.about.now) (joined_pieces regions.now) }
    requires inside { OfPiece (cases_of setting.now.about.now) piece.now (InPieces (joined_pieces regions.now)) }
    ensures shows { IfOk result (ShowsInside (cases_of setting.now.about.now) piece.now (joined_pieces regions.now)) }
    ensures refusals { let system = cases_of setting.now.about.now in
        IfErr result (IsRefusal system setting.now.budget.now (λ a. a ≡ lies piece.now (joined_pieces regions.now))) }
{
    let targets = targets_in(setting.alloc, regions, piece.location)?;
    match cover_by(setting, piece, &targets) {
        Err(fault) => Err(fault),
        Ok(cover) => Ok(cover),
    }
}

/// A cover of a piece and a case by the pieces where it leads, where each step leads inside.
pub(crate) fn step_inside(
    setting: &Setting,
    piece: &Piece,
    case: &Case,
    into: &[Piece],
) -> Result<Cover, CoverFault>
    requires splits { setting.now.budget.now.splits ≤ 128 }
    requires piece { IsPieceOf (cases_of setting.now.about.now).variables (cases_of setting.now.about.now).locations piece.now }
    requires among { Contains (cases_of setting.now.about.now).cases (case_view case.now) }
    requires from { case.now.from ≡ piece.now.location }
    requires into { ArePieces (cases_of setting.now.about.now) into.now }
    requires inside { OfPiece (cases_of setting.now.about.now) piece.now (LeadsTo (cases_of setting.now.about.now) Every (InPieces into.now)) }
    ensures shows { IfOk result (ShowsStep (cases_of setting.now.about.now) piece.now (case_view case.now) into.now) }
    ensures refusals { let asked = steps piece.now (case_view case.now) into.now in
        IfErr result (IsRefusal (cases_of setting.now.about.now) setting.now.budget.now (λ a. a ≡ asked)) }
{
    let variables = setting.about.variables();
    let columns = variables + case.draws;
    let targets = match targets_before(setting.alloc, into, case, variables) {
        Err(fault) => return Err(fault),
        Ok(targets) => targets,
    };
    let mut rows = all_padded(setting.alloc, &piece.poly.rows, case.draws)?;
    push_copies(setting.alloc, &case.guards.rows, &mut rows)?;
    let ambient = Poly { columns, rows };
    match cover(setting.alloc, &ambient, &targets, setting.budget) {
        Err(fault) => Err(fault),
        Ok(Covered::Hole(_)) => unreachable!(),
        Ok(Covered::Tree(cover)) => {
            narrow_tree(cover.tree());
            Ok(cover)
        }
    }
}

/// A choice at a piece into the pieces of a region, where from each of its states a step leads there, or none may lead on.
pub(crate) fn choice_inside(
    setting: &Setting,
    piece: &Piece,
    into: &Region,
    stop: bool,
) -> Result<Choice, CoverFault>
    requires splits { setting.now.budget.now.splits ≤ 128 }
    requires piece { IsPieceOf (cases_of setting.now.about.now).variables (cases_of setting.now.about.now).locations piece.now }
    requires into { ArePieces (cases_of setting.now.about.now) into.now.pieces.items }
    requires leads { OfPiece (cases_of setting.now.about.now) piece.now (Chooses (cases_of setting.now.about.now) stop into.now.pieces.items) }
    ensures shows { IfOk result (ShowsChoice (cases_of setting.now.about.now) piece.now stop into.now.pieces.items) }
    ensures refusals { let system = cases_of setting.now.about.now in
        IfErr result (IsRefusal system setting.now.budget.now (λ a. a ≡ chooses piece.now stop into.now.pieces.items)) }
{
    let pieces: &[Piece] = &into.pieces;
    if pieces.len() >= 1 << 32 {
        return Err(CoverFault::Memory);
    }
    match choose(
        setting.alloc,
        setting.about,
        piece,
        into,
        stop,
        setting.budget,
    ) {
        Err(fault) => Err(fault),
        Ok(Chosen::Hole(_)) => unreachable!(),
        Ok(Chosen::Tree(choice)) => Ok(choice),
    }
}
