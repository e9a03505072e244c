// Whether two regions have all states between them.

ghost use Rattle.std.specs.Prelude.{◌≡◌, ◌≤◌, [], ◌∷◌, IsTrue, IsFalse, IfOk};
ghost use Rattle.std.specs.Result.{IfErr};
ghost use Rattle.tv_cases.specs.Systems.{cases_of};
ghost use Rattle.tv_region.specs.Regions.{IsPieceOf, IsRegion};
ghost use Rattle.tv_pre.specs.Inclusions.{OfPiece, OfPieces};
ghost use Rattle.tv_pre.specs.Parts.{joined_pieces};
ghost use Rattle.tv_pre.specs.Pieces.{ArePieces, InPieces};
ghost use Rattle.tv_pre.specs.Questions.{lies, IsRefusal, AsksOf};
ghost use Rattle.tv_pre.specs.Unserved.{SomeIsOutside};

use crate::Setting;
use crate::inside::cover_at;
use crate::targets::targets_of_two;
use tv_cover::Covered;
use tv_farkas::CoverFault;
use tv_linear::{Piece, Region};

/// Whether each state of the piece is in one of the two regions.
fn lies_between(
    setting: &Setting,
    piece: &Piece,
    first: &Region,
    second: &Region,
) -> Result<bool, CoverFault>
    requires splits { setting.now.budget.now.splits ≤ 128 }
    requires piece { IsPieceOf (cases_of setting.now.about.now).variables (cases_of setting.now.about.now).locations piece.now }
    requires first { IsRegion (cases_of setting.now.about.now).variables (cases_of setting.now.about.now).locations first.now }
    requires second { IsRegion (cases_of setting.now.about.now).variables (cases_of setting.now.about.now).locations second.now }
    ensures inside { let about = cases_of setting.now.about.now in
        IfOk result (λ told. IsTrue told → OfPiece about piece.now (InPieces (joined_pieces (first.now ∷ second.now ∷ [])))) }
    ensures others { IfOk result (λ told. IsFalse told → SomeIsOutside (cases_of setting.now.about.now) first.now second.now) }
    ensures refusals { let about = cases_of setting.now.about.now in
        IfErr result (IsRefusal about setting.now.budget.now (λ a. a ≡ lies piece.now (joined_pieces (first.now ∷ second.now ∷ [])))) }
{
    let targets = targets_of_two(setting.alloc, first, second, piece.location)?;
    match cover_at(setting, piece, &targets) {
        Err(fault) => Err(fault),
        Ok(Covered::Hole(_)) => Ok(false),
        Ok(Covered::Tree(_)) => Ok(true),
    }
}

/// Whether each state of the pieces is in one of the two regions.
pub(crate) fn lie_between(
    setting: &Setting,
    pieces: &[Piece],
    first: &Region,
    second: &Region,
) -> Result<bool, CoverFault>
    requires splits { setting.now.budget.now.splits ≤ 128 }
    requires over { ArePieces (cases_of setting.now.about.now) pieces.now }
    requires first { IsRegion (cases_of setting.now.about.now).variables (cases_of setting.now.about.now).locations first.now }
    requires second { IsRegion (cases_of setting.now.about.now).variables (cases_of setting.now.about.now).locations second.now }
    ensures inside { let about = cases_of setting.now.about.now in
        IfOk result (λ told. IsTrue told → OfPieces about pieces.now (InPieces (joined_pieces (first.now ∷ second.now ∷ [])))) }
    ensures others { IfOk result (λ told. IsFalse told → SomeIsOutside (cases_of setting.now.about.now) first.now second.now) }
    ensures refusals { let about = cases_of setting.now.about.now in
        let into = joined_pieces (first.now ∷ second.now ∷ []) in
        IfErr result (IsRefusal about setting.now.budget.now (AsksOf (λ q a. a ≡ lies q into) pieces.now)) }
{
    'pieces: for piece in pieces {
        match lies_between(setting, piece, first, second) {
            Err(fault) => return Err(fault),
            Ok(false) => return Ok(false),
            Ok(true) => {}
        }
    }
    Ok(true)
}
