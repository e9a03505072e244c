// Pieces of fixpoints that are done.

ghost use Rattle.std.specs.Prelude.{◌≡◌, map, IfOk};
ghost use Rattle.tv_cert.specs.declared.node.Kind.TheVariants as kind;
ghost use Rattle.tv_cert.specs.Claims.{about_with};
ghost use Rattle.tv_cert.specs.Obligations.{cover_of, end_sides, hold_side, first_of, second_of};
ghost use Rattle.tv_known.specs.Rounds.{EndSides};
ghost use Rattle.tv_region.specs.Regions.{IsPieceOf, IsRegion};
ghost use Rattle.tv_region.specs.StepRegions.{InState};
ghost use Rattle.tv_pre.specs.Pieces.{IsMarked, AreMarked};
ghost use Rattle.tv_pre.specs.Inclusions.{OfPiece};
ghost use Rattle.tv_pre.specs.Around.{two_ends};
ghost use Rattle.tv_pre.specs.Questions.{AsksEach};

use crate::proving::{PieceProver, prove_cover};
use crate::{Setting, Sides};
use tv_cert::Proof;
use tv_farkas::CoverFault;
use tv_formula::Shape;
use tv_linear::{Piece, Region};

/// The region of the argument that holds on the way.
pub(crate) fn hold_of<'a>(sides: &'a Sides) -> &'a Region
    ensures { result.now ≡ hold_side sides.now.shape sides.now.first.now sides.now.second.now }
{
    match sides.shape {
        Shape::Until | Shape::Weak => sides.first,
        Shape::Release | Shape::Strong => sides.second,
    }
}

/// Whether both arguments are to hold at the end.
pub(crate) fn has_two_ends(shape: Shape) -> bool
    ensures { result ≡ two_ends shape }
{
    match shape {
        Shape::Until | Shape::Weak => false,
        Shape::Release | Shape::Strong => true,
    }
}

/// Pieces that lie in the region of each end side.
#[derive(Drop)]
pub(crate) struct Ends<'a> {
    pub shape: Shape,
    pub first: &'a Region,
    pub second: &'a Region,
}

impl PieceProver for Ends<'_> {
    ghost of = { λ s about q. IsPieceOf about.variables about.locations q
        × IsRegion about.variables about.locations s.first.now × IsRegion about.variables about.locations s.second.now
        × OfPiece about q (EndSides s.shape (InState s.first.now) (InState s.second.now)) };

    ghost fits = { λ s about a p q. IsMarked p q × AreMarked (first_of a.kids) s.first.now.pieces.items
        × AreMarked (second_of a.kids) s.second.now.pieces.items };

    ghost owes = { λ s about a p. map (cover_of a.number kind.Done (about_with about) p) (end_sides s.shape (first_of a.kids) (second_of a.kids)) };

    ghost asks = { λ s about q. AsksEach q (end_sides s.shape s.first.now s.second.now) };

    fn prove(
        &self,
        setting: &Setting,
        piece: &Piece,
        proofs: &mut Vec<Proof>,
    ) -> Result<(), CoverFault> {
        if has_two_ends(self.shape) {
            match prove_cover(setting, piece, &self.first.pieces, proofs) {
                Err(fault) => return Err(fault),
                Ok(()) => {}
            }
            return match prove_cover(setting, piece, &self.second.pieces, proofs) {
                Err(fault) => Err(fault),
                Ok(()) => Ok(()),
            };
        }
        match prove_cover(setting, piece, &self.second.pieces, proofs) {
            Err(fault) => Err(fault),
            Ok(()) => Ok(()),
        }
    }
}
