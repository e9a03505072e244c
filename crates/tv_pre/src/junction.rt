// The nodes of conjunctions and disjunctions.

ghost use Rattle.std.specs.Prelude.{◌≡◌, ◌≤◌, ◌∷◌, [], All, map, IfOk};
ghost use Rattle.std.specs.Result.{IfErr};
ghost use Rattle.std.specs.List.{flat_map};
ghost use Rattle.tv_formula.specs.Properties.{Properties, all_of, some_of};
ghost use Rattle.tv_linear.specs.declared.region.Piece.{Piece};
ghost use Rattle.tv_linear.specs.declared.region.Region.{Region};
ghost use Rattle.tv_cases.specs.Systems.{cases_of};
ghost use Rattle.tv_cert.specs.declared.node.Kind.TheVariants as kind;
ghost use Rattle.tv_cert.specs.Claims.{about_with};
ghost use Rattle.tv_cert.specs.Obligations.{cover_of};
ghost use Rattle.tv_region.specs.Regions.{IsPieceOf, IsRegion};
ghost use Rattle.tv_region.specs.StepRegions.{InState};
ghost use Rattle.tv_pre.specs.Pieces.{ArePieces, InPieces, IsMarked, AreMarked};
ghost use Rattle.tv_pre.specs.Inclusions.{OfPiece, OfPieces};
ghost use Rattle.tv_pre.specs.Questions.{lies, IsRefusal, AsksOf, AsksEach};
ghost use Rattle.tv_pre.specs.Around.{AreKids};
ghost use Rattle.tv_pre.specs.Parts.{IsPart, AreParts, joined_pieces};

use crate::inside::cover_joined;
use crate::plain::plain_part;
use crate::proving::{PieceProver, prove_cover};
use crate::{Part, Setting};
use tv_cert::{Node, Proof};
use tv_farkas::CoverFault;
use tv_linear::{Piece, Region, push_item};

/// Pieces that lie in each of some regions.
#[derive(Drop)]
struct InEach<'a> {
    regions: &'a [Region],
}

impl PieceProver for InEach<'_> {
    ghost of = { λ s about q. IsPieceOf about.variables about.locations q
        × All (λ (r : Region). IsRegion about.variables about.locations r × OfPiece about q (InState r)) s.regions.now };

    ghost fits = { λ s about a p q. IsMarked p q × AreKids a.kids s.regions.now };

    ghost owes = { λ s about a p. map (cover_of a.number kind.Child (about_with about) p) a.kids };

    ghost asks = { λ s about q. AsksEach q s.regions.now };

    fn prove(
        &self,
        setting: &Setting,
        piece: &Piece,
        proofs: &mut Vec<Proof>,
    ) -> Result<(), CoverFault> {
        'regions: for region in self.regions {
            match prove_cover(setting, piece, &region.pieces, proofs) {
                Err(fault) => return Err(fault),
                Ok(()) => {}
            }
        }
        Ok(())
    }
}

/// Pieces that lie in some regions together.
#[derive(Drop)]
struct InSome<'a> {
    regions: &'a [Region],
}

impl PieceProver for InSome<'_> {
    ghost of = { λ s about q. let pieces = joined_pieces s.regions.now in
        IsPieceOf about.variables about.locations q × ArePieces about pieces × OfPiece about q (InPieces pieces) };

    ghost fits = { λ s about a p q. IsMarked p q × AreMarked (flat_map (λ kid. kid) a.kids) (joined_pieces s.regions.now) };

    ghost owes = { λ s about a p. cover_of a.number kind.Child (about_with about) p (flat_map (λ kid. kid) a.kids) ∷ [] };

    ghost asks = { λ s about q a. a ≡ lies q (joined_pieces s.regions.now) };

    fn prove(
        &self,
        setting: &Setting,
        piece: &Piece,
        proofs: &mut Vec<Proof>,
    ) -> Result<(), CoverFault> {
        match cover_joined(setting, piece, self.regions) {
            Err(fault) => Err(fault),
            Ok(cover) => {
                push_item(proofs, Proof::Covered(cover))?;
                Ok(())
            }
        }
    }
}

/// The part of a conjunction: a region that lies in the region of each argument.
///
/// The children are the nodes of the arguments, in order. A refusal is of a question whether a piece lies in the region of an argument.
pub fn each_of(
    setting: &Setting,
    regions: &[Region],
    children: Vec<Node>,
    region: Region,
) -> Result<Part, CoverFault>
    requires splits { setting.now.budget.now.splits ≤ 128 }
    requires over { IsRegion (cases_of setting.now.about.now).variables (cases_of setting.now.about.now).locations region }
    requires regions { All (IsRegion (cases_of setting.now.about.now).variables (cases_of setting.now.about.now).locations) regions.now }
    requires inside { All (λ r. OfPieces (cases_of setting.now.about.now) region.pieces.items (InState r)) regions.now }
    ensures region { IfOk result (λ part. part.region ≡ region) }
    ensures part { let system = cases_of setting.now.about.now in
        IfOk result (λ part. (fs : Properties) → AreParts system fs regions.now children.items → IsPart system (all_of fs) region part.node) }
    ensures refusals { let system = cases_of setting.now.about.now in
        IfErr result (IsRefusal system setting.now.budget.now (AsksOf (λ q. AsksEach q regions.now) region.pieces.items)) }
{
    let prover = InEach { regions };
    match plain_part(setting, &prover, region, children) {
        Err(fault) => Err(fault),
        Ok(part) => Ok(part),
    }
}

/// The part of a disjunction: a region that lies in the regions of all arguments together.
///
/// The children are the nodes of the arguments, in order. A refusal is of a question whether a piece lies in the pieces of them all.
pub fn one_of(
    setting: &Setting,
    regions: &[Region],
    children: Vec<Node>,
    region: Region,
) -> Result<Part, CoverFault>
    requires splits { setting.now.budget.now.splits ≤ 128 }
    requires over { IsRegion (cases_of setting.now.about.now).variables (cases_of setting.now.about.now).locations region }
    requires regions { All (IsRegion (cases_of setting.now.about.now).variables (cases_of setting.now.about.now).locations) regions.now }
    requires inside { OfPieces (cases_of setting.now.about.now) region.pieces.items (InPieces (joined_pieces regions.now)) }
    ensures region { IfOk result (λ part. part.region ≡ region) }
    ensures part { let system = cases_of setting.now.about.now in
        IfOk result (λ part. (fs : Properties) → AreParts system fs regions.now children.items → IsPart system (some_of fs) region part.node) }
    ensures refusals { let system = cases_of setting.now.about.now in
        IfErr result (IsRefusal system setting.now.budget.now (AsksOf (λ q a. a ≡ lies q (joined_pieces regions.now)) region.pieces.items)) }
{
    let prover = InSome { regions };
    match plain_part(setting, &prover, region, children) {
        Err(fault) => Err(fault),
        Ok(part) => Ok(part),
    }
}
