// The node of termination by rounds.

ghost use Rattle.std.specs.Prelude.{◌≡◌, ◌≤◌, ◌++◌, [], IfOk};
ghost use Rattle.std.specs.Result.{IfErr};
ghost use Rattle.tv_formula.specs.declared.tree.Path.TheVariants.{Every};
ghost use Rattle.tv_formula.specs.Properties.{term};
ghost use Rattle.tv_cases.specs.Systems.{cases_of};
ghost use Rattle.tv_region.specs.Regions.{IsPieceOf};
ghost use Rattle.tv_pre.specs.Ending.{IsEndLayer, AreEndLayers, AsksEndLayer, AsksEndLayers, IsEnding, end_owes};
ghost use Rattle.tv_pre.specs.Fixed.{IsJoined};
ghost use Rattle.tv_pre.specs.Inclusions.{OfPiece, LeadsTo};
ghost use Rattle.tv_pre.specs.Parts.{IsPart};
ghost use Rattle.tv_pre.specs.Pieces.{ArePieces, InPieces};
ghost use Rattle.tv_pre.specs.Questions.{IsRefusal, AsksSteps};
ghost use Rattle.tv_pre.specs.Ranked.{IsLayered};

use crate::coming::prove_falling_steps;
use crate::growing::{Grown, with_layer};
use crate::plain::part_of;
use crate::proving::{PieceProver, prove_all};
use crate::{Part, Setting};
use tv_cert::Proof;
use tv_farkas::CoverFault;
use tv_linear::{Piece, Region};

/// Pieces each step from which leads into the pieces of the rounds before.
#[derive(Drop)]
struct Descending<'a> {
    earlier: &'a [Piece],
}

impl PieceProver for Descending<'_> {
    ghost of = { λ s about q. IsPieceOf about.variables about.locations q × ArePieces about s.earlier.now
        × OfPiece about q (LeadsTo about Every (InPieces s.earlier.now)) };

    ghost fits = { λ s about a p q. IsLayered about.variables q [] s.earlier.now p a.pieces };

    ghost owes = { λ s about a p. end_owes about a.number a.pieces p };

    ghost asks = { λ s about q. AsksSteps about q s.earlier.now };

    fn prove(
        &self,
        setting: &Setting,
        piece: &Piece,
        proofs: &mut Vec<Proof>,
    ) -> Result<(), CoverFault> {
        match prove_falling_steps(setting, piece, self.earlier, &[], proofs) {
            Err(fault) => Err(fault),
            Ok(()) => Ok(()),
        }
    }
}

/// The node without pieces.
fn nothing(setting: &Setting) -> Grown
    ensures pieces { result.region.pieces.items ≡ [] }
    ensures ending { IsEnding (cases_of setting.now.about.now) result }
{
    let alloc = setting.alloc;
    let region = Region {
        variables: setting.about.variables(),
        locations: setting.about.locations(),
        pieces: Vec::new(alloc),
    };
    Grown {
        count: 0,
        round: 0,
        region,
        pieces: Vec::new(alloc),
        proofs: Vec::new(alloc),
    }
}

/// The node with one more layer, whose steps lead into the pieces that are there.
fn ended_by(setting: &Setting, grown: Grown, layer: Region) -> Result<Grown, CoverFault>
    requires splits { setting.now.budget.now.splits ≤ 128 }
    requires grown { IsEnding (cases_of setting.now.about.now) grown }
    requires layer { IsEndLayer (cases_of setting.now.about.now) grown.region.pieces.items layer }
    ensures region { IfOk result (λ g. g.region.pieces.items ≡ grown.region.pieces.items ++ layer.pieces.items) }
    ensures grown { IfOk result (IsEnding (cases_of setting.now.about.now)) }
    ensures refusals { let about = cases_of setting.now.about.now in
        IfErr result (IsRefusal about setting.now.budget.now (AsksEndLayer about grown.region.pieces.items layer)) }
{
    let Grown {
        count,
        round,
        region,
        pieces,
        mut proofs,
    } = grown;
    let prover = Descending {
        earlier: &region.pieces,
    };
    match prove_all(setting, &prover, &layer.pieces, &mut proofs) {
        Err(fault) => return Err(fault),
        Ok(()) => {}
    }
    let grown = Grown {
        count,
        round,
        region,
        pieces,
        proofs,
    };
    Ok(with_layer(setting, grown, layer)?)
}

/// The part of termination made of layers: each step from a state of a layer leads into states of the layers before it, so that there is
/// none from those of the first one.
///
/// The region has the pieces of the layers, in order, whose rank is the number of the layer, counted from 1. A refusal is of a question
/// whether the steps from a piece by a case lead into the layers before.
pub fn ends_by_rounds(setting: &Setting, layers: Vec<Region>) -> Result<Part, CoverFault>
    requires splits { setting.now.budget.now.splits ≤ 128 }
    requires layers { AreEndLayers (cases_of setting.now.about.now) [] layers.items }
    ensures region { IfOk result (λ part. IsJoined (cases_of setting.now.about.now) layers.items part.region) }
    ensures part { let about = cases_of setting.now.about.now in
        IfOk result (λ part. IsPart about term part.region part.node) }
    ensures refusals { let about = cases_of setting.now.about.now in
        IfErr result (IsRefusal about setting.now.budget.now (AsksEndLayers about [] layers.items)) }
{
    let mut grown = nothing(setting);
    let mut layers = layers;
    'rounds: while !layers.is_empty() {
        let layer = layers.remove(0);
        grown = match ended_by(setting, grown, layer) {
            Err(fault) => return Err(fault),
            Ok(grown) => grown,
        };
    }
    let Grown {
        count: _,
        round: _,
        region,
        pieces,
        proofs,
    } = grown;
    let children = Vec::new(setting.alloc);
    Ok(part_of(setting.alloc, region, pieces, 1, children, proofs)?)
}
