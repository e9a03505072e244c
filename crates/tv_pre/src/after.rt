// The nodes of formulas on the next states.

ghost use Rattle.std.specs.Prelude.{◌≡◌, ◌≤◌, [], ◌∷◌, IfOk};
ghost use Rattle.std.specs.Result.{IfErr};
ghost use Rattle.tv_formula.specs.Properties.{Property, none, more};
ghost use Rattle.tv_formula.specs.Properties as props;
ghost use Rattle.tv_cases.specs.Systems.{cases_of};
ghost use Rattle.tv_cert.specs.Obligations.{first_of};
ghost use Rattle.tv_region.specs.Regions.{IsPieceOf, IsRegion};
ghost use Rattle.tv_region.specs.StepRegions.{InState};
ghost use Rattle.tv_pre.specs.Pieces.{IsMarked, AreMarked};
ghost use Rattle.tv_pre.specs.Inclusions.{OfPiece, OfPieces, LeadsTo};
ghost use Rattle.tv_pre.specs.Questions.{IsRefusal, AsksOf, AsksNext};
ghost use Rattle.tv_pre.specs.Around.{next_of};
ghost use Rattle.tv_pre.specs.Parts.{IsPart, AreParts};

use crate::plain::plain_part;
use crate::proving::{PieceProver, prove_choice, prove_steps};
use crate::{Part, Setting};
use tv_cert::{Node, Proof};
use tv_farkas::CoverFault;
use tv_formula::Path;
use tv_linear::{Piece, Region};

/// Pieces from which each step, or some step, leads into a region.
#[derive(Drop)]
pub(crate) struct Before<'a> {
    pub path: Path,
    pub child: &'a Region,
}

impl PieceProver for Before<'_> {
    ghost of = { λ s about q. IsPieceOf about.variables about.locations q × IsRegion about.variables about.locations s.child.now
        × OfPiece about q (LeadsTo about s.path (InState s.child.now)) };

    ghost fits = { λ s about a p q. IsMarked p q × AreMarked (first_of a.kids) s.child.now.pieces.items };

    ghost owes = { λ s about a p. next_of about a.number s.path p (first_of a.kids) };

    ghost asks = { λ s about q. AsksNext about s.path q s.child.now.pieces.items };

    fn prove(
        &self,
        setting: &Setting,
        piece: &Piece,
        proofs: &mut Vec<Proof>,
    ) -> Result<(), CoverFault> {
        match self.path {
            Path::Every => match prove_steps(setting, piece, &self.child.pieces, proofs) {
                Err(fault) => Err(fault),
                Ok(()) => Ok(()),
            },
            Path::Any => match prove_choice(setting, piece, self.child, false, proofs) {
                Err(fault) => Err(fault),
                Ok(()) => Ok(()),
            },
        }
    }
}

/// The part of a formula on the next states: a region from which each step, or some step, leads into the region of the argument.
///
/// A refusal is of a question whether the steps from a piece by a case lead there, or whether from each state of a piece some step does.
pub fn next(
    setting: &Setting,
    path: Path,
    child: &Region,
    children: Vec<Node>,
    region: Region,
) -> Result<Part, CoverFault>
    requires splits { setting.now.budget.now.splits ≤ 128 }
    requires over { IsRegion (cases_of setting.now.about.now).variables (cases_of setting.now.about.now).locations region }
    requires child { IsRegion (cases_of setting.now.about.now).variables (cases_of setting.now.about.now).locations child.now }
    requires leads { let about = cases_of setting.now.about.now in
        OfPieces about region.pieces.items (LeadsTo about path (InState child.now)) }
    ensures region { IfOk result (λ part. part.region ≡ region) }
    ensures part { let system = cases_of setting.now.about.now in
        IfOk result (λ part. (f : Property) → AreParts system (more f none) (child.now ∷ []) children.items →
        IsPart system (props.next path f) region part.node) }
    ensures refusals { let system = cases_of setting.now.about.now in
        IfErr result (IsRefusal system setting.now.budget.now (AsksOf (λ q. AsksNext system path q child.now.pieces.items) region.pieces.items)) }
{
    let prover = Before { path, child };
    match plain_part(setting, &prover, region, children) {
        Err(fault) => Err(fault),
        Ok(part) => Ok(part),
    }
}
