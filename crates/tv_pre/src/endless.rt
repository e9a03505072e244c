// The node of endless runs: the negation of termination.

ghost use Rattle.std.specs.Prelude.{◌≡◌, ◌≤◌, IfOk};
ghost use Rattle.std.specs.Result.{IfErr};
ghost use Rattle.tv_formula.specs.declared.tree.Path.TheVariants.{Any};
ghost use Rattle.tv_formula.specs.Properties.{term, negated};
ghost use Rattle.tv_cases.specs.Systems.{cases_of};
ghost use Rattle.tv_region.specs.Regions.{IsRegion};
ghost use Rattle.tv_region.specs.StepRegions.{InState};
ghost use Rattle.tv_pre.specs.Inclusions.{OfPieces, LeadsTo};
ghost use Rattle.tv_pre.specs.Questions.{IsRefusal, AsksOf, AsksNext};
ghost use Rattle.tv_pre.specs.Parts.{IsPart};

use crate::after::Before;
use crate::plain::plain_with;
use crate::proving::prove_all;
use crate::{Part, Setting};
use tv_farkas::CoverFault;
use tv_formula::Path;
use tv_linear::Region;

/// The part of the negation of termination: a region. From each of its states some step leads into it, so that an endless run begins there.
///
/// A refusal is of a question whether from each state of a piece some step leads into the region.
pub fn never_ends(setting: &Setting, region: Region) -> Result<Part, CoverFault>
    requires splits { setting.now.budget.now.splits ≤ 128 }
    requires over { IsRegion (cases_of setting.now.about.now).variables (cases_of setting.now.about.now).locations region }
    requires leads { let about = cases_of setting.now.about.now in
        OfPieces about region.pieces.items (LeadsTo about Any (InState region)) }
    ensures region { IfOk result (λ part. part.region ≡ region) }
    ensures part { let about = cases_of setting.now.about.now in
        IfOk result (λ part. IsPart about (negated term) region part.node) }
    ensures refusals { let about = cases_of setting.now.about.now in
        let own = region.pieces.items in
        IfErr result (IsRefusal about setting.now.budget.now (AsksOf (λ q. AsksNext about Any q own) own)) }
{
    let alloc = setting.alloc;
    let mut proofs = Vec::new(alloc);
    let prover = Before {
        path: Path::Any,
        child: &region,
    };
    match prove_all(setting, &prover, &region.pieces, &mut proofs) {
        Err(fault) => return Err(fault),
        Ok(()) => {}
    }
    Ok(plain_with(alloc, setting.about, region, Vec::new(alloc), proofs)?)
}
