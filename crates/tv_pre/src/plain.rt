// Nodes all of whose pieces go on without ranks.

ghost use Rattle.std.specs.Prelude.{◌≡◌, ◌≤◌, All, Bool, IfOk};
ghost use Rattle.std.specs.Result.{IfErr};
ghost use Rattle.tv_cases.specs.LinearCases.{CaseSystem};
ghost use Rattle.tv_cases.specs.Systems.{cases_of};
ghost use Rattle.tv_region.specs.Regions.{IsRegion};
ghost use Rattle.tv_pre.specs.Making.{ArePiecesOf, IsMade, IsPlainPart, plain_pieces};
ghost use Rattle.tv_pre.specs.Questions.{IsRefusal, AsksOf};

use crate::marking::push_marked;
use crate::proving::{PieceProver, prove_all};
use crate::{Part, Setting};
use std::alloc::{AllocError, Global};
use tv_cases::Cases;
use tv_cert::{Mark, Marked, Node, Proof};
use tv_farkas::CoverFault;
use tv_linear::Region;
use tv_shape::node_of;

/// The part of these pieces and proofs. There is no room for 2^32 pieces.
pub(crate) fn part_of(
    alloc: Global,
    region: Region,
    pieces: Vec<Marked>,
    ranks: u32,
    children: Vec<Node>,
    proofs: Vec<Proof>,
) -> Result<Part, AllocError>
    ensures region { IfOk result (λ part. part.region ≡ region) }
    ensures made { (about : CaseSystem) (ends : Bool) → ArePiecesOf about region ends ranks pieces.items →
        IfOk result (λ part. IsMade about region ends ranks pieces.items children.items proofs.items part.node) }
{
    if pieces.len() >= 1 << 32 {
        return Err(AllocError);
    }
    let node = node_of(alloc, pieces, ranks, children, proofs)?;
    Ok(Part { region, node })
}

/// The part of a region whose pieces go on without ranks, with these proofs.
pub(crate) fn plain_with(
    alloc: Global,
    about: &Cases,
    region: Region,
    children: Vec<Node>,
    proofs: Vec<Proof>,
) -> Result<Part, AllocError>
    requires over { IsRegion (cases_of about.now).variables (cases_of about.now).locations region }
    ensures region { IfOk result (λ part. part.region ≡ region) }
    ensures made { let system = cases_of about.now in
        let pieces = plain_pieces system.variables region in
        IfOk result (λ part. (ends : Bool) → IsMade system region ends 0 pieces children.items proofs.items part.node) }
{
    let variables = about.variables();
    let mut pieces = Vec::new(alloc);
    push_marked(alloc, variables, &region.pieces, Mark::Go, &[], &mut pieces)?;
    Ok(part_of(alloc, region, pieces, 0, children, proofs)?)
}

/// The part of a region whose pieces owe what is proved, and go on without ranks.
pub(crate) fn plain_part<O: PieceProver>(
    setting: &Setting,
    prover: &O,
    region: Region,
    children: Vec<Node>,
) -> Result<Part, CoverFault>
    requires splits { setting.now.budget.now.splits ≤ 128 }
    requires over { IsRegion (cases_of setting.now.about.now).variables (cases_of setting.now.about.now).locations region }
    requires of { All (O.of prover.now (cases_of setting.now.about.now)) region.pieces.items }
    ensures region { IfOk result (λ part. part.region ≡ region) }
    ensures plain { let system = cases_of setting.now.about.now in
        IfOk result (λ part. IsPlainPart (O.fits prover.now system) (O.owes prover.now system) system region children.items part.node) }
    ensures refusals { let system = cases_of setting.now.about.now in
        IfErr result (IsRefusal system setting.now.budget.now (AsksOf (O.asks prover.now system) region.pieces.items)) }
{
    let mut proofs = Vec::new(setting.alloc);
    match prove_all(setting, prover, &region.pieces, &mut proofs) {
        Err(fault) => return Err(fault),
        Ok(()) => {}
    }
    Ok(plain_with(setting.alloc, setting.about, region, children, proofs)?)
}
