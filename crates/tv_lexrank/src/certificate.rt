// Certificates of what is proved, and that every run ends.

ghost use Rattle.std.specs.Prelude.{◌≡◌, ◌≤◌, ◌∷◌, [], IfOk};
ghost use Rattle.std.specs.Result.{IfErr};
ghost use Rattle.tv_formula.specs.Formulas.{property_of};
ghost use Rattle.tv_formula.specs.Properties.{term};
ghost use Rattle.tv_cases.specs.Systems.{cases_of};
ghost use Rattle.tv_cert.specs.Claims.{claim_variables};
ghost use Rattle.tv_cover.specs.Covering.{IsCoverFault};
ghost use Rattle.tv_rank.specs.Ways.{rows_at};
ghost use Rattle.tv_lexrank.specs.Known.{AreKnown};
ghost use Rattle.tv_lexrank.specs.Nodes.{IsRankedNode, ShowsEnd};
ghost use Rattle.tv_lexrank.specs.Certified.{BeginsKnown, IsStartCover, IsRoot, IsProofOf, IsProofOfEnd};

use crate::closed::whole_cover;
use crate::falling::{Fall, with_fall};
use crate::known::known_at;
use std::alloc::{AllocError, Global};
use tv_cases::Cases;
use tv_cert::{Claim, Node, Verdict};
use tv_cover::{Covered, cover_one};
use tv_farkas::{Budget, CoverFault};
use tv_linear::{Cover, Poly, Region, copies};
use tv_shape::{Certificate, ShapeFault};

/// The certificate that a property holds at each start, made of a node that shows it and of a cover of the start by its pieces there.
pub fn proved_certificate(
    alloc: Global,
    about: &Cases,
    claim: &Claim,
    node: Node,
    start: Cover,
) -> Result<Certificate, AllocError>
    requires variables { claim_variables claim.now ≡ (cases_of about.now).variables }
    requires root { IsRoot (cases_of about.now) (property_of claim.now.proved) node start }
    ensures { IfOk result (IsProofOf (cases_of about.now) (property_of claim.now.proved)) }
{
    match Certificate::new(alloc, about, claim, Verdict::Proved(start), node) {
        Ok(certificate) => Ok(certificate),
        Err(ShapeFault::Memory) => Err(AllocError),
        Err(ShapeFault::Shape { .. }) => unreachable!(),
        Err(ShapeFault::Deep { .. }) => unreachable!(),
    }
}

/// The certificate that every run ends, made of a node that shows it: the start is covered by the node's piece there.
pub fn ranked_certificate(
    alloc: Global,
    about: &Cases,
    claim: &Claim,
    node: Node,
) -> Result<Certificate, AllocError>
    requires variables { claim_variables claim.now ≡ (cases_of about.now).variables }
    requires ends { property_of claim.now.proved ≡ term }
    requires ranked { IsRankedNode (cases_of about.now) node }
    ensures { IfOk result (λ c. IsProofOfEnd (cases_of about.now) c) }
{
    let start = whole_cover(alloc);
    proved_certificate(alloc, about, claim, node, start)
}

/// A cover of the start by the rows that are known there, which all values meet.
pub fn start_cover(
    alloc: Global,
    about: &Cases,
    known: &Region,
    budget: &Budget,
) -> Result<Cover, CoverFault>
    requires known { AreKnown (cases_of about.now) known.now.pieces.items }
    requires begins { BeginsKnown (cases_of about.now) known.now.pieces.items }
    requires splits { budget.now.splits ≤ 128 }
    ensures covers { let about = cases_of about.now in
        IfOk result (IsStartCover about.variables (rows_at known.now.pieces.items about.start)) }
    ensures refusals { let about = cases_of about.now in
        IfErr result (IsCoverFault about.variables (rows_at known.now.pieces.items about.start ∷ []) [] budget.now.pivots budget.now.splits) }
{
    let rows = known_at(&known.pieces, about.start());
    if rows.is_empty() {
        return Ok(whole_cover(alloc));
    }
    let all = Poly {
        columns: about.variables(),
        rows: Vec::new(alloc),
    };
    match cover_one(alloc, &all, copies(alloc, rows)?, budget) {
        Ok(Covered::Tree(cover)) => Ok(cover),
        Ok(Covered::Hole(_)) => unreachable!(),
        Err(fault) => Err(fault),
    }
}

/// The certificate that every run ends, made of a node that shows it of the known states, where all values at the start meet the rows that
/// are known there: a cover of the start by these rows, into which no fall is owed, shows it.
///
/// The refusals are those of that cover; none comes where no row is known at the start.
pub fn known_certificate(
    alloc: Global,
    about: &Cases,
    claim: &Claim,
    known: &Region,
    node: Node,
    budget: &Budget,
) -> Result<Certificate, CoverFault>
    requires variables { claim_variables claim.now ≡ (cases_of about.now).variables }
    requires ends { property_of claim.now.proved ≡ term }
    requires known { AreKnown (cases_of about.now) known.now.pieces.items }
    requires begins { BeginsKnown (cases_of about.now) known.now.pieces.items }
    requires ranked { ShowsEnd (cases_of about.now) known.now.pieces.items node }
    requires splits { budget.now.splits ≤ 128 }
    ensures proves { IfOk result (IsProofOfEnd (cases_of about.now)) }
    ensures refusals { let about = cases_of about.now in
        IfErr result (IsCoverFault about.variables (rows_at known.now.pieces.items about.start ∷ []) [] budget.now.pivots budget.now.splits) }
{
    let begins = match start_cover(alloc, about, known, budget) {
        Ok(begins) => begins,
        Err(fault) => return Err(fault),
    };
    let none = Fall {
        number: 0,
        lines: Vec::new(alloc),
    };
    match Cover::new(with_fall(alloc, begins.tree(), &none, 0)?) {
        Some(start) => Ok(proved_certificate(alloc, about, claim, node, start)?),
        None => unreachable!(),
    }
}
