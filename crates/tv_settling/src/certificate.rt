// The certificate that no run comes to a location.

ghost use Rattle.std.specs.Prelude.{◌≡◌, ◌<◌, ◌≤◌, IfOk};
ghost use Rattle.std.specs.Result.{IfErr};
ghost use Rattle.tv_cases.specs.Systems.{cases_of};
ghost use Rattle.tv_formula.specs.Forms.{never_at};
ghost use Rattle.tv_formula.specs.Formulas.{property_of};
ghost use Rattle.tv_cert.specs.Claims.{claim_variables};
ghost use Rattle.tv_candidates.specs.Inductive.{IsInductive};
ghost use Rattle.tv_invariant.specs.Passes.{AreOver};
ghost use Rattle.tv_invariant.specs.Places.{rows_at};
ghost use Rattle.tv_lexrank.specs.Certified.{BeginsKnown, IsProofOf};
ghost use Rattle.tv_settling.specs.Closed.{HaveNoPoint};
ghost use Rattle.tv_settling.specs.Nodes.{Refuses};
ghost use Rattle.tv_settling.specs.Refusals.{RefusesSafety};

use crate::barrier::Barrier;
use crate::node::barrier_node;
use std::alloc::Global;
use tv_candidates::Candidate;
use tv_cases::Cases;
use tv_cert::Claim;
use tv_farkas::{Budget, CoverFault};
use tv_invariant::known_pieces;
use tv_lexrank::{narrow_tree, proved_certificate, start_cover};
use tv_shape::Certificate;

/// The certificate over rows that are known.
fn barrier_certificate(
    alloc: Global,
    barrier: &Barrier,
    claim: &Claim,
) -> Result<Certificate, CoverFault>
    requires variables { claim_variables claim.now ≡ (cases_of barrier.now.about.now).variables }
    requires safety { property_of claim.now.proved ≡ never_at barrier.now.location }
    requires begins { BeginsKnown (cases_of barrier.now.about.now) barrier.now.known.now.pieces.items }
    ensures proves { IfOk result (IsProofOf (cases_of barrier.now.about.now) (never_at barrier.now.location)) }
    ensures refusals { IfErr result (Refuses barrier.now) }
{
    let node = match barrier_node(alloc, barrier) {
        Ok(node) => node,
        Err(fault) => return Err(fault),
    };
    let start = match start_cover(alloc, barrier.about, barrier.known, barrier.budget) {
        Ok(start) => start,
        Err(fault) => return Err(fault),
    };
    narrow_tree(start.tree());
    Ok(proved_certificate(alloc, barrier.about, claim, node, start)?)
}

/// The certificate that no run comes to the location, made of an inductive list of rows. No integer point meets the rows at the location.
///
/// The known states are those that meet the rows where they are. Rows that others imply are left out. Such covers show that
/// they are closed: of the start, of each step over a case, and of the location, where they are none.
pub fn safety_certificate(
    alloc: Global,
    about: &Cases,
    claim: &Claim,
    location: u32,
    list: &[Candidate],
    budget: &Budget,
) -> Result<Certificate, CoverFault>
    requires variables { claim_variables claim.now ≡ (cases_of about.now).variables }
    requires location { location < (cases_of about.now).locations }
    requires safety { property_of claim.now.proved ≡ never_at location }
    requires over { AreOver (cases_of about.now).variables list.now }
    requires inductive { IsInductive (cases_of about.now) list.now }
    requires empty { HaveNoPoint (cases_of about.now).variables (rows_at location list.now) }
    requires splits { budget.now.splits ≤ 128 }
    ensures proves { IfOk result (IsProofOf (cases_of about.now) (never_at location)) }
    ensures refusals { IfErr result (RefusesSafety (cases_of about.now) list.now location budget.now) }
{
    let known = known_pieces(alloc, about, list)?;
    let barrier = Barrier {
        about,
        known: &known,
        location,
        budget,
    };
    match barrier_certificate(alloc, &barrier, claim) {
        Ok(certificate) => Ok(certificate),
        Err(fault) => Err(fault),
    }
}
