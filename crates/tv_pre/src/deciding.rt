// Certificates of formulas over paths.

ghost use Rattle.std.specs.Prelude.{◌≡◌, ◌≤◌, IfOk, MatchOption};
ghost use Rattle.std.specs.Result.{IfErr};
ghost use Rattle.tv_formula.specs.Formulas.{property_of};
ghost use Rattle.tv_formula.specs.Normal.{negation};
ghost use Rattle.tv_cases.specs.Systems.{cases_of};
ghost use Rattle.tv_cert.specs.Claims.{claim_variables};
ghost use Rattle.tv_shape.specs.Certificates.{IsSettling};
ghost use Rattle.tv_pre.specs.Proving.{IsProofTried, IsDisproofTried, IsProofFault, IsDisproofFault, IsLeft, IsReported, ClaimHasRows, IsWideIn, IsUnproved};

use crate::gap::first_gap;
use crate::starting::{Inside, first_inside, start_covered};
use crate::tame::is_tame_claim;
use crate::wide::{Comparisons, comparisons_of};
use crate::{Found, Gap, Part, PreFault, Setting, found};
use std::alloc::AllocError;
use tv_cert::Claim;
use tv_cover::Covered;
use tv_lexrank::proved_certificate;
use tv_points::disproved_certificate;
use tv_shape::Certificate;

/// What came of one side of a claim.
#[derive(Drop)]
pub(crate) enum Tried {
    Settled(Certificate),
    /// The states at the start do not tell; where the region may lack states, why it does.
    Left(Option<Gap>),
}

/// Why there is no certificate.
#[derive(Drop)]
pub enum Unproved {
    /// A call on regions, or a question of them, was refused, or a system of the search for ranks.
    Refused(PreFault),
    /// Some initial state is not known to have the property, and none is known not to have it: a region may lack states, for this reason.
    Left(Gap),
    /// The same, and the comparison that is this subformula, of the normal form or of the negation, has no rows, as a number of a part of it
    /// or of a row is too wide.
    Wide { place: u32 },
}

/// The certificate that the property holds, where all states at the start lie in the region of its normal form.
fn try_proof(setting: &Setting, claim: &Claim) -> Result<Tried, PreFault>
    requires splits { setting.now.budget.now.splits ≤ 128 }
    requires variables { claim_variables claim.now ≡ (cases_of setting.now.about.now).variables }
    ensures tried { IfOk result (IsProofTried (cases_of setting.now.about.now) claim.now) }
    ensures refused { IfErr result (IsProofFault (cases_of setting.now.about.now) claim.now setting.now.budget.now) }
{
    let _limits = claim.proved().tree();
    let Found {
        part: Part { region, node },
        gap,
        size: _,
    } = match found(setting, claim.proved_aim()) {
        Err(fault) => return Err(fault),
        Ok(found) => found,
    };
    match start_covered(setting, &region) {
        Err(fault) => Err(PreFault::Cover { fault }),
        Ok(Covered::Hole(_)) => Ok(Tried::Left(gap)),
        Ok(Covered::Tree(start)) => {
            match proved_certificate(setting.alloc, setting.about, claim, node, start) {
                Err(_) => Err(PreFault::Memory),
                Ok(certificate) => Ok(Tried::Settled(certificate)),
            }
        }
    }
}

/// The certificate that the property fails, where some state at the start lies in the region of its negation.
fn try_disproof(setting: &Setting, claim: &Claim) -> Result<Tried, PreFault>
    requires splits { setting.now.budget.now.splits ≤ 128 }
    requires variables { claim_variables claim.now ≡ (cases_of setting.now.about.now).variables }
    ensures tried { IfOk result (IsDisproofTried (cases_of setting.now.about.now) claim.now) }
    ensures refused { IfErr result (IsDisproofFault (cases_of setting.now.about.now) claim.now setting.now.budget.now) }
{
    let _limits = claim.denied().tree();
    let Found {
        part: Part { region, node },
        gap,
        size: _,
    } = match found(setting, claim.denied_aim()) {
        Err(fault) => return Err(fault),
        Ok(found) => found,
    };
    match first_inside(setting, &region.pieces) {
        Err(fault) => Err(PreFault::Cover { fault }),
        Ok(None) => Ok(Tried::Left(gap)),
        Ok(Some(Inside { piece, values })) => {
            let (alloc, about) = (setting.alloc, setting.about);
            match disproved_certificate(alloc, about, claim, node, piece, values) {
                Err(_) => Err(PreFault::Memory),
                Ok(certificate) => Ok(Tried::Settled(certificate)),
            }
        }
    }
}

/// The number of the first comparison without rows, of the normal form or of the negation; none where each has rows.
fn first_wide(setting: &Setting, claim: &Claim) -> Result<Option<u32>, AllocError>
    requires variables { claim_variables claim.now ≡ (cases_of setting.now.about.now).variables }
    ensures { let about = cases_of setting.now.about.now in
        IfOk result (λ wide. MatchOption wide (ClaimHasRows about claim.now) (IsWideIn about claim.now)) }
{
    let variables = setting.about.variables();
    match comparisons_of(setting.alloc, claim.proved().tree(), variables)? {
        Comparisons::Wide { place } => return Ok(Some(place)),
        Comparisons::HaveRows { size: _ } => {}
    }
    match comparisons_of(setting.alloc, claim.denied().tree(), variables)? {
        Comparisons::Wide { place } => Ok(Some(place)),
        Comparisons::HaveRows { size: _ } => Ok(None),
    }
}

/// The gap that is reported: where the program is not tame for the claim, that of the draws, whichever stands first.
fn reported(setting: &Setting, claim: &Claim, gap: Gap) -> Gap
    ensures { IsReported (cases_of setting.now.about.now) claim.now gap result }
{
    if is_tame_claim(setting.about, claim) {
        gap
    } else {
        Gap::Inexact
    }
}

/// Why there is no certificate, where the start tells nothing of either side: a comparison has no rows; or the first gap, or that of the
/// draws. One is known of, as else the formula and its negation would both fail at a state at the start.
fn left(setting: &Setting, claim: &Claim, first: Option<Gap>, second: Option<Gap>) -> Unproved
    requires variables { claim_variables claim.now ≡ (cases_of setting.now.about.now).variables }
    requires denies { property_of claim.now.denied ≡ negation (property_of claim.now.proved) }
    requires left { IsLeft (cases_of setting.now.about.now) claim.now first second }
    ensures { IsUnproved (cases_of setting.now.about.now) claim.now setting.now.budget.now result }
{
    // From this call it is known that the start is a location.
    let _variables = setting.about.variables();
    match first_wide(setting, claim) {
        Err(_) => Unproved::Refused(PreFault::Memory),
        Ok(Some(place)) => Unproved::Wide { place },
        Ok(None) => match first_gap(first, second) {
            Some(gap) => Unproved::Left(reported(setting, claim, gap)),
            None => unreachable!(),
        },
    }
}

/// What comes of a claim whose proof was refused. Where that is a system of the search for ranks, the negation may tell still.
fn or_disproof(setting: &Setting, claim: &Claim, fault: PreFault) -> Result<Certificate, Unproved>
    requires splits { setting.now.budget.now.splits ≤ 128 }
    requires variables { claim_variables claim.now ≡ (cases_of setting.now.about.now).variables }
    requires refused { IsProofFault (cases_of setting.now.about.now) claim.now setting.now.budget.now fault }
    ensures settled { IfOk result (IsSettling (cases_of setting.now.about.now) claim.now) }
    ensures unproved { IfErr result (IsUnproved (cases_of setting.now.about.now) claim.now setting.now.budget.now) }
{
    match fault {
        PreFault::Rank { system, fault } => match try_disproof(setting, claim) {
            Ok(Tried::Settled(certificate)) => Ok(certificate),
            _ => Err(Unproved::Refused(PreFault::Rank { system, fault })),
        },
        fault => Err(Unproved::Refused(fault)),
    }
}

/// The certificate that a property holds at all initial states, or fails at one of them.
///
/// A region and a node are made of each subformula, bottom-up: of the normal form first, and where its region does not have all initial
/// states, or a system of ranks is refused, of its negation. Where neither region lacks states for a known gap, and each comparison has rows,
/// one of the two tells. A subformula is named as open only where the program is tame for the claim, and the rounds do not decide it.
pub fn prove(setting: &Setting, claim: &Claim) -> Result<Certificate, Unproved>
    requires splits { setting.now.budget.now.splits ≤ 128 }
    requires variables { claim_variables claim.now ≡ (cases_of setting.now.about.now).variables }
    requires denies { property_of claim.now.denied ≡ negation (property_of claim.now.proved) }
    ensures settled { IfOk result (IsSettling (cases_of setting.now.about.now) claim.now) }
    ensures unproved { IfErr result (IsUnproved (cases_of setting.now.about.now) claim.now setting.now.budget.now) }
{
    let first = match try_proof(setting, claim) {
        Err(fault) => return or_disproof(setting, claim, fault),
        Ok(Tried::Settled(certificate)) => return Ok(certificate),
        Ok(Tried::Left(gap)) => gap,
    };
    match try_disproof(setting, claim) {
        Err(fault) => Err(Unproved::Refused(fault)),
        Ok(Tried::Settled(certificate)) => Ok(certificate),
        Ok(Tried::Left(second)) => Err(left(setting, claim, first, second)),
    }
}
