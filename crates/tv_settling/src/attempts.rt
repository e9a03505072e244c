// Attempts at a ranking: without known rows, and under rows that hold on every run.

ghost use Rattle.std.specs.Prelude.{◌≡◌, ◌≤◌, IfOk, IsSome};
ghost use Rattle.std.specs.Result.{IfErr};
ghost use Rattle.tv_formula.specs.Formulas.{property_of};
ghost use Rattle.tv_formula.specs.Properties.{term};
ghost use Rattle.tv_cases.specs.Systems.{cases_of};
ghost use Rattle.tv_cert.specs.Claims.{claim_variables};
ghost use Rattle.tv_candidates.specs.Inductive.{IsInductive};
ghost use Rattle.tv_invariant.specs.Passes.{AreOver};
ghost use Rattle.tv_known.specs.Ranking.{HasLexicographicRanking};
ghost use Rattle.tv_shape.specs.Certificates.{IsSettling};
ghost use Rattle.tv_settling.specs.Ends.{IsFirstEnd, IsFirstFault, RefusesUnder, handed_on, IsClosed, unranked};

use crate::fault::EndFault;
use std::alloc::Global;
use tv_candidates::Candidate;
use tv_cases::Cases;
use tv_cert::Claim;
use tv_farkas::{Budget, CoverFault};
use tv_invariant::known_pieces;
use tv_lexrank::{
    RankFault, Ranked, first_attempt, known_certificate, lex_rank, ranked_certificate,
};
use tv_shape::Certificate;

/// The certificate that every run ends, by ranks alone; `None` where the attempt is stuck, which never comes where the cases have a
/// lexicographic linear ranking over the rationals.
pub fn first_end(
    alloc: Global,
    about: &Cases,
    claim: &Claim,
    budget: &Budget,
) -> Result<Option<Certificate>, EndFault>
    requires variables { claim_variables claim.now ≡ (cases_of about.now).variables }
    requires ends { property_of claim.now.proved ≡ term }
    ensures settled { IfOk result (IsFirstEnd (cases_of about.now) claim.now) }
    ensures never_stuck { HasLexicographicRanking (cases_of about.now) → IfOk result (λ found. IsSome found) }
    ensures refusals { IfErr result (IsFirstFault (cases_of about.now) budget.now) }
{
    match first_attempt(alloc, about, budget.pivots) {
        Ok(Ranked::Node { node, .. }) => {
            let certificate = ranked_certificate(alloc, about, claim, node)?;
            Ok(Some(certificate))
        }
        Ok(Ranked::Stuck { .. }) => Ok(None),
        Err(RankFault::Solve { system, fault }) => Err(EndFault::Solve { system, fault }),
        Err(RankFault::Memory) => Err(EndFault::Memory),
        Err(RankFault::Open { .. }) => unreachable!(),
        Err(RankFault::Cover { .. }) => unreachable!(),
    }
}

/// A question of integer points was not settled, or there is no memory.
fn uncovered(fault: CoverFault) -> EndFault
    ensures { result ≡ handed_on fault }
{
    match fault {
        CoverFault::Memory => EndFault::Memory,
        fault => EndFault::Cover { fault },
    }
}

/// Why the ranks under known rows give no certificate. The rows are closed.
fn unranked(fault: RankFault) -> EndFault
    requires { IsClosed fault }
    ensures { result ≡ unranked fault }
{
    match fault {
        RankFault::Solve { system, fault } => EndFault::Solve { system, fault },
        RankFault::Cover { fault } => uncovered(fault),
        RankFault::Memory => EndFault::Memory,
        RankFault::Open { .. } => unreachable!(),
    }
}

/// The certificate that every run ends, by ranks under the rows of an inductive list.
pub fn later_end(
    alloc: Global,
    about: &Cases,
    claim: &Claim,
    list: &[Candidate],
    budget: &Budget,
) -> Result<Certificate, EndFault>
    requires variables { claim_variables claim.now ≡ (cases_of about.now).variables }
    requires ends { property_of claim.now.proved ≡ term }
    requires over { AreOver (cases_of about.now).variables list.now }
    requires inductive { IsInductive (cases_of about.now) list.now }
    requires splits { budget.now.splits ≤ 128 }
    ensures settled { IfOk result (IsSettling (cases_of about.now) claim.now) }
    ensures refusals { IfErr result (RefusesUnder (cases_of about.now) list.now budget.now) }
{
    let known = known_pieces(alloc, about, list)?;
    match lex_rank(alloc, about, &known, budget) {
        Ok(Ranked::Node { node, .. }) => {
            match known_certificate(alloc, about, claim, &known, node, budget) {
                Ok(certificate) => Ok(certificate),
                Err(fault) => Err(uncovered(fault)),
            }
        }
        Ok(Ranked::Stuck { set, barriers }) => Err(EndFault::Rank { set, barriers }),
        Err(fault) => Err(unranked(fault)),
    }
}
