// The certificate that every run ends, under rows that are found.

ghost use Rattle.std.specs.Prelude.{◌≡◌, ◌≤◌, IfOk};
ghost use Rattle.std.specs.Result.{IfErr};
ghost use Rattle.tv_formula.specs.Formulas.{property_of};
ghost use Rattle.tv_formula.specs.Properties.{term};
ghost use Rattle.tv_cases.specs.Systems.{cases_of};
ghost use Rattle.tv_cert.specs.Claims.{claim_variables};
ghost use Rattle.tv_invariant.specs.Asking.{Gave, HaveNoMore};
ghost use Rattle.tv_shape.specs.Certificates.{IsSettling};
ghost use Rattle.tv_settling.specs.Ends.{RefusesFound};

use crate::attempts::later_end;
use crate::fault::EndFault;
use std::alloc::Global;
use tv_cases::Cases;
use tv_cert::Claim;
use tv_farkas::{Budget, CoverFault};
use tv_invariant::strengthen;
use tv_propose::Proposer;
use tv_shape::Certificate;

/// The certificate that every run ends, by ranks under the greatest inductive part of what the proposers offer.
///
/// Each proposer is asked until it offers no more, and is dropped then. After a refusal those stand that were not dropped.
pub fn found_end(
    alloc: Global,
    about: &Cases,
    claim: &Claim,
    proposers: &mut Vec<Box<dyn Proposer>>,
    budget: &Budget,
) -> Result<Certificate, EndFault>
    requires variables { claim_variables claim.now ≡ (cases_of about.now).variables }
    requires ends { property_of claim.now.proved ≡ term }
    requires splits { budget.now.splits ≤ 128 }
    ensures settled { IfOk result (IsSettling (cases_of about.now) claim.now) }
    ensures refusals { let about = cases_of about.now in
        IfErr result (RefusesFound about (Gave (λ p. rest p about) proposers.old.items) budget.now) }
    ensures kept { HaveNoMore (λ p. left p) proposers.old.items proposers.new.items }
{
    match strengthen(alloc, about, proposers, budget) {
        Err(CoverFault::Memory) => Err(EndFault::Memory),
        Err(fault) => Err(EndFault::Cover { fault }),
        Ok(list) => later_end(alloc, about, claim, &list, budget),
    }
}
