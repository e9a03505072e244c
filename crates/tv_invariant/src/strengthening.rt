// The greatest inductive part of what proposers offer.

ghost use Rattle.std.specs.Prelude.{◌≡◌, ◌≤◌, [], IfOk};
ghost use Rattle.std.specs.Result.{IfErr};
ghost use Rattle.tv_cases.specs.Systems.{cases_of};
ghost use Rattle.tv_candidates.specs.Inductive.{IsInductive};
ghost use Rattle.tv_candidates.specs.Offered.{false_candidates};
ghost use Rattle.tv_invariant.specs.Asking.{Gave, HaveNoMore, IsStrengthened, HasFalseParts, RefusesStrengthening};
ghost use Rattle.tv_invariant.specs.Passes.{AreOver};

use crate::asking::ask_all;
use crate::inductive::largest_inductive;
use std::alloc::{AllocError, Global};
use tv_candidates::Candidate;
use tv_cases::Cases;
use tv_farkas::{Budget, CoverFault};
use tv_linear::{Row, push_item};
use tv_propose::Proposer;

/// The row that no point meets, at each location.
fn false_rows(alloc: Global, about: &Cases) -> Result<Vec<Candidate>, AllocError>
    ensures exact { IfOk result (λ v. v.items ≡ false_candidates (cases_of about.now)) }
    ensures over { IfOk result (λ v. AreOver (cases_of about.now).variables v.items) }
{
    let variables = about.variables();
    let mut list = Vec::new(alloc);
    'locations: for location in 0..about.locations() {
        let row = Row::zero(alloc, variables)?.with_constant(alloc, 1)?;
        push_item(&mut list, Candidate { location, row })?;
    }
    Ok(list)
}

/// The greatest inductive part of the false rows, one at each location, and of what the proposers offer and fits.
///
/// Each proposer is asked until it offers no more, and is dropped then. After a refusal those stand that were not dropped.
pub fn strengthen(
    alloc: Global,
    about: &Cases,
    proposers: &mut Vec<Box<dyn Proposer>>,
    budget: &Budget,
) -> Result<Vec<Candidate>, CoverFault>
    requires splits { budget.now.splits ≤ 128 }
    ensures largest { let about = cases_of about.now in
        IfOk result (λ part. IsStrengthened about (Gave (λ p. rest p about) proposers.old.items) part.items) }
    ensures inductive { IfOk result (λ part. IsInductive (cases_of about.now) part.items) }
    ensures over { IfOk result (λ part. AreOver (cases_of about.now).variables part.items) }
    ensures contains { IfOk result (λ part. HasFalseParts (cases_of about.now) part.items) }
    ensures asked { IfOk result (λ _. proposers.new.items ≡ []) }
    ensures kept { IfErr result (λ _. HaveNoMore (λ p. left p) proposers.old.items proposers.new.items) }
    ensures refusals { let about = cases_of about.now in
        let gave = Gave (λ p. rest p about) proposers.old.items in
        IfErr result (RefusesStrengthening about gave budget.now.pivots budget.now.splits) }
{
    let mut list = false_rows(alloc, about)?;
    ask_all(alloc, about, proposers, &mut list)?;
    match largest_inductive(alloc, about, list, budget) {
        Err(fault) => Err(fault),
        Ok(part) => Ok(part),
    }
}
