// The prover: visits by ranks alone, or under rows that hold on every run.

ghost use Rattle.std.specs.Prelude.{◌≡◌, ◌≤◌, [], IfOk};
ghost use Rattle.std.specs.Result.{IfErr};
ghost use Rattle.tv_program.specs.Systems.{System};
ghost use Rattle.tv_formula.specs.Properties.{Property};
ghost use Rattle.tv_candidates.specs.Inductive.{IsInductive};
ghost use Rattle.tv_invariant.specs.Asking.{Gave, HaveNoMore};
ghost use Rattle.tv_invariant.specs.Passes.{AreOver};
ghost use Rattle.tv_finitely.specs.Finite.{HoldsFinitely};
ghost use Rattle.tv_finitely.specs.Found.{AreVisits};
ghost use Rattle.tv_finitely.specs.Refusals.{IsFirstFound, RefusesFirst, handed_on, IsClosed, unranked, RefusesRows, RefusesFinitely, IsRank};
ghost use Rattle.tv_finitely.specs.Splits.{split_of, IsSplitOf};

use crate::fault::VisitFault;
use crate::split_program::Split;
use crate::under::{Found, visits_under};
use crate::visits::Visits;
use std::alloc::Global;
use tv_candidates::Candidate;
use tv_farkas::{Budget, CoverFault};
use tv_invariant::{known_pieces, strengthen};
use tv_lexrank::{RankFault, bare_region};
use tv_propose::Proposer;

/// Visits by ranks alone; `None` where some set of cases is stuck.
fn first_visits(alloc: Global, about: &Split, budget: &Budget) -> Result<Option<Visits>, VisitFault>
    requires splits { budget.now.splits ≤ 128 }
    ensures found { IfOk result (IsFirstFound (split_of about.now)) }
    ensures refusals { IfErr result (RefusesFirst (split_of about.now) budget.now) }
{
    let known = bare_region(alloc, about.cases.variables(), about.cases.locations())?;
    match visits_under(alloc, about, &known, budget) {
        Ok(Found::Visits(visits)) => Ok(Some(visits)),
        Ok(Found::Stuck { .. }) => Ok(None),
        Err(RankFault::Solve { system, fault }) => Err(VisitFault::Solve { system, fault }),
        Err(RankFault::Memory) => Err(VisitFault::Memory),
        Err(RankFault::Open { .. }) => unreachable!(),
        Err(RankFault::Cover { .. }) => unreachable!(),
    }
}

/// A question of integer points was not settled, or there is no memory.
fn uncovered(fault: CoverFault) -> VisitFault
    ensures { result ≡ handed_on fault }
{
    match fault {
        CoverFault::Memory => VisitFault::Memory,
        fault => VisitFault::Cover { fault },
    }
}

/// Why there are no visits under known rows. The rows are closed.
fn unranked(fault: RankFault) -> VisitFault
    requires { IsClosed fault }
    ensures { result ≡ unranked fault }
{
    match fault {
        RankFault::Solve { system, fault } => VisitFault::Solve { system, fault },
        RankFault::Cover { fault } => uncovered(fault),
        RankFault::Memory => VisitFault::Memory,
        RankFault::Open { .. } => unreachable!(),
    }
}

/// Visits under the rows of an inductive list.
fn later_visits(
    alloc: Global,
    about: &Split,
    list: &[Candidate],
    budget: &Budget,
) -> Result<Visits, VisitFault>
    requires over { AreOver (split_of about.now).system.variables list.now }
    requires inductive { IsInductive (split_of about.now).system list.now }
    requires splits { budget.now.splits ≤ 128 }
    ensures visits { IfOk result (AreVisits (split_of about.now)) }
    ensures refusals { IfErr result (RefusesRows (split_of about.now) list.now budget.now) }
{
    let known = known_pieces(alloc, &about.cases, list)?;
    match visits_under(alloc, about, &known, budget) {
        Ok(Found::Visits(visits)) => Ok(visits),
        Ok(Found::Stuck { set, barriers }) => Err(VisitFault::Rank { set, barriers }),
        Err(fault) => Err(unranked(fault)),
    }
}

/// Visits under the greatest inductive part of what the proposers offer.
fn found_visits(
    alloc: Global,
    about: &Split,
    proposers: &mut Vec<Box<dyn Proposer>>,
    budget: &Budget,
) -> Result<Visits, VisitFault>
    requires splits { budget.now.splits ≤ 128 }
    ensures visits { IfOk result (AreVisits (split_of about.now)) }
    ensures refusals { let s = split_of about.now in
        IfErr result (RefusesFinitely s (Gave (λ p. rest p s.system) proposers.old.items) budget.now) }
    ensures asked { IfErr result (λ e. IsRank e → proposers.new.items ≡ []) }
    ensures kept { HaveNoMore (λ p. left p) proposers.old.items proposers.new.items }
{
    match strengthen(alloc, &about.cases, proposers, budget) {
        Err(CoverFault::Memory) => Err(VisitFault::Memory),
        Err(fault) => Err(VisitFault::Cover { fault }),
        Ok(list) => later_visits(alloc, about, &list, budget),
    }
}

/// Looks for visits of a split program: on every run of the program by which it is split the property then holds only finitely often.
///
/// The first attempt knows no rows. Where some set of cases is stuck there, and one of them enters, the proposers are asked: each until it
/// offers no more, and it is dropped then. The second attempt is made under the greatest inductive part of what they offer. After a refusal
/// those proposers stand that were not dropped.
///
/// `Rank` comes where a set is stuck under these rows, `Solve` where the named system is not settled, and `Cover` where it is not settled
/// which rows every run keeps to, or that it does.
pub fn prove_finitely(
    alloc: Global,
    about: &Split,
    proposers: &mut Vec<Box<dyn Proposer>>,
    budget: &Budget,
) -> Result<Visits, VisitFault>
    requires splits { budget.now.splits ≤ 128 }
    ensures accepted { IfOk result (AreVisits (split_of about.now)) }
    ensures finite { (p : System) → (f : Property) → IsSplitOf p f (split_of about.now) → IfOk result (λ _. HoldsFinitely p f) }
    ensures refusals { let s = split_of about.now in
        IfErr result (RefusesFinitely s (Gave (λ p. rest p s.system) proposers.old.items) budget.now) }
    ensures asked { IfErr result (λ e. IsRank e → proposers.new.items ≡ []) }
    ensures kept { HaveNoMore (λ p. left p) proposers.old.items proposers.new.items }
{
    match first_visits(alloc, about, budget) {
        Ok(Some(visits)) => Ok(visits),
        Ok(None) => found_visits(alloc, about, proposers, budget),
        Err(fault) => Err(fault),
    }
}
