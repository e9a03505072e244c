// Whether every run ends.

ghost use Rattle.std.specs.Prelude.{◌≡◌, ◌≤◌};
ghost use Rattle.tv_program.specs.Programs.{system_of};
ghost use Rattle.tv_formula.specs.Formulas.{property_of};
ghost use Rattle.tv_formula.specs.Properties.{Property, term};
ghost use Rattle.tv_cases.specs.Systems.{cases_of};
ghost use Rattle.tv_cert.specs.Claims.{IsClaim};
ghost use Rattle.tv_points.specs.Nodes.{endless};
ghost use Rattle.tv_recur.specs.Recurring.{IsRecurrence};
ghost use Rattle.tv_settling.specs.Ends.{IsStuckAlone};
ghost use Rattle.tv_top.specs.Finding.{budget_of, offers_of, IsOpenEnd, Settles};
ghost use Rattle.tv_top.specs.Searching.{IsOfOne, Answers};
ghost use Rattle.tv_top.specs.Views.{wanted_view, task_view};

use crate::answer::Answer;
use crate::finding::{budget_of, told, uncovered};
use crate::further::{looked_at, or_looked};
use crate::nesting::ended;
use crate::search::Search;
use std::alloc::Global;
use tv_farkas::Budget;
use tv_propose::Proposer;
use tv_recur::{Recurrence, recur, recurrence_certificate};
use tv_settling::{first_end, found_end};

/// The answer to whether every run ends, under rows that are found.
fn ends_under_rows(
    alloc: Global,
    search: &Search,
    proposers: &mut Vec<Box<dyn Proposer>>,
    budget: &Budget,
) -> Answer
    requires one { IsOfOne search.now }
    requires ends { property_of search.now.claim.now.proved ≡ term }
    requires unsettled { IsOpenEnd (cases_of search.now.about.now) }
    requires budget { budget.now ≡ budget_of (task_view search.now.task.now).limits }
    requires splits { budget.now.splits ≤ 128 }
    ensures { (f : Property) → IsClaim search.now.claim.now f →
        Answers (offers_of (λ p. rest p) proposers.old.items) search.now f result }
{
    match found_end(alloc, search.about, search.claim, proposers, budget) {
        Ok(certificate) => told(alloc, search, certificate),
        Err(fault) => ended(alloc, search, budget, fault),
    }
}

/// The answer of a run that never ends.
fn endless_run(alloc: Global, search: &Search, recurrence: Recurrence) -> Answer
    requires one { IsOfOne search.now }
    requires denied { property_of search.now.claim.now.denied ≡ endless }
    requires recurrence { IsRecurrence (cases_of search.now.about.now) recurrence }
    ensures { (f : Property) → IsClaim search.now.claim.now f →
        Settles (wanted_view search.now.task.now.wanted) (system_of search.now.program.now) f (cases_of search.now.about.now) result }
{
    match recurrence_certificate(alloc, search.about, search.claim, recurrence) {
        Ok(certificate) => told(alloc, search, certificate),
        Err(_) => Answer::Memory,
    }
}

/// The answer to whether every run ends, where ranks alone do not show it.
fn ends_later(
    alloc: Global,
    search: &Search,
    proposers: &mut Vec<Box<dyn Proposer>>,
    budget: &Budget,
) -> Answer
    requires one { IsOfOne search.now }
    requires ends { property_of search.now.claim.now.proved ≡ term }
    requires stuck { IsStuckAlone (cases_of search.now.about.now) }
    requires budget { budget.now ≡ budget_of (task_view search.now.task.now).limits }
    requires splits { budget.now.splits ≤ 128 }
    ensures { (f : Property) → IsClaim search.now.claim.now f →
        Answers (offers_of (λ p. rest p) proposers.old.items) search.now f result }
{
    match recur(alloc, search.about, budget) {
        Ok(Some(recurrence)) => endless_run(alloc, search, recurrence),
        Ok(None) => ends_under_rows(alloc, search, proposers, budget),
        Err(fault) => uncovered(fault),
    }
}

/// The answer to whether every run ends, where ranks alone do not show it: of a program with many cases, single states may tell.
fn ends_unranked(
    alloc: Global,
    search: &Search,
    proposers: &mut Vec<Box<dyn Proposer>>,
    budget: &Budget,
) -> Answer
    requires one { IsOfOne search.now }
    requires ends { property_of search.now.claim.now.proved ≡ term }
    requires stuck { IsStuckAlone (cases_of search.now.about.now) }
    requires budget { budget.now ≡ budget_of (task_view search.now.task.now).limits }
    requires splits { budget.now.splits ≤ 128 }
    ensures { (f : Property) → IsClaim search.now.claim.now f →
        Answers (offers_of (λ p. rest p) proposers.old.items) search.now f result }
{
    match looked_at(alloc, search) {
        Ok(Some(certificate)) => told(alloc, search, certificate),
        Ok(None) => ends_later(alloc, search, proposers, budget),
        Err(_) => Answer::Memory,
    }
}

/// The answer to whether every run ends, which is claimed. Ranks come first, since they are found soon where there are any.
pub(crate) fn ends(alloc: Global, search: &Search, proposers: &mut Vec<Box<dyn Proposer>>) -> Answer
    requires one { IsOfOne search.now }
    requires ends { property_of search.now.claim.now.proved ≡ term }
    ensures { (f : Property) → IsClaim search.now.claim.now f →
        Answers (offers_of (λ p. rest p) proposers.old.items) search.now f result }
{
    let budget = budget_of(&search.task.limits);
    match first_end(alloc, search.about, search.claim, &budget) {
        Ok(Some(certificate)) => told(alloc, search, certificate),
        Ok(None) => ends_unranked(alloc, search, proposers, &budget),
        Err(fault) => {
            let answer = ended(alloc, search, &budget, fault);
            or_looked(alloc, search, answer)
        }
    }
}
