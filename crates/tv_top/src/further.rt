// A further search, where the first one leaves a property open.

ghost use Rattle.std.specs.Prelude.{IfOk, IfSome};
ghost use Rattle.tv_formula.specs.Properties.{Property};
ghost use Rattle.tv_cases.specs.Systems.{cases_of};
ghost use Rattle.tv_cert.specs.Claims.{IsClaim};
ghost use Rattle.tv_shape.specs.Certificates.{IsSettling};
ghost use Rattle.tv_top.specs.Searching.{IsOfOne, IsSameOrSettles};

use crate::answer::Answer;
use crate::cause::Cause;
use crate::finding::{budget_of, is_termination, told};
use crate::limits::{USUAL_PIECES, USUAL_PIVOTS, USUAL_SPLITS};
use crate::named_system::NamedSystem;
use crate::search::Search;
use crate::system_fault::SystemFault;
use crate::wanted::Wanted;
use std::alloc::{AllocError, Global};
use tv_candidates::Candidate;
use tv_farkas::CoverFault;
use tv_further::{further, look};
use tv_invariant::strengthen;
use tv_propose::Proposer;
use tv_rank::Name;
use tv_shape::Certificate;
use tv_split_ranks::{Budget as PlaceBudget, split_ranks};
use tv_walks::Budget;

/// A program of more cases than that is looked at by single states before rows and regions are sought, which may take long there.
const MANY_CASES: usize = 24;

/// Whether the program is looked at by single states first.
fn is_looked_at(search: &Search) -> bool {
    match search.task.wanted {
        Wanted::Counts(_) => false,
        _ => search.about.list().len() > MANY_CASES,
    }
}

/// A certificate that single states give, where the program is looked at by them first, if there is one.
pub(crate) fn looked_at(alloc: Global, search: &Search) -> Result<Option<Certificate>, AllocError>
    requires one { IsOfOne search.now }
    ensures { IfOk result (λ found. IfSome found (IsSettling (cases_of search.now.about.now) search.now.claim.now)) }
{
    if !is_looked_at(search) {
        return Ok(None);
    }
    match look(alloc, search.about, search.claim, &Budget::usual())? {
        None => Ok(None),
        Some(found) => Ok(Some(found.certificate)),
    }
}

/// The answer that single states give, where the program is looked at by them and they give one, and else the answer that was there.
pub(crate) fn or_looked(alloc: Global, search: &Search, answer: Answer) -> Answer
    requires one { IsOfOne search.now }
    ensures { (f : Property) → IsClaim search.now.claim.now f → IsSameOrSettles search.now f answer result }
{
    match looked_at(alloc, search) {
        Ok(Some(certificate)) => told(alloc, search, certificate),
        Ok(None) => answer,
        Err(_) => Answer::Memory,
    }
}

/// Whether the system is one of the search for ranks of a whole program without known rows.
fn is_of_ranks(system: &NamedSystem) -> bool {
    match system {
        NamedSystem::Searched(Name::Empty(_)) => true,
        NamedSystem::Searched(
            Name::Rank {
                component: _,
                round: _,
                falling: _,
            },
        ) => true,
        NamedSystem::Nested {
            component: _,
            depth: _,
        } => true,
        NamedSystem::Searched(_) | NamedSystem::Visited(_) => false,
    }
}

/// Whether the columns of the basis follow one another, as those of the basis that the solver begins with do: where an entry of that one is
/// too wide, it is a number of the program itself.
fn is_first_basis(basis: &[u32]) -> bool {
    for place in 1..basis.len() {
        let before = basis[place - 1];
        if basis[place] <= before || basis[place] - before > 1 {
            return false;
        }
    }
    true
}

/// Whether a limit that the words give, or a number of the program itself, is why a system was not settled.
fn is_given(search: &Search, fault: &SystemFault) -> bool {
    match fault {
        SystemFault::Width {
            basis,
            row: _,
            column: _,
        } => is_first_basis(basis),
        SystemFault::Scale { basis: _ } => false,
        SystemFault::Pivots { bases: _ } => search.task.limits.pivots < USUAL_PIVOTS,
        SystemFault::Size {
            rows: _,
            columns: _,
        } => false,
    }
}

/// Whether a further search is begun after the answer: where no ranks, no rows or no rounds were found, or what would have found them met
/// a limit, but not one that the words give, and not a number of the program itself. Ranks of a formula that is not termination are but one
/// way to show it, so there no limit that they met ends the search.
fn leaves_open(search: &Search, answer: &Answer) -> bool {
    match answer {
        Answer::Unknown(Cause::Unsolved { system, fault }) => {
            if is_of_ranks(system) && !is_termination(search.claim.proved()) {
                return true;
            }
            !is_given(search, fault)
        }
        Answer::Unknown(Cause::Spent { .. }) => search.task.limits.splits >= USUAL_SPLITS,
        Answer::Unknown(Cause::Composed { .. }) => true,
        Answer::Unknown(Cause::TooManyPieces { .. }) => {
            search.task.limits.disjuncts >= USUAL_PIECES
        }
        Answer::Unknown(Cause::Unranked { .. }) => true,
        Answer::Unknown(Cause::Weak { .. }) => true,
        Answer::Unknown(Cause::TooManyPaths { .. }) => true,
        Answer::Unknown(Cause::Drawn { .. }) => true,
        Answer::Unknown(Cause::Unsettled { .. }) => true,
        Answer::Unknown(Cause::WideComparison { .. }) => true,
        _ => false,
    }
}

/// Rows that every run keeps to, as far as they are found among what is offered.
fn known_rows(
    alloc: Global,
    search: &Search,
    proposers: &mut Vec<Box<dyn Proposer>>,
) -> Result<Vec<Candidate>, AllocError> {
    let budget = budget_of(&search.task.limits);
    match strengthen(alloc, search.about, proposers, &budget) {
        Ok(rows) => Ok(rows),
        Err(CoverFault::Memory) => Err(AllocError),
        Err(_) => Ok(Vec::new(alloc)),
    }
}

/// A certificate that a further search finds, if there is one: of walks and areas, and then of ranks of places that are split by rows.
fn found(
    alloc: Global,
    search: &Search,
    proposers: &mut Vec<Box<dyn Proposer>>,
) -> Result<Option<Certificate>, AllocError>
    requires one { IsOfOne search.now }
    ensures { IfOk result (λ found. IfSome found (IsSettling (cases_of search.now.about.now) search.now.claim.now)) }
{
    let known = known_rows(alloc, search, proposers)?;
    match further(alloc, search.about, search.claim, &known, &Budget::usual())? {
        None => split_ranks(
            alloc,
            search.about,
            search.claim,
            &known,
            &PlaceBudget::usual(),
        ),
        Some(found) => Ok(Some(found.certificate)),
    }
}

/// The answer of a further search where it finds a certificate, and else the answer that was there.
pub(crate) fn or_further(
    alloc: Global,
    search: &Search,
    proposers: &mut Vec<Box<dyn Proposer>>,
    answer: Answer,
) -> Answer
    requires one { IsOfOne search.now }
    ensures { (f : Property) → IsClaim search.now.claim.now f → IsSameOrSettles search.now f answer result }
{
    if !leaves_open(search, &answer) {
        return answer;
    }
    match found(alloc, search, proposers) {
        Ok(Some(certificate)) => told(alloc, search, certificate),
        Ok(None) => answer,
        Err(_) => Answer::Memory,
    }
}
