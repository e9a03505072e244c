// Whether no run comes to a location.

ghost use Rattle.std.specs.Prelude.{◌≡◌, ◌<◌, ◌≤◌, length, IfOk};
ghost use Rattle.tv_program.specs.Programs.{system_of};
ghost use Rattle.tv_formula.specs.Forms.{never_at};
ghost use Rattle.tv_formula.specs.Formulas.{property_of};
ghost use Rattle.tv_formula.specs.Properties.{Property};
ghost use Rattle.tv_cases.specs.Systems.{cases_of};
ghost use Rattle.tv_cert.specs.Claims.{IsClaim};
ghost use Rattle.tv_reaching.specs.FoundRuns.{IsFoundRun};
ghost use Rattle.tv_top.specs.Answers.{unknown, too_wide};
ghost use Rattle.tv_top.specs.Finding.{offers_of, IsLabel, IsWeakAt, AreTooManyAt, KeepsFrom};
ghost use Rattle.tv_top.specs.Searching.{IsOfOne, Answers, IsShownOrNot, IsReachedOrNot};

use crate::answer::Answer;
use crate::cause::Cause;
use crate::finding::{budget_of, told, uncovered};
use crate::search::Search;
use std::alloc::{AllocError, Global};
use tv_candidates::Candidate;
use tv_farkas::Budget;
use tv_points::PointFault;
use tv_program::Program;
use tv_propose::Proposer;
use tv_reaching::{Found, run_certificate};
use tv_search::{SearchFault, Searched, search as find_run};
use tv_settling::safety_certificate;

/// The label of a location.
fn label_of(alloc: Global, program: &Program, location: u32) -> Result<Vec<u8>, AllocError>
    requires { location < length (system_of program.now).locations }
    ensures { IfOk result (λ label. IsLabel (system_of program.now) location label.items) }
{
    Vec::from_slice(alloc, program.locations().text(location))
}

/// The cause: the rows that were found leave this point at the location.
fn weak(
    alloc: Global,
    program: &Program,
    location: u32,
    point: Vec<i128>,
) -> Result<Cause, AllocError>
    requires { location < length (system_of program.now).locations }
    ensures { IfOk result (IsWeakAt (system_of program.now) location point) }
{
    let label = label_of(alloc, program, location)?;
    Ok(Cause::Weak { label, point })
}

/// The cause: `count` paths may come to the location.
fn too_many(
    alloc: Global,
    program: &Program,
    location: u32,
    count: u64,
) -> Result<Cause, AllocError>
    requires { location < length (system_of program.now).locations }
    ensures { IfOk result (AreTooManyAt (system_of program.now) location count) }
{
    let label = label_of(alloc, program, location)?;
    Ok(Cause::TooManyPaths { label, count })
}

/// The answer with a cause.
pub(crate) fn unknown(cause: Result<Cause, AllocError>) -> Answer
    ensures { result ≡ unknown cause }
{
    match cause {
        Ok(cause) => Answer::Unknown(cause),
        Err(_) => Answer::Memory,
    }
}

/// The answer of rows that every run keeps to, and that no integer point meets at the location.
fn shown(
    alloc: Global,
    search: &Search,
    location: u32,
    list: &[Candidate],
    budget: &Budget,
) -> Answer
    requires one { IsOfOne search.now }
    requires never { property_of search.now.claim.now.proved ≡ never_at location }
    requires location { location < (cases_of search.now.about.now).locations }
    requires keeps { KeepsFrom (cases_of search.now.about.now) location list.now }
    requires splits { budget.now.splits ≤ 128 }
    ensures { (f : Property) → IsClaim search.now.claim.now f → IsShownOrNot search.now f location list.now budget.now result }
{
    match safety_certificate(alloc, search.about, search.claim, location, list, budget) {
        Ok(certificate) => told(alloc, search, certificate),
        Err(fault) => uncovered(fault),
    }
}

/// The answer where a run that was found has no certificate.
fn too_wide(fault: PointFault) -> Answer
    ensures { result ≡ too_wide fault }
{
    match fault {
        PointFault::Wide { column } => Answer::Unknown(Cause::Composed { column }),
        PointFault::Memory => Answer::Memory,
    }
}

/// The answer of a run that comes to the location.
fn reached(alloc: Global, search: &Search, found: &Found) -> Answer
    requires one { IsOfOne search.now }
    requires never { property_of search.now.claim.now.proved ≡ never_at found.now.location }
    requires run { IsFoundRun (cases_of search.now.about.now) found.now }
    ensures { (f : Property) → IsClaim search.now.claim.now f → IsReachedOrNot search.now f found.now result }
{
    match run_certificate(alloc, search.about, search.claim, found) {
        Ok(certificate) => told(alloc, search, certificate),
        Err(fault) => too_wide(fault),
    }
}

/// The answer to whether no run comes to the location, which is claimed.
pub(crate) fn safe(
    alloc: Global,
    search: &Search,
    location: u32,
    proposers: &mut Vec<Box<dyn Proposer>>,
) -> Answer
    requires one { IsOfOne search.now }
    requires never { property_of search.now.claim.now.proved ≡ never_at location }
    requires location { location < (cases_of search.now.about.now).locations }
    ensures { (f : Property) → IsClaim search.now.claim.now f →
        Answers (offers_of (λ p. rest p) proposers.old.items) search.now f result }
{
    let budget = budget_of(&search.task.limits);
    match find_run(alloc, search.about, location, proposers, &budget) {
        Ok(Searched::Safe(list)) => shown(alloc, search, location, &list, &budget),
        Ok(
            Searched::Reached {
                path,
                values,
                draws,
            },
        ) => reached(
            alloc,
            search,
            &Found {
                location,
                path: &path,
                values: &values,
                draws: &draws,
            },
        ),
        Err(SearchFault::Invariant { point }) => {
            unknown(weak(alloc, search.program, location, point))
        }
        Err(SearchFault::Paths { count, .. }) => {
            unknown(too_many(alloc, search.program, location, count))
        }
        Err(SearchFault::Cover { fault }) => uncovered(fault),
        Err(SearchFault::Memory) => Answer::Memory,
    }
}
