// Whether a formula over paths holds.

ghost use Rattle.std.specs.Prelude.{ℕ, ◌≤◌, ◌↔◌, IfOk, IsTrue, MatchOption};
ghost use Rattle.tv_program.specs.Programs.{system_of};
ghost use Rattle.tv_formula.specs.Properties.{Property};
ghost use Rattle.tv_cases.specs.Systems.{cases_of};
ghost use Rattle.tv_cert.specs.Claims.{IsClaim};
ghost use Rattle.tv_farkas.specs.declared.budget.Budget.{Budget};
ghost use Rattle.tv_pre.specs.Finding.{IsGapOf};
ghost use Rattle.tv_pre.specs.Proving.{IsUnproved, IsWideIn};
ghost use Rattle.tv_top.specs.Finding.{IsLabelAt, AreTooManyPieces, IsDrawnAt, NoneDraws};
ghost use Rattle.tv_top.specs.Searching.{IsOfOne, IsUnknown, IsSameOrSettles, AnswersRegion, AnswersRefusal, AnswersLeft, AnswersWide, AnswersUnproved, IsFormulaAnswer};

use crate::answer::Answer;
use crate::cause::Cause;
use crate::finding::{budget_of, told, uncovered};
use crate::safety::unknown;
use crate::search::Search;
use crate::system_fault::unsolved;
use std::alloc::{AllocError, Global};
use tv_cases::Cases;
use tv_causes::wide_column;
use tv_pre::{Gap, PreFault, Setting, Unproved, prove};
use tv_program::Program;
use tv_rank::Name;
use tv_region::RegionFault;

/// The label of a location, if the program has one with the number.
fn label_at(alloc: Global, program: &Program, location: u32) -> Result<Vec<u8>, AllocError>
    ensures { IfOk result (λ label. IsLabelAt (system_of program.now) location label.items) }
{
    let labels = program.locations();
    if location < labels.len() {
        Vec::from_slice(alloc, labels.text(location))
    } else {
        Ok(Vec::new(alloc))
    }
}

/// The cause: `count` pieces of a region are made at the location.
fn too_many_pieces(
    alloc: Global,
    program: &Program,
    location: u32,
    count: u64,
) -> Result<Cause, AllocError>
    ensures { IfOk result (AreTooManyPieces (system_of program.now) location count) }
{
    let label = label_at(alloc, program, location)?;
    Ok(Cause::TooManyPieces { label, count })
}

/// The answer where a call on regions was refused.
fn unregioned(alloc: Global, program: &Program, fault: RegionFault) -> Answer
    ensures { AnswersRegion (system_of program.now) fault result }
{
    match fault {
        RegionFault::Disjuncts { location, count } => {
            unknown(too_many_pieces(alloc, program, location, count))
        }
        RegionFault::Wide { column } => Answer::Unknown(Cause::Composed { column }),
        RegionFault::Solve { rows, fault } => unsolved(Name::Rows(rows), fault),
        RegionFault::Memory => Answer::Memory,
    }
}

/// The answer where a call on regions, or a question of them, was refused, or a system of the search for ranks was not settled.
fn refused(alloc: Global, program: &Program, fault: PreFault) -> Answer
    ensures { AnswersRefusal (system_of program.now) fault result }
{
    match fault {
        PreFault::Region { fault } => unregioned(alloc, program, fault),
        PreFault::Cover { fault } => uncovered(fault),
        PreFault::Rank { system, fault } => unsolved(system, fault),
        PreFault::Memory => Answer::Memory,
    }
}

/// The number of the first case that has a draw.
fn first_drawn(about: &Cases) -> Option<u32>
    ensures { MatchOption result (NoneDraws (cases_of about.now)) (IsDrawnAt (cases_of about.now)) }
{
    let list = about.list();
    let count = list.len() as u32;
    'cases: for number in 0..count {
        if list[number as usize].draws > 0 {
            return Some(number);
        }
    }
    None
}

/// The answer where a region may lack states.
fn left(about: &Cases, gap: Gap) -> Answer
    requires { IsGapOf (cases_of about.now) gap }
    ensures { AnswersLeft (cases_of about.now) gap result }
{
    match gap {
        Gap::Inexact => match first_drawn(about) {
            Some(case) => Answer::Unknown(Cause::Drawn { case }),
            None => unreachable!(),
        },
        Gap::Open { place } => Answer::Unknown(Cause::Unsettled { subformula: place }),
    }
}

/// The answer where a comparison of the formula or of its negation has no rows.
fn too_wide_comparison(alloc: Global, search: &Search) -> Answer
    requires { (place : ℕ) × IsWideIn (cases_of search.now.about.now) search.now.claim.now place }
    ensures { (f : Property) → IsClaim search.now.claim.now f → AnswersWide (cases_of search.now.about.now) f result }
{
    let variables = search.about.variables();
    match wide_column(
        alloc,
        search.claim.proved(),
        search.claim.denied(),
        variables,
    ) {
        Ok(Some(column)) => Answer::Unknown(Cause::WideComparison { column }),
        Ok(None) => unreachable!(),
        Err(_) => Answer::Memory,
    }
}

/// The answer where there is no certificate of a formula.
fn unproved(alloc: Global, search: &Search, why: Unproved) -> Answer
    requires { (budget : Budget) × IsUnproved (cases_of search.now.about.now) search.now.claim.now budget why }
    ensures { (f : Property) → IsClaim search.now.claim.now f →
        AnswersUnproved (system_of search.now.program.now) (cases_of search.now.about.now) f why result }
{
    match why {
        Unproved::Refused(fault) => refused(alloc, search.program, fault),
        Unproved::Left(gap) => left(search.about, gap),
        Unproved::Wide { place: _ } => too_wide_comparison(alloc, search),
    }
}

/// The answer to what is claimed, which is not that every run ends, by regions.
pub(crate) fn over_paths(alloc: Global, search: &Search) -> Answer
    requires one { IsOfOne search.now }
    ensures { (f : Property) → IsClaim search.now.claim.now f → IsFormulaAnswer search.now f result }
{
    let budget = budget_of(&search.task.limits);
    let setting = Setting {
        alloc,
        about: search.about,
        budget: &budget,
    };
    match prove(&setting, search.claim) {
        Ok(certificate) => told(alloc, search, certificate),
        Err(why) => unproved(alloc, search, why),
    }
}

/// Whether it is not known whether the property holds.
fn is_unknown(answer: &Answer) -> bool
    ensures { IsTrue result ↔ IsUnknown answer.now }
{
    match answer {
        Answer::Unknown(_) => true,
        _ => false,
    }
}

/// Whether the rows that were found leave a point at the location that no run is to come to.
fn is_weak(answer: &Answer) -> bool {
    match answer {
        Answer::Unknown(Cause::Weak { label: _, point: _ }) => true,
        _ => false,
    }
}

/// The answer by regions where rows do not exclude a location and regions settle it, and else the answer that was there.
pub(crate) fn or_over_paths(alloc: Global, search: &Search, answer: Answer) -> Answer
    requires one { IsOfOne search.now }
    ensures { (f : Property) → IsClaim search.now.claim.now f → IsSameOrSettles search.now f answer result }
{
    if !is_weak(&answer) {
        return answer;
    }
    let by_regions = over_paths(alloc, search);
    if is_unknown(&by_regions) {
        answer
    } else {
        by_regions
    }
}
