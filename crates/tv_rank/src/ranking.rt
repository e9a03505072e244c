// Ranking a set of cases.

ghost use Rattle.std.specs.Prelude.{◌≡◌, ℕ, ◌*◌, ◌<◌, ◌≤◌, length, get_or, All, IfOk, MatchResult, Contains};
ghost use Rattle.std.specs.Result.{IfErr};
ghost use Rattle.tv_cases.specs.Systems.{cases_of};
ghost use Rattle.tv_simplex.specs.Outcomes.{IsNarrowSystem};
ghost use Rattle.tv_simplex.specs.Views.{equations, IsAnswer, GivesAnswer};
ghost use Rattle.tv_rank.specs.Given.{AreNumbered, AreParts};
ghost use Rattle.tv_rank.specs.Questions.{unknowns_of, system_asked};
ghost use Rattle.tv_rank.specs.Reading.{IsReadFrom};
ghost use Rattle.tv_rank.specs.Answers.{HavePoints, IsAsked, IsSizeFault, IsSize, IsLarge, IsAnswered, IsRefusal, RefusesLarge, RefusesFirst, IsNeverSpent};
ghost use Rattle.tv_rank.specs.Sets.{PointsOf, IsRankedAt, AnswersFor, system_of_set};

use crate::Found;
use crate::listing::{line_list, unknown_list};
use crate::question::Question;
use crate::reading::{read_lines, read_terms};
use crate::system::{is_large, system_of};
use std::alloc::{AllocError, Global};
use tv_cases::Cases;
use tv_linear::Region;
use tv_simplex::{Answer, SolveFault, System, solve};

/// The ranking system that is asked to be solved, or that it is too large.
fn asked_system(alloc: Global, asked: &Question) -> Result<System, SolveFault>
    ensures system { IfOk result (λ s. IsAsked asked.now s) }
    ensures refusals { IfErr result (λ e. IsSizeFault (system_asked asked.now) e) }
    ensures size { IsLarge (system_asked asked.now) → MatchResult result (λ _. ⊥) (λ e. IsSize (system_asked asked.now) e) }
{
    let unknowns = match unknown_list(alloc, asked) {
        Ok(unknowns) => unknowns,
        Err(_) => return Err(SolveFault::Memory),
    };
    let lines = match line_list(alloc, asked) {
        Ok(lines) => lines,
        Err(_) => return Err(SolveFault::Memory),
    };
    if is_large(lines.len(), unknowns.len()) {
        return Err(SolveFault::Size {
            rows: lines.len() as u64,
            columns: unknowns.len() as u64,
        });
    }
    match system_of(alloc, asked, &unknowns, &lines) {
        Ok(system) => Ok(system),
        Err(_) => Err(SolveFault::Memory),
    }
}

/// The terms of a solution, and their multipliers.
fn family_of(alloc: Global, asked: &Question, values: &[i128]) -> Result<Found, AllocError>
    requires as_many { length values.now ≡ length (unknowns_of asked.now) }
    requires parts { AreParts values.now }
    ensures { IfOk result (λ f. IsReadFrom asked.now values.now f) }
{
    let (terms, place) = read_terms(alloc, asked, values)?;
    let multipliers = read_lines(alloc, asked, values, place)?;
    Ok(Found::Family { terms, multipliers })
}

/// The family or the barrier that an answer of the solver is.
fn found_of(alloc: Global, asked: &Question, answer: Answer) -> Result<Found, AllocError>
    requires answers { IsAnswer (system_asked asked.now) answer }
    requires last { GivesAnswer (system_asked asked.now) answer }
    requires narrow { IsNarrowSystem (system_asked asked.now) }
    requires small { (system_asked asked.now).rows * (system_asked asked.now).columns ≤ 4000000 }
    requires points { HavePoints asked.now }
    ensures { IfOk result (λ f. IsAnswered asked.now f) }
{
    match answer {
        Answer::Barrier { y } => Ok(Found::None { barrier: y }),
        Answer::Solution { values, scale: _ } => {
            let found = family_of(alloc, asked, &values)?;
            Ok(found)
        }
    }
}

/// Ranks the cases of a question.
fn rank(alloc: Global, asked: &Question, pivots: u64) -> Result<Found, SolveFault>
    requires { HavePoints asked.now }
    ensures answers { IfOk result (λ f. IsAnswered asked.now f) }
    ensures refusals { IfErr result (λ e. IsRefusal (system_asked asked.now) pivots e) }
    ensures size { RefusesLarge (system_asked asked.now) result }
    ensures first_wide { RefusesFirst (system_asked asked.now) result }
    ensures enough { IsNeverSpent (system_asked asked.now) pivots result }
{
    let system = match asked_system(alloc, asked) {
        Ok(system) => system,
        Err(fault) => return Err(fault),
    };
    match solve(alloc, &system, pivots) {
        Err(fault) => Err(fault),
        Ok(answer) => match found_of(alloc, asked, answer) {
            Ok(found) => Ok(found),
            Err(_) => Err(SolveFault::Memory),
        },
    }
}

/// The same as `weak_rank`, for the case that stands at a place of the set.
pub fn rank_place(
    alloc: Global,
    about: &Cases,
    set: &[u32],
    place: usize,
    known: &Region,
    pivots: u64,
) -> Result<Found, SolveFault>
    requires numbered { AreNumbered (length (cases_of about.now).cases) set.now }
    requires place { place < length set.now }
    requires pieces { length known.now.pieces.items ≡ (cases_of about.now).locations }
    requires points { PointsOf (cases_of about.now) known.now.pieces.items set.now }
    ensures ranked { IfOk result (λ f. IsRankedAt (cases_of about.now) known.now.pieces.items set.now place f) }
    ensures refusals { IfErr result (λ e. IsRefusal (system_of_set (cases_of about.now) known.now.pieces.items set.now place) pivots e) }
    ensures size { RefusesLarge (system_of_set (cases_of about.now) known.now.pieces.items set.now place) result }
    ensures first_wide { RefusesFirst (system_of_set (cases_of about.now) known.now.pieces.items set.now place) result }
    ensures enough { IsNeverSpent (system_of_set (cases_of about.now) known.now.pieces.items set.now place) pivots result }
{
    let asked = Question {
        cases: about.list(),
        known: &known.pieces,
        set,
        falling: place,
        variables: about.variables(),
        locations: about.locations(),
    };
    rank(alloc, &asked, pivots)
}

/// A term for each location that grows over no case of the set, and falls over one case of it by at least 1 from a value of at
/// least 0, at all rational points that meet the rows known where the case starts and its guards; or a barrier, which excludes
/// every such family over the rationals.
///
/// The known rows stand in a piece for each location, in the order of the locations. The refusals are those of the ranking
/// system. A system of more than 4,000,000 entries is refused by its size.
///
/// The system is that of A. Podelski and A. Rybalchenko, "A complete method for the synthesis of linear ranking functions",
/// VMCAI 2004, for a set of cases between several locations: by the lemma of J. Farkas a row follows from others over the
/// rationals exactly where it is a sum of multiples of them, less a number of at least 0.
pub fn weak_rank(
    alloc: Global,
    about: &Cases,
    set: &[u32],
    falling: u32,
    known: &Region,
    pivots: u64,
) -> Result<Found, SolveFault>
    requires numbered { AreNumbered (length (cases_of about.now).cases) set.now }
    requires among { Contains set.now falling }
    requires pieces { length known.now.pieces.items ≡ (cases_of about.now).locations }
    requires points { PointsOf (cases_of about.now) known.now.pieces.items set.now }
    ensures { AnswersFor (cases_of about.now) known.now.pieces.items set.now falling pivots result }
{
    rank_place(alloc, about, set, place_of(set, falling), known, pivots)
}

/// The place of a number in a list that has it.
fn place_of(set: &[u32], number: u32) -> usize
    requires { Contains set.now number }
    ensures within { result < length set.now }
    ensures is { get_or set.now result 0 ≡ number }
{
    'places: for place in 0..set.len() {
        if set[place] == number {
            return place;
        }
    }
    0
}
