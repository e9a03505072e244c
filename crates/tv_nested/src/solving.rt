// Solving the nested system of a set of cases.

ghost use Rattle.std.specs.Prelude.{◌≡◌, ◌*◌, ◌<◌, ◌≤◌, length, IfOk, MatchResult};
ghost use Rattle.std.specs.Result.{IfErr};
ghost use Rattle.tv_cases.specs.Systems.{cases_of};
ghost use Rattle.tv_rank.specs.Given.{AreNumbered, AreParts};
ghost use Rattle.tv_simplex.specs.Outcomes.{IsNarrowSystem};
ghost use Rattle.tv_simplex.specs.Views.{IsAnswer, GivesAnswer};
ghost use Rattle.tv_rank.specs.Answers.{HavePoints, IsLarge, IsSize, IsSizeFault, IsRefusal};
ghost use Rattle.tv_rank.specs.Sets.{PointsOf};
ghost use Rattle.tv_nested.specs.Questions.{unknowns_of, system_asked};
ghost use Rattle.tv_nested.specs.Answers.{IsAsked, IsAnsweredFor, RefusesLarge, RefusesFirst, IsNeverSpent, system_of_set};
ghost use Rattle.tv_nested.specs.Found.{IsReadFrom, IsNestingOf};

use crate::listing::{line_list, unknown_list};
use crate::reading::{lines_with, tuple_with};
use crate::solution::Solved;
use crate::system::system_of;
use crate::{Family, Nesting};
use std::alloc::{AllocError, Global};
use tv_cases::Cases;
use tv_linear::Region;
use tv_rank::{Question, is_large};
use tv_simplex::{Answer, SolveFault, System, solve};

/// The nested system that is asked to be solved, or that it is too large.
fn asked_system(alloc: Global, asked: &Question, depth: u32) -> Result<System, SolveFault>
    requires { depth ≤ 4 }
    ensures system { IfOk result (λ s. IsAsked asked.now depth s) }
    ensures refusals { IfErr result (λ e. IsSizeFault (system_asked asked.now depth) e) }
    ensures size { IsLarge (system_asked asked.now depth) → MatchResult result (λ _. ⊥) (λ e. IsSize (system_asked asked.now depth) e) }
{
    let unknowns = match unknown_list(alloc, asked, depth) {
        Ok(unknowns) => unknowns,
        Err(_) => return Err(SolveFault::Memory),
    };
    let lines = match line_list(alloc, asked, depth) {
        Ok(lines) => lines,
        Err(_) => return Err(SolveFault::Memory),
    };
    if is_large(lines.len(), unknowns.len()) {
        return Err(SolveFault::Size {
            rows: lines.len() as u64,
            columns: unknowns.len() as u64,
        });
    }
    match system_of(alloc, asked, depth, &unknowns, &lines) {
        Ok(system) => Ok(system),
        Err(_) => Err(SolveFault::Memory),
    }
}

/// The terms of a solution, with their multipliers.
fn family_of(
    alloc: Global,
    asked: &Question,
    depth: u32,
    values: &[i128],
    scale: i128,
) -> Result<Family, AllocError>
    requires shallow { depth ≤ 4 }
    requires as_many { length values.now ≡ length (unknowns_of asked.now depth) }
    requires few { length values.now ≤ 4000000 }
    requires parts { AreParts values.now }
    ensures { IfOk result (IsReadFrom asked.now depth values.now scale) }
{
    let solved = Solved {
        asked,
        depth,
        values,
    };
    let terms = tuple_with(alloc, &solved)?;
    let lines = lines_with(alloc, &solved)?;
    Ok(Family {
        terms,
        scale,
        lines,
    })
}

/// The terms or the barrier that an answer of the solver is.
fn nesting_of(
    alloc: Global,
    asked: &Question,
    depth: u32,
    answer: Answer,
) -> Result<Nesting, AllocError>
    requires shallow { depth ≤ 4 }
    requires some { 0 < depth }
    requires answers { IsAnswer (system_asked asked.now depth) answer }
    requires last { GivesAnswer (system_asked asked.now depth) answer }
    requires narrow { IsNarrowSystem (system_asked asked.now depth) }
    requires small { (system_asked asked.now depth).rows * (system_asked asked.now depth).columns ≤ 4000000 }
    requires points { HavePoints asked.now }
    ensures { IfOk result (IsNestingOf asked.now depth) }
{
    match answer {
        Answer::Barrier { y } => Ok(Nesting::None { barrier: y }),
        Answer::Solution { values, scale } => {
            let family = family_of(alloc, asked, depth, &values, scale)?;
            Ok(Nesting::Terms(family))
        }
    }
}

/// Solves the nested system of a question.
fn answer(alloc: Global, asked: &Question, depth: u32, pivots: u64) -> Result<Nesting, SolveFault>
    requires shallow { depth ≤ 4 }
    requires some { 0 < depth }
    requires points { HavePoints asked.now }
    ensures answers { IfOk result (IsNestingOf asked.now depth) }
    ensures refusals { IfErr result (λ e. IsRefusal (system_asked asked.now depth) pivots e) }
    ensures size { RefusesLarge (system_asked asked.now depth) result }
    ensures first_wide { RefusesFirst (system_asked asked.now depth) result }
    ensures enough { IsNeverSpent (system_asked asked.now depth) pivots result }
{
    let system = match asked_system(alloc, asked, depth) {
        Ok(system) => system,
        Err(fault) => return Err(fault),
    };
    match solve(alloc, &system, pivots) {
        Err(fault) => Err(fault),
        Ok(answer) => match nesting_of(alloc, asked, depth, answer) {
            Ok(nesting) => Ok(nesting),
            Err(_) => Err(SolveFault::Memory),
        },
    }
}

/// `depth` terms for each location that are nested over a set of cases, with their multipliers, or a barrier of the nested system, which
/// excludes every nested tuple over the rationals.
///
/// The known rows stand in a piece for each location, in the order of the locations. The refusals are those of the nested system. A
/// system of more than 4,000,000 entries is refused by its size.
pub fn nested_terms(
    alloc: Global,
    about: &Cases,
    set: &[u32],
    depth: u32,
    known: &Region,
    pivots: u64,
) -> Result<Nesting, SolveFault>
    requires numbered { AreNumbered (length (cases_of about.now).cases) set.now }
    requires some { 0 < length set.now }
    requires deep { 0 < depth }
    requires shallow { depth ≤ 4 }
    requires pieces { length known.now.pieces.items ≡ (cases_of about.now).locations }
    requires points { PointsOf (cases_of about.now) known.now.pieces.items set.now }
    ensures answers { IfOk result (λ a. IsAnsweredFor (cases_of about.now) known.now.pieces.items set.now depth a) }
    ensures refusals { IfErr result (λ e. IsRefusal (system_of_set (cases_of about.now) known.now.pieces.items set.now depth) pivots e) }
    ensures size { RefusesLarge (system_of_set (cases_of about.now) known.now.pieces.items set.now depth) result }
    ensures first_wide { RefusesFirst (system_of_set (cases_of about.now) known.now.pieces.items set.now depth) result }
    ensures enough { IsNeverSpent (system_of_set (cases_of about.now) known.now.pieces.items set.now depth) pivots result }
{
    let asked = Question {
        cases: about.list(),
        known: &known.pieces,
        set,
        falling: 0,
        variables: about.variables(),
        locations: about.locations(),
    };
    answer(alloc, &asked, depth, pivots)
}
