// What shows of each case that no run takes it without end.

ghost use Rattle.std.specs.Prelude.{◌≡◌, ◌+◌, ◌<◌, ◌≤◌, ◌++◌, ◌∷◌, [], length, take, IfOk, pos};
ghost use Rattle.tv_linear.specs.Arithmetic.{zeros};
ghost use Rattle.tv_cases.specs.Systems.{cases_of};
ghost use Rattle.tv_rank.specs.Ways.{case_at, met_rows};
ghost use Rattle.tv_lexrank.specs.Covering.{AreLined};
ghost use Rattle.tv_lexrank.specs.Rounds.{falls_in, lines_of};
ghost use Rattle.tv_lexrank.specs.Sorting.{LeadsInside, refutation_at};
ghost use Rattle.tv_lexrank.specs.Steps.{IsFall, AreRanked, way_in, ShowsCase, ShowsEach};

use crate::Round;
use crate::covering::{fall_of, place_in, zero_line};
use crate::falling::Fall;
use crate::known::known_at;
use crate::ranking::Ranking;
use crate::sorting::{Sorted, case_of};
use std::alloc::{AllocError, Global};
use tv_linear::{Row, push_item};

/// What shows of a case that no run takes it without end, under the rows that are known where it starts.
#[derive(Drop)]
pub enum CaseShown {
    /// It is never taken: multipliers that refute the rows that are known where it starts, in their order, and then its guards.
    Untaken(Vec<i64>),
    /// The ranks fall over it.
    Falls(Fall),
}

/// The fall of a case that the rounds take out: the number of the component stays, and the term of its round falls.
fn inside_fall(alloc: Global, rounds: &[Round], number: u32, met: usize) -> Result<Fall, AllocError>
    requires lined { AreLined rounds.now }
    requires bounded { length rounds.now ≤ 8192 }
    ensures { IfOk result (IsFall (falls_in number rounds.now + 2) ((zeros met ++ pos 1 ∷ []) ∷ lines_of number rounds.now)) }
{
    let first = zero_line(alloc, met)?;
    let fallen = fall_of(alloc, rounds, number, first)?;
    Ok(Fall {
        number: fallen.round as u32 + 2,
        lines: fallen.lines,
    })
}

/// The fall of a case that leaves its component: the number of the component falls.
fn leaving_fall(alloc: Global, met: usize) -> Result<Fall, AllocError>
    ensures { IfOk result (IsFall 1 ((zeros met ++ pos 1 ∷ []) ∷ (zeros met ++ pos 1 ∷ []) ∷ [])) }
{
    let mut lines = Vec::new(alloc);
    push_item(&mut lines, zero_line(alloc, met)?)?;
    push_item(&mut lines, zero_line(alloc, met)?)?;
    Ok(Fall { number: 1, lines })
}

/// A copy of the multipliers of a case that is never taken.
fn refutation_of(alloc: Global, sorted: &Sorted, place: usize) -> Result<Vec<i64>, AllocError>
    requires { place < length sorted.now.refutations.items }
    ensures { IfOk result (λ v. v.items ≡ refutation_at sorted.now place) }
{
    Vec::from_slice(alloc, &sorted.refutations[place])
}

/// How many rows are met where a case is taken.
fn met_count(ranking: &Ranking, number: u32) -> usize
    requires { number < length (cases_of ranking.now.about.now).cases }
    ensures { result ≡ length (met_rows (way_in ranking.now number)) }
{
    let case = case_of(ranking.about, number);
    let known = known_at(&ranking.known.pieces, case.from);
    let guards: &[Row] = &case.guards.rows;
    known.len() + guards.len()
}

/// What shows a case inside a component.
fn inside_shown(
    alloc: Global,
    ranking: &Ranking,
    component: u32,
    number: u32,
) -> Result<CaseShown, AllocError>
    requires ranked { AreRanked ranking.now }
    requires component { component < length ranking.now.parts.now }
    requires number { number < length (cases_of ranking.now.about.now).cases }
    requires inside { LeadsInside ranking.now.numbers.now component (case_at (cases_of ranking.now.about.now).cases number) }
    ensures { IfOk result (ShowsCase ranking.now number) }
{
    let part = ranking.part(component);
    if place_in(&part.sorted.set, number) < part.sorted.set.len() {
        let fall = inside_fall(alloc, &part.rounds, number, met_count(ranking, number))?;
        return Ok(CaseShown::Falls(fall));
    }
    let place = place_in(&part.sorted.empty, number);
    let multipliers = refutation_of(alloc, &part.sorted, place)?;
    Ok(CaseShown::Untaken(multipliers))
}

/// What shows the case with a number.
fn case_shown(alloc: Global, ranking: &Ranking, number: u32) -> Result<CaseShown, AllocError>
    requires ranked { AreRanked ranking.now }
    requires number { number < length (cases_of ranking.now.about.now).cases }
    ensures { IfOk result (ShowsCase ranking.now number) }
{
    let case = case_of(ranking.about, number);
    let component = ranking.component_of(case.from);
    if ranking.component_of(case.to) == component {
        let shown = inside_shown(alloc, ranking, component, number)?;
        return Ok(shown);
    }
    let fall = leaving_fall(alloc, met_count(ranking, number))?;
    Ok(CaseShown::Falls(fall))
}

/// What shows each case, in their order.
pub fn each_shown(alloc: Global, ranking: &Ranking) -> Result<Vec<CaseShown>, AllocError>
    requires { AreRanked ranking.now }
    ensures { IfOk result (λ v. ShowsEach ranking.now v.items) }
{
    let count = ranking.about.list().len() as u32;
    let mut all = Vec::with_capacity(alloc, count as usize)?;
    'cases: for number in 0..count {
        push_item(&mut all, case_shown(alloc, ranking, number)?)?;
    }
    Ok(all)
}
