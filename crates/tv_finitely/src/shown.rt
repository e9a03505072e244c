// What shows of each case that the property holds only finitely often along it.

ghost use Rattle.std.specs.Prelude.{◌≡◌, ◌+◌, ◌<◌, ◌≤◌, ◌++◌, ◌∷◌, [], length, IfOk, pos};
ghost use Rattle.tv_linear.specs.Arithmetic.{zeros};
ghost use Rattle.tv_rank.specs.Given.{lists};
ghost use Rattle.tv_rank.specs.Ways.{case_at, met_rows};
ghost use Rattle.tv_lexrank.specs.Covering.{AreLined};
ghost use Rattle.tv_lexrank.specs.Sorting.{LeadsInside, refutation_at};
ghost use Rattle.tv_lexrank.specs.Steps.{IsFall};
ghost use Rattle.tv_finitely.specs.Lines.{zero_lines, IsInsideFall};
ghost use Rattle.tv_finitely.specs.Ranked.{system_of, AreRanked, way_in, ShowsCase};

use crate::ranking::Ranking;
use std::alloc::{AllocError, Global};
use tv_lexrank::{CaseShown, Fall, Round, Sorted, case_of, fall_of, known_at, place_in, zero_line};
use tv_linear::{Row, push_item};

/// Puts the multipliers that show that 0 does not grow at the end of lists, `count` times.
fn push_zero_lines(
    lines: &mut Vec<Vec<i64>>,
    alloc: Global,
    met: usize,
    count: u32,
) -> Result<(), AllocError>
    ensures { IfOk result (λ _. lists lines.new.items ≡ lists lines.old.items ++ zero_lines met count) }
{
    'zeros: for zero in 0..count {
        let _zero = zero;
        push_item(lines, zero_line(alloc, met)?)?;
    }
    Ok(())
}

/// The fall of a case inside a component, among `count` ranks: the number of the component stays, and the term of the round that takes it
/// out falls, or no rank grows where no round does.
fn inside_fall(
    alloc: Global,
    rounds: &[Round],
    number: u32,
    met: usize,
    count: u32,
) -> Result<Fall, AllocError>
    requires lined { AreLined rounds.now }
    requires enough { length rounds.now + 1 ≤ count }
    requires bounded { count ≤ 8193 }
    ensures { IfOk result (IsInsideFall rounds.now number met count) }
{
    let first = zero_line(alloc, met)?;
    let fallen = fall_of(alloc, rounds, number, first)?;
    if fallen.round < rounds.len() {
        return Ok(Fall {
            number: fallen.round as u32 + 2,
            lines: fallen.lines,
        });
    }
    let mut lines = fallen.lines;
    push_zero_lines(&mut lines, alloc, met, count - 1 - rounds.len() as u32)?;
    Ok(Fall { number: 0, lines })
}

/// The fall of a case that leaves its component: the number of the component falls.
fn leaving_fall(alloc: Global, met: usize) -> Result<Fall, AllocError>
    ensures { IfOk result (IsFall 1 ((zeros met ++ pos 1 ∷ []) ∷ (zeros met ++ pos 1 ∷ []) ∷ [])) }
{
    let mut lines = Vec::new(alloc);
    push_item(&mut lines, zero_line(alloc, met)?)?;
    push_item(&mut lines, zero_line(alloc, met)?)?;
    Ok(Fall { number: 1, lines })
}

/// A copy of the multipliers of a case that is never taken.
fn refutation_of(alloc: Global, sorted: &Sorted, place: usize) -> Result<Vec<i64>, AllocError>
    requires { place < length sorted.now.refutations.items }
    ensures { IfOk result (λ v. v.items ≡ refutation_at sorted.now place) }
{
    Vec::from_slice(alloc, &sorted.refutations[place])
}

/// How many rows are met where a case is taken.
fn met_count(ranking: &Ranking, number: u32) -> usize
    requires { number < length (system_of ranking.now).cases }
    ensures { result ≡ length (met_rows (way_in ranking.now number)) }
{
    let case = case_of(&ranking.about.cases, number);
    let known = known_at(&ranking.known.pieces, case.from);
    let guards: &[Row] = &case.guards.rows;
    known.len() + guards.len()
}

/// What shows a case inside a component.
fn inside_shown(
    alloc: Global,
    ranking: &Ranking,
    component: u32,
    number: u32,
) -> Result<CaseShown, AllocError>
    requires ranked { AreRanked ranking.now }
    requires component { component < length ranking.now.parts.now }
    requires number { number < length (system_of ranking.now).cases }
    requires inside { LeadsInside ranking.now.numbers.now component (case_at (system_of ranking.now).cases number) }
    ensures { IfOk result (ShowsCase ranking.now number) }
{
    let part = ranking.part(component);
    if place_in(&part.sorted.set, number) < part.sorted.set.len() {
        let met = met_count(ranking, number);
        let fall = inside_fall(alloc, &part.rounds, number, met, ranking.count)?;
        return Ok(CaseShown::Falls(fall));
    }
    let place = place_in(&part.sorted.empty, number);
    let multipliers = refutation_of(alloc, &part.sorted, place)?;
    Ok(CaseShown::Untaken(multipliers))
}

/// What shows the case with a number.
pub fn case_shown(alloc: Global, ranking: &Ranking, number: u32) -> Result<CaseShown, AllocError>
    requires ranked { AreRanked ranking.now }
    requires number { number < length (system_of ranking.now).cases }
    ensures { IfOk result (ShowsCase ranking.now number) }
{
    let case = case_of(&ranking.about.cases, number);
    let component = ranking.component_of(case.from);
    if ranking.component_of(case.to) == component {
        let shown = inside_shown(alloc, ranking, component, number)?;
        return Ok(shown);
    }
    let fall = leaving_fall(alloc, met_count(ranking, number))?;
    Ok(CaseShown::Falls(fall))
}
