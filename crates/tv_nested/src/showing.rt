// What shows of each case, from each piece of its location, that no run takes it without end.

ghost use Rattle.std.specs.Prelude.{◌≡◌, ◌+◌, ◌<◌, ◌≤◌, ◌++◌, ◌∷◌, [], length, IfOk, pos};
ghost use Rattle.tv_linear.specs.Arithmetic.{zeros};
ghost use Rattle.tv_cases.specs.Systems.{cases_of};
ghost use Rattle.tv_rank.specs.Ways.{case_at};
ghost use Rattle.tv_lexrank.specs.Covering.{AreLined};
ghost use Rattle.tv_lexrank.specs.Rounds.{falls_in, lines_of};
ghost use Rattle.tv_lexrank.specs.Sorting.{LeadsInside, refutation_at};
ghost use Rattle.tv_lexrank.specs.Steps.{IsFall};
ghost use Rattle.tv_nested.specs.Apart.{IsApart, ShowsBare};
ghost use Rattle.tv_nested.specs.Ranks.{AreRanked, HasPiece, ShowsCase};

use crate::part::Part;
use crate::ranking::Ranking;
use crate::shown::set_shown;
use std::alloc::{AllocError, Global};
use tv_cases::Cases;
use tv_lexrank::{
    CaseShown, Fall, Round, Sorted, case_of, fall_of, place_in, under_more, zero_line,
};
use tv_linear::{Row, push_item};

/// The fall of a case that the rounds take out: the number of the component stays, and the term of its round falls.
fn round_fall(alloc: Global, rounds: &[Round], number: u32, met: usize) -> Result<Fall, AllocError>
    requires lined { AreLined rounds.now }
    requires bounded { length rounds.now ≤ 8192 }
    ensures { IfOk result (IsFall (falls_in number rounds.now + 2) ((zeros met ++ pos 1 ∷ []) ∷ lines_of number rounds.now)) }
{
    let first = zero_line(alloc, met)?;
    let fallen = fall_of(alloc, rounds, number, first)?;
    Ok(Fall {
        number: fallen.round as u32 + 2,
        lines: fallen.lines,
    })
}

/// The fall of a case that leaves its component: the number of the component falls.
fn leaving_fall(alloc: Global, met: usize) -> Result<Fall, AllocError>
    ensures { IfOk result (IsFall 1 ((zeros met ++ pos 1 ∷ []) ∷ (zeros met ++ pos 1 ∷ []) ∷ [])) }
{
    let mut lines = Vec::new(alloc);
    push_item(&mut lines, zero_line(alloc, met)?)?;
    push_item(&mut lines, zero_line(alloc, met)?)?;
    Ok(Fall { number: 1, lines })
}

/// A copy of the multipliers of a case that is never taken.
fn refutation_of(alloc: Global, sorted: &Sorted, place: usize) -> Result<Vec<i64>, AllocError>
    requires { place < length sorted.now.refutations.items }
    ensures { IfOk result (λ v. v.items ≡ refutation_at sorted.now place) }
{
    Vec::from_slice(alloc, &sorted.refutations[place])
}

/// How many guards a case has.
fn guard_count(about: &Cases, number: u32) -> usize
    requires { number < length (cases_of about.now).cases }
    ensures { result ≡ length (case_at (cases_of about.now).cases number).guards }
{
    let guards: &[Row] = &case_of(about, number).guards.rows;
    guards.len()
}

/// What shows a case inside a component that stands in no set over which terms are nested, where no rows are known.
fn bare_shown(
    alloc: Global,
    about: &Cases,
    part: &Part,
    component: u32,
    number: u32,
) -> Result<CaseShown, AllocError>
    requires { IsApart (cases_of about.now) component part.now number }
    ensures { IfOk result (ShowsBare (cases_of about.now) component part.now number) }
{
    if place_in(&part.sorted.set, number) < part.sorted.set.len() {
        let fall = round_fall(alloc, &part.rounds, number, guard_count(about, number))?;
        return Ok(CaseShown::Falls(fall));
    }
    let place = place_in(&part.sorted.empty, number);
    let multipliers = refutation_of(alloc, &part.sorted, place)?;
    Ok(CaseShown::Untaken(multipliers))
}

/// What shows a case inside a component, from a piece of its location.
fn inside_shown(
    alloc: Global,
    ranking: &Ranking,
    component: u32,
    number: u32,
    piece: u32,
) -> Result<CaseShown, AllocError>
    requires ranked { AreRanked ranking.now }
    requires component { component < length ranking.now.parts.now }
    requires number { number < length (cases_of ranking.now.about.now).cases }
    requires inside { LeadsInside ranking.now.numbers.now component (case_at (cases_of ranking.now.about.now).cases number) }
    requires piece { HasPiece ranking.now number piece }
    ensures { IfOk result (ShowsCase ranking.now number piece) }
{
    let part = ranking.part(component);
    let place = place_in(&part.left, number);
    if place < part.left.len() {
        let shown = set_shown(alloc, ranking.about, part, component, place, piece)?;
        return Ok(shown);
    }
    let bare = bare_shown(alloc, ranking.about, part, component, number)?;
    let rows = ranking.row_count(case_of(ranking.about, number).from, piece);
    let shown = under_more(alloc, &bare, 0, rows)?;
    Ok(shown)
}

/// What shows the case with a number, from a piece of its location.
pub fn case_shown(
    alloc: Global,
    ranking: &Ranking,
    number: u32,
    piece: u32,
) -> Result<CaseShown, AllocError>
    requires ranked { AreRanked ranking.now }
    requires number { number < length (cases_of ranking.now.about.now).cases }
    requires piece { HasPiece ranking.now number piece }
    ensures { IfOk result (ShowsCase ranking.now number piece) }
{
    let case = case_of(ranking.about, number);
    let component = ranking.component_of(case.from);
    if ranking.component_of(case.to) == component {
        let shown = inside_shown(alloc, ranking, component, number, piece)?;
        return Ok(shown);
    }
    let rows = ranking.row_count(case.from, piece);
    let fall = leaving_fall(alloc, rows + guard_count(ranking.about, number))?;
    Ok(CaseShown::Falls(fall))
}
