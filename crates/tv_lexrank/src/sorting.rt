// The cases inside a component: those with a rational point, and those whose rows are refuted.

ghost use Rattle.std.specs.Prelude.{◌≡◌, ◌+◌, ◌<◌, ◌≤◌, ◌-◌, ◌^◌, length, All, IfOk};
ghost use Rattle.std.specs.Result.{IfErr};
ghost use Rattle.tv_linear.specs.Linear.{columns as width};
ghost use Rattle.tv_cases.specs.Systems.{cases_of};
ghost use Rattle.tv_cases.specs.Views.{case_view, case_views};
ghost use Rattle.tv_cases.specs.LinearCases.{IsCase};
ghost use Rattle.tv_rank.specs.Ways.{case_at};
ghost use Rattle.tv_lexrank.specs.Known.{HaveRows};
ghost use Rattle.tv_lexrank.specs.Sorting.{IsSettled, IsTaken, RefusesGuards, RefusesRows, LeadsInside, way_inside, IsSortedIn, RefusesCaseIn, RefusesSortingIn};

use crate::RankFault;
use crate::component::Component;
use crate::fault::refusal_of;
use crate::known::{known_at, rows_with};
use std::alloc::Global;
use tv_cases::{Case, Cases};
use tv_farkas::{CoverFault, Judged, Refuted, judge, refute};
use tv_linear::{Row, push_item, shortened};
use tv_places::{count_of, place_at};
use tv_rank::Name;

/// The cases inside a component, by number.
#[derive(Drop)]
pub struct Sorted {
    /// Those with a rational point.
    pub set: Vec<u32>,
    /// Those without, and for each multipliers that refute the known rows where it starts and its guards.
    pub empty: Vec<u32>,
    pub refutations: Vec<Vec<i64>>,
}

/// Multipliers that refute the guards of a case, or `None` where they have a rational point.
fn settle_guards(
    alloc: Global,
    guards: &[Row],
    columns: u32,
    number: u32,
    pivots: u64,
) -> Result<Option<Vec<i64>>, RankFault>
    requires bounded { columns < 2 ^ 32 - 1 }
    requires even { All (λ r. width r ≡ columns) guards.now }
    ensures settled { IfOk result (λ o. IsSettled columns guards.now o) }
    ensures refusals { IfErr result (λ e. RefusesGuards columns guards.now pivots number e) }
{
    match refute(alloc, guards, columns, pivots) {
        Err(fault) => Err(refusal_of(Name::Empty(number), fault)),
        Ok(
            Refuted::Point {
                values: _,
                scale: _,
            },
        ) => Ok(None),
        Ok(Refuted::Empty { multipliers }) => match shortened(alloc, &multipliers) {
            Ok(short) => Ok(Some(short)),
            Err(_) => Err(RankFault::Memory),
        },
    }
}

/// Multipliers that refute rows, or `None` where the rows have a rational point. Some of the rows may be repeated.
fn settle_rows(
    alloc: Global,
    rows: &[Row],
    columns: u32,
    pivots: u64,
) -> Result<Option<Vec<i64>>, RankFault>
    requires bounded { columns < 2 ^ 32 - 1 }
    requires even { All (λ r. width r ≡ columns) rows.now }
    ensures settled { IfOk result (λ o. IsSettled columns rows.now o) }
    ensures refusals { IfErr result (λ e. RefusesRows columns rows.now pivots e) }
{
    match judge(alloc, rows, columns, pivots) {
        Ok(Judged::Refuted(multipliers)) => Ok(Some(multipliers)),
        Ok(
            Judged::Point {
                values: _,
                scale: _,
            },
        ) => Ok(None),
        Err(CoverFault::Solve { rows, fault }) => Err(RankFault::Solve {
            system: Name::Rows(rows),
            fault,
        }),
        Err(CoverFault::Memory) => Err(RankFault::Memory),
        Err(CoverFault::Splits { .. }) => unreachable!(),
        Err(CoverFault::Wide { .. }) => unreachable!(),
    }
}

fn case_in(list: &[Case], number: u32) -> &Case
    requires { number < length list.now }
    ensures { case_view result.now ≡ case_at (case_views list.now) number }
{
    &list[number as usize]
}

/// The case with a number.
pub fn case_of(about: &Cases, number: u32) -> &Case
    requires { number < length (cases_of about.now).cases }
    ensures is { case_view result.now ≡ case_at (cases_of about.now).cases number }
    ensures limits { IsCase (cases_of about.now).variables (cases_of about.now).locations (case_view result.now) }
    ensures bounded { (cases_of about.now).variables ≤ 512 }
{
    case_in(about.list(), number)
}

/// The same of the rows that are met where the case with a number is taken. Some of these rows are known.
fn settle_met(
    alloc: Global,
    component: &Component,
    number: u32,
) -> Result<Option<Vec<i64>>, RankFault>
    requires number { number < length (cases_of component.now.about.now).cases }
    requires rows { HaveRows component.now.known.now.pieces.items }
    ensures settled { IfOk result (λ o. IsTaken (cases_of component.now.about.now).variables (way_inside component.now number) o) }
    ensures refusals { IfErr result (λ e. RefusesCaseIn component.now number e) }
{
    let case = case_of(component.about, number);
    let columns = component.about.variables() + case.draws;
    let known = known_at(&component.known.pieces, case.from);
    let rows = rows_with(alloc, known, &case.guards.rows, case.draws)?;
    match settle_rows(alloc, &rows, columns, component.pivots) {
        Ok(settled) => Ok(settled),
        Err(fault) => Err(fault),
    }
}

/// Multipliers that refute the rows that are met where the case with a number is taken, or `None` where they have a rational point.
fn settle_number(
    alloc: Global,
    component: &Component,
    number: u32,
) -> Result<Option<Vec<i64>>, RankFault>
    requires number { number < length (cases_of component.now.about.now).cases }
    ensures settled { IfOk result (λ o. IsTaken (cases_of component.now.about.now).variables (way_inside component.now number) o) }
    ensures refusals { IfErr result (λ e. RefusesCaseIn component.now number e) }
{
    if !component.is_bare() {
        return settle_met(alloc, component, number);
    }
    let case = case_of(component.about, number);
    let columns = component.about.variables() + case.draws;
    match settle_guards(alloc, &case.guards.rows, columns, number, component.pivots) {
        Ok(settled) => Ok(settled),
        Err(fault) => Err(fault),
    }
}

/// Sorts one more case, which leads inside the component.
fn sort_inside(
    alloc: Global,
    component: &Component,
    number: u32,
    sorted: &mut Sorted,
) -> Result<(), RankFault>
    requires number { number < length (cases_of component.now.about.now).cases }
    requires inside { LeadsInside component.now.numbers.now component.now.number (case_at (cases_of component.now.about.now).cases number) }
    ensures sorted { IfOk result (λ _. IsSortedIn component.now number sorted.old → IsSortedIn component.now (number + 1) sorted.new) }
    ensures refusals { IfErr result (λ e. RefusesCaseIn component.now number e) }
{
    let settled = match settle_number(alloc, component, number) {
        Ok(settled) => settled,
        Err(fault) => return Err(fault),
    };
    match settled {
        None => {
            push_item(&mut sorted.set, number)?;
            Ok(())
        }
        Some(multipliers) => {
            push_item(&mut sorted.empty, number)?;
            push_item(&mut sorted.refutations, multipliers)?;
            Ok(())
        }
    }
}

/// Sorts the cases inside a component.
pub fn sort_cases(alloc: Global, component: &Component) -> Result<Sorted, RankFault>
    ensures sorted { IfOk result (λ s. IsSortedIn component.now (length (cases_of component.now.about.now).cases) s) }
    ensures refusals { IfErr result (λ e. RefusesSortingIn component.now e) }
{
    let mut sorted = Sorted {
        set: Vec::new(alloc),
        empty: Vec::new(alloc),
        refutations: Vec::new(alloc),
    };
    'places: for place in 0..count_of(component.stands, component.number) {
        match place_at(component.stands, component.number, place) {
            Some(number) => match sort_inside(alloc, component, number, &mut sorted) {
                Ok(()) => {}
                Err(fault) => return Err(fault),
            },
            None => unreachable!(),
        }
    }
    Ok(sorted)
}
