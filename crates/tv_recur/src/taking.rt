// Whether a case leads from each state of some rows into others.

ghost use Rattle.std.specs.Prelude.{◌≡◌, ◌∷◌, [], ◌-◌, ◌^◌, ◌<◌, ◌≤◌, All, IfOk, MatchOption, None, Some, slice_get};
ghost use Rattle.std.specs.Result.{IfErr};
ghost use Rattle.tv_linear.specs.Linear.{IsNarrow};
ghost use Rattle.tv_cases.specs.Systems.{cases_of};
ghost use Rattle.tv_cases.specs.Views.{case_view};
ghost use Rattle.tv_cover.specs.Covering.{IsCoverFault};
ghost use Rattle.tv_cover.specs.Targets.{AreEven};
ghost use Rattle.tv_cover.specs.Single.{IsCoveredByOne};
ghost use Rattle.tv_derived.specs.Scopes.{at_location};
ghost use Rattle.tv_recur.specs.Choosing.{LeadsInto};
ghost use Rattle.tv_recur.specs.Covering.{IsTakenBy};
ghost use Rattle.tv_recur.specs.OwedRows.{IsLeft, IsTaking};
ghost use Rattle.tv_recur.specs.Refusing.{IsRefusal, AreFrom};

use crate::choosing::{Entered, choice_of};
use crate::making::numbers_as_rows;
use crate::owed_rows::owed_rows;
use std::alloc::{AllocError, Global};
use tv_cases::{Case, Cases};
use tv_cover::{Covered, cover_one};
use tv_farkas::{Budget, CoverFault};
use tv_linear::{Choice, Cover, Poly, Row};

/// What stays the same in a search.
#[derive(Drop)]
pub(crate) struct Search<'a> {
    pub alloc: Global,
    pub about: &'a Cases,
    pub budget: &'a Budget,
}

/// The case of a number.
pub(crate) fn case_of(about: &Cases, number: u32) -> Option<&Case>
    ensures { let cases = (cases_of about.now).cases in
        MatchOption result (slice_get cases number ≡ None) (λ case. slice_get cases number ≡ Some (case_view case.now)) }
{
    about.list().get(number as usize)
}

/// A case with numbers for its draws.
#[derive(Drop)]
pub(crate) struct Taking<'a> {
    pub alloc: Global,
    pub about: &'a Cases,
    pub case: &'a Case,
    /// The number of the case.
    pub number: u32,
    pub draws: &'a [i128],
    /// The place of the piece that is entered, among those at its location.
    pub place: u32,
    pub budget: &'a Budget,
}

/// Each number of the rows is below 2^62 in magnitude.
pub(crate) fn narrow_rows(rows: &[Row])
    ensures { All IsNarrow rows.now }
{
    for row in rows {
        row.columns();
    }
}

/// The choice that the cover is, where it takes the case on entering its target.
fn taken_by(taking: &Taking, cover: &Cover) -> Result<Choice, AllocError>
    requires taking { IsTaking taking.now }
    ensures { IfOk result (IsTakenBy taking.now cover.now) }
{
    let alloc = taking.alloc;
    let draws = numbers_as_rows(alloc, taking.about.variables(), taking.draws)?;
    narrow_rows(&draws);
    let entered = Entered {
        number: taking.number,
        place: taking.place,
        draws: &draws,
    };
    let tree = choice_of(alloc, cover.tree(), &entered)?;
    match Choice::new(tree) {
        Some(choice) => Ok(choice),
        None => unreachable!(),
    }
}

/// The choice by which the case leads from each state of the first rows into the second ones; `None` where it leads out from some.
pub(crate) fn leading(
    taking: &Taking,
    from: &Poly,
    into: &[Row],
) -> Result<Option<Choice>, CoverFault>
    requires taking { IsTaking taking.now }
    requires over { from.now.columns ≡ (cases_of taking.now.about.now).variables }
    requires even { AreEven from.now.columns from.now.rows.items }
    requires same { AreEven from.now.columns into.now }
    requires derived { AreFrom (cases_of taking.now.about.now) (at_location (case_view taking.now.case.now).from) 2 from.now.rows.items }
    requires entered { AreFrom (cases_of taking.now.about.now) (at_location (case_view taking.now.case.now).to) 1 into.now }
    ensures found { let case = case_view taking.now.case.now in
        IfOk result (λ found. MatchOption found
        (IsLeft from.now.columns case taking.now.draws.now from.now.rows.items into.now)
        (LeadsInto (cases_of taking.now.about.now) case taking.now.place from.now.rows.items into.now)) }
    ensures refusals { IfErr result (IsRefusal (cases_of taking.now.about.now) taking.now.budget.now) }
{
    let target = match owed_rows(taking, into) {
        Ok(target) => target,
        Err(fault) => return Err(fault),
    };
    match cover_one(taking.alloc, from, target, taking.budget) {
        Ok(Covered::Tree(cover)) => {
            let choice = taken_by(taking, &cover)?;
            Ok(Some(choice))
        }
        Ok(Covered::Hole(_)) => Ok(None),
        Err(fault) => Err(fault),
    }
}
