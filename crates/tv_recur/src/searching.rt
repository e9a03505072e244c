// The search for recurrences.

ghost use Rattle.std.specs.Prelude.{◌≡◌, ◌≤◌, IfOk, IfSome, MatchOption, None, length};
ghost use Rattle.std.specs.Result.{IfErr};
ghost use Rattle.tv_cases.specs.Systems.{cases_of};
ghost use Rattle.tv_known.specs.Recurrences.{HasSimpleRecurrence};
ghost use Rattle.tv_recur.specs.Staying.{NeverStaysBelow};
ghost use Rattle.tv_recur.specs.Keeping.{NoLoopAt, NoLoopBelow};
ghost use Rattle.tv_recur.specs.Refusing.{IsRefusal};
ghost use Rattle.tv_recur.specs.Recurring.{IsRecurrence};

use crate::Recurrence;
use crate::entering::enter;
use crate::keeping::keep;
use crate::staying::stay;
use crate::taking::{Search, case_of};
use std::alloc::Global;
use tv_cases::Cases;
use tv_farkas::{Budget, CoverFault};

/// A recurrence from an initial state that steps to itself.
fn first_stay(search: &Search) -> Result<Option<Recurrence>, CoverFault>
    requires splits { search.now.budget.now.splits ≤ 128 }
    ensures found { let cases = cases_of search.now.about.now in
        IfOk result (λ found. MatchOption found (NeverStaysBelow cases (length cases.cases)) (IsRecurrence cases)) }
    ensures refusals { IfErr result (IsRefusal (cases_of search.now.about.now) search.now.budget.now) }
{
    let count = search.about.list().len() as u32;
    'numbers: for number in 0..count {
        match stay(search, number) {
            Err(fault) => return Err(fault),
            Ok(Some(recurrence)) => return Ok(Some(recurrence)),
            Ok(None) => {}
        }
    }
    Ok(None)
}

/// A recurrence that goes round by the case of a number.
fn loop_at(search: &Search, number: u32) -> Result<Option<Recurrence>, CoverFault>
    requires splits { search.now.budget.now.splits ≤ 128 }
    ensures found { let cases = cases_of search.now.about.now in
        IfOk result (λ found. MatchOption found (NoLoopAt cases number) (IsRecurrence cases)) }
    ensures refusals { IfErr result (IsRefusal (cases_of search.now.about.now) search.now.budget.now) }
{
    match case_of(search.about, number) {
        None => Ok(None),
        Some(case) => match keep(search, case, number) {
            Err(fault) => Err(fault),
            Ok(None) => Ok(None),
            Ok(Some(choice)) => enter(search, case, choice),
        },
    }
}

/// A recurrence that goes round by one case.
fn first_loop(search: &Search) -> Result<Option<Recurrence>, CoverFault>
    requires splits { search.now.budget.now.splits ≤ 128 }
    ensures found { let cases = cases_of search.now.about.now in
        IfOk result (λ found. MatchOption found (NoLoopBelow cases (length cases.cases)) (IsRecurrence cases)) }
    ensures refusals { IfErr result (IsRefusal (cases_of search.now.about.now) search.now.budget.now) }
{
    let count = search.about.list().len() as u32;
    'numbers: for number in 0..count {
        match loop_at(search, number) {
            Err(fault) => return Err(fault),
            Ok(Some(recurrence)) => return Ok(Some(recurrence)),
            Ok(None) => {}
        }
    }
    Ok(None)
}

/// A run that never ends, where one is plain to see.
///
/// An initial state may step to itself. Or a case without draws may lead from a location to itself, with guards that hold again wherever they
/// held, and an initial state be where it can be taken, or one step before. The cases are asked in their order, first each for a step from
/// an initial state to itself, and then each for such a loop. The first question that is refused ends the search.
pub fn recur(
    alloc: Global,
    about: &Cases,
    budget: &Budget,
) -> Result<Option<Recurrence>, CoverFault>
    requires splits { budget.now.splits ≤ 128 }
    ensures found { IfOk result (λ found. IfSome found (IsRecurrence (cases_of about.now))) }
    ensures none { IfOk result (λ found. found ≡ None → HasSimpleRecurrence (cases_of about.now) → ⊥) }
    ensures refusals { IfErr result (IsRefusal (cases_of about.now) budget.now) }
{
    let search = Search {
        alloc,
        about,
        budget,
    };
    match first_stay(&search) {
        Err(fault) => Err(fault),
        Ok(Some(recurrence)) => Ok(Some(recurrence)),
        Ok(None) => match first_loop(&search) {
            Err(fault) => Err(fault),
            Ok(found) => Ok(found),
        },
    }
}
