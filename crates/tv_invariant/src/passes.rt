// Passes over the cases.

ghost use Rattle.std.specs.Prelude.{◌≡◌, ◌<◌, ◌≤◌, List, length, IfOk};
ghost use Rattle.std.specs.Result.{IfErr};
ghost use Rattle.tv_cases.specs.Systems.{cases_of};
ghost use Rattle.tv_candidates.specs.declared.candidate.Candidate.{Candidate};
ghost use Rattle.tv_invariant.specs.Passes.{AreOver, IsPassed, IsTried};
ghost use Rattle.tv_invariant.specs.Falling.{IsLeft, IsRefusal};
ghost use Rattle.tv_invariant.specs.Reopened.{IsReopened};

use crate::kept::Kept;
use crate::step::step;
use std::alloc::Global;
use tv_candidates::Candidate;
use tv_cases::{Case, Cases};
use tv_farkas::{Budget, CoverFault};

/// How far the passes over the cases are.
#[derive(Drop)]
pub struct Tries {
    /// Whether each case is open: it is to be tried.
    pub open: Vec<bool>,
    /// What was shown on the way.
    pub memory: Vec<Kept>,
}

/// Opens the cases from a location.
fn reopen(marks: &mut [bool], list: &[Case], location: u32)
    requires { length marks.old ≡ length list.now }
    ensures reopened { IsReopened list.now location marks.old marks.new }
    ensures as_many { length marks.new ≡ length marks.old }
{
    'cases: for number in 0..list.len() {
        if list[number].from == location {
            marks[number] = true;
        }
    }
}

/// The candidates that the case with the number keeps. The case is closed then, and where candidates fell, the cases from there
/// are open.
fn try_case(
    alloc: Global,
    about: &Cases,
    number: usize,
    now: Vec<Candidate>,
    tries: &mut Tries,
    budget: &Budget,
) -> Result<Vec<Candidate>, CoverFault>
    requires number { number < length (cases_of about.now).cases }
    requires marks { length tries.old.open.items ≡ length (cases_of about.now).cases }
    requires over { AreOver (cases_of about.now).variables now.items }
    requires splits { budget.now.splits ≤ 128 }
    ensures tried { let about = cases_of about.now in
        IfOk result (λ v. IsTried about number now.items v.items tries.old.open.items tries.new.open.items) }
    ensures marks { length tries.new.open.items ≡ length tries.old.open.items }
    ensures refusals { let about = cases_of about.now in
        IfErr result (λ f. (list : List Candidate) → IsLeft about list now.items → IsRefusal about list budget.now.pivots budget.now.splits f) }
{
    let list = about.list();
    let case = &list[number];
    let before = now.len();
    match step(
        alloc,
        case,
        about.variables(),
        now,
        &mut tries.memory,
        budget,
    ) {
        Err(fault) => Err(fault),
        Ok(kept) => {
            let marks = tries.open.as_mut_slice();
            marks[number] = false;
            if kept.len() < before {
                reopen(marks, list, case.to);
            }
            Ok(kept)
        }
    }
}

/// The candidates that are left once each open case was tried.
pub fn pass(
    alloc: Global,
    about: &Cases,
    old: Vec<Candidate>,
    tries: &mut Tries,
    budget: &Budget,
) -> Result<Vec<Candidate>, CoverFault>
    requires marks { length tries.old.open.items ≡ length (cases_of about.now).cases }
    requires over { AreOver (cases_of about.now).variables old.items }
    requires splits { budget.now.splits ≤ 128 }
    ensures passed { let about = cases_of about.now in
        IfOk result (λ v. IsPassed about (length about.cases) old.items v.items tries.old.open.items tries.new.open.items) }
    ensures marks { length tries.new.open.items ≡ length tries.old.open.items }
    ensures refusals { let about = cases_of about.now in
        IfErr result (λ f. (list : List Candidate) → IsLeft about list old.items → IsRefusal about list budget.now.pivots budget.now.splits f) }
{
    let mut now = old;
    'cases: for number in 0..tries.open.len() {
        if tries.open[number] {
            match try_case(alloc, about, number, now, tries, budget) {
                Err(fault) => return Err(fault),
                Ok(kept) => now = kept,
            }
        }
    }
    Ok(now)
}
