// The choice that takes a step from one piece into another.

ghost use Rattle.std.specs.Prelude.{◌≡◌, ◌++◌, ◌-◌, ◌^◌, ◌<◌, IfOk, MatchResult, MatchOption, None, Some, slice_get, length, All};
ghost use Rattle.tv_linear.specs.Linear.{IsWithin, IsNarrow};
ghost use Rattle.tv_cases.specs.Systems.{cases_of};
ghost use Rattle.tv_cases.specs.Views.{case_view};
ghost use Rattle.tv_points.specs.PointRows.{number_rows};
ghost use Rattle.tv_points.specs.Lines.{IsShowable, GivesLines};
ghost use Rattle.tv_points.specs.Taking.{fall_number, taking_point, case_rows, IsTaking, IsTakenBy, IsRefusedBy};

use crate::falls::{Entering, is_owed, push_entered};
use crate::fault::PointFault;
use crate::lines::push_lines;
use crate::state::State;
use crate::step::Step;
use std::alloc::{AllocError, Global};
use tv_cases::{Case, Cases, Update};
use tv_cert::Marked;
use tv_linear::{Choice, ChoiceTree, Row, Rows, push_item};
use tv_refute::{Change, Terms};

/// A step of a run, from the piece of its state into the piece of the next one.
#[derive(Drop)]
pub(crate) struct Taking<'a> {
    pub about: &'a Cases,
    pub state: &'a State,
    pub step: &'a Step,
    pub from: &'a Marked,
    pub into: &'a Marked,
    /// The place of the second piece among those at its location.
    pub place: u32,
    /// Whether a fall of the ranks is owed.
    pub falls: bool,
}

/// The case of a number.
pub fn case_at(about: &Cases, number: u32) -> Option<&Case>
    ensures { let cases = (cases_of about.now).cases in
        MatchOption result (slice_get cases number ≡ None) (λ case. slice_get cases number ≡ Some (case_view case.now)) }
{
    about.list().get(number as usize)
}

/// Puts a row for each number at the end of the list.
fn push_numbers(
    alloc: Global,
    columns: u32,
    numbers: &[i64],
    rows: &mut Vec<Row>,
) -> Result<(), AllocError>
    requires bounded { columns < 2 ^ 32 - 1 }
    requires narrow { All (IsWithin 62) numbers.now }
    ensures { IfOk result (λ _. rows.new.items ≡ rows.old.items ++ number_rows columns numbers.now) }
{
    match numbers {
        [] => Ok(()),
        [number, rest @ ..] => {
            let row = Row::narrow_number(alloc, columns, i128::from(*number))?;
            push_item(rows, row)?;
            push_numbers(alloc, columns, rest, rows)
        }
    }
}

/// A row for each number.
fn rows_of_numbers(alloc: Global, columns: u32, numbers: &[i64]) -> Result<Vec<Row>, AllocError>
    requires bounded { columns < 2 ^ 32 - 1 }
    requires narrow { All (IsWithin 62) numbers.now }
    ensures { IfOk result (λ rows. rows.items ≡ number_rows columns numbers.now) }
{
    let mut rows = Vec::new(alloc);
    push_numbers(alloc, columns, numbers, &mut rows)?;
    Ok(rows)
}

/// Each number of the rows is below 2^62 in magnitude.
fn narrow_rows(rows: &[Row])
    ensures { All IsNarrow rows.now }
{
    for row in rows {
        row.columns();
    }
}

/// So is each number of the terms.
fn narrow_updates(updates: &[Update])
    ensures { All (λ u. IsNarrow u.term) updates.now }
{
    for update in updates {
        update.term.columns();
    }
}

/// The number of the fall.
fn fall_of(owed: bool) -> u32
    ensures { result ≡ fall_number owed }
{
    if owed { 1 } else { 0 }
}

/// Puts the lines of the step by its case, with rows for its draws, at the end of the list.
fn push_taken(
    alloc: Global,
    taking: &Taking,
    case: &Case,
    draws: &[Row],
    lists: &mut Vec<Vec<i64>>,
) -> Result<(), PointFault>
    requires bounded { length (taking_point taking.now) < 2 ^ 32 - 1 }
    requires showable { All (IsShowable (taking_point taking.now)) (case_rows taking.now (case_view case.now) draws.now) }
    ensures { let rows = case_rows taking.now (case_view case.now) draws.now in
        GivesLines (taking_point taking.now) rows lists.old.items lists.new.items result }
{
    let columns = taking.about.variables();
    let point = &taking.state.values;
    let drawn = Terms::Drawn { columns, draws };
    let once = Change::Once(&drawn);
    match push_lines(alloc, point, &once, Rows::Each(&case.guards.rows), lists) {
        Err(fault) => Err(fault),
        Ok(()) => {
            let after = Terms::After {
                columns,
                updates: &case.updates,
            };
            let entering = Entering {
                change: &Change::Twice(&after, &drawn),
                from: taking.from,
                into: taking.into,
                falls: taking.falls,
            };
            push_entered(alloc, point, &entering, lists)
        }
    }
}

/// The choice that takes the step.
pub(crate) fn take(alloc: Global, taking: &Taking) -> Result<Choice, PointFault>
    requires { IsTaking taking.now }
    ensures { MatchResult result (IsTakenBy taking.now) (IsRefusedBy taking.now) }
{
    let Some(case) = case_at(taking.about, taking.step.taken) else {
        unreachable!()
    };
    narrow_rows(&case.guards.rows);
    narrow_updates(&case.updates);
    let draws = rows_of_numbers(alloc, taking.about.variables(), &taking.step.draws)?;
    let mut lists = Vec::new(alloc);
    match push_taken(alloc, taking, case, &draws, &mut lists) {
        Err(fault) => return Err(fault),
        Ok(()) => {}
    }
    let tree = ChoiceTree::Take {
        taken: taking.step.taken,
        target: taking.place,
        fall: fall_of(is_owed(taking.falls, taking.into)),
        draws,
        refutations: lists,
    };
    match Choice::new(tree) {
        Some(choice) => Ok(choice),
        None => unreachable!(),
    }
}
