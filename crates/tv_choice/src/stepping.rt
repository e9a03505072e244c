// Whether some step leads from an integer point into the pieces.

ghost use Rattle.std.specs.Prelude.{◌≡◌, ◌+◌, ◌-◌, ◌^◌, ◌<◌, ◌≤◌, ◌++◌, All, length, IfOk, slice_get, Some};
ghost use Rattle.std.specs.Result.{IfErr};
ghost use Rattle.tv_linear.specs.Linear.{columns as width};
ghost use Rattle.tv_farkas.specs.Refuting.{AreShort};
ghost use Rattle.tv_cases.specs.LinearCases.{IsCase};
ghost use Rattle.tv_cases.specs.Views.{case_view};
ghost use Rattle.tv_choice.specs.Asked.{query_of};
ghost use Rattle.tv_choice.specs.Refusals.{IsFaultHere};
ghost use Rattle.tv_choice.specs.Rows.{fixes};
ghost use Rattle.tv_choice.specs.Ways.{IsEntered, IsUnmade};
ghost use Rattle.tv_choice.specs.Stepping.{IsWayAt, IsWideAtPoint, IsStanding, IsStepTo, IsStepBy, IsStepInto};

use crate::drawing::terms_at;
use crate::lists::fixing;
use crate::pieces::piece_at;
use crate::question::Question;
use crate::ways::{Entry, Way, case_rows, way_of};
use std::alloc::{AllocError, Global};
use tv_cases::Case;
use tv_cover::{Emptied, empty};
use tv_farkas::{Budget, CoverFault};
use tv_linear::{Row, push_copies};

/// An integer point of rows, and how many splits are left.
#[derive(Drop)]
pub struct Standing<'a> {
    pub rows: &'a [Row],
    pub point: &'a [i128],
    pub left: u32,
}

/// The point fixed over the variables and the draws of a case, and rows of the case.
fn stepping_rows(
    alloc: Global,
    columns: u32,
    point: &[i128],
    rows: &[Row],
) -> Result<Vec<Row>, AllocError>
    requires bounded { columns < 2 ^ 32 - 1 }
    requires inside { length point.now ≤ columns }
    requires short { AreShort point.now }
    ensures { IfOk result (λ v. v.items ≡ fixes columns 0 point.now ++ rows.now) }
{
    let mut all = fixing(alloc, columns, point)?;
    push_copies(alloc, rows, &mut all)?;
    Ok(all)
}

/// The way of these rows of a case, with terms for the draws at an integer point.
fn way_at(
    question: &Question,
    entry: &Entry,
    rows: &[Row],
    values: &[i128],
) -> Result<Way, CoverFault>
    requires bounded { question.now.columns + entry.now.case.now.draws < 2 ^ 32 - 1 }
    requires even { All (λ r. width r ≡ question.now.columns + entry.now.case.now.draws) rows.now }
    requires size { length values.now ≡ question.now.columns + entry.now.case.now.draws }
    requires short { AreShort values.now }
    ensures way { let n = question.now.columns in
        let d = entry.now.case.now.draws in
        IfOk result (IsWayAt n d entry.now.taken entry.now.target rows.now values.now) }
    ensures refusals { let n = question.now.columns in
        let d = entry.now.case.now.draws in
        IfErr result (IsUnmade (IsWideAtPoint n d rows.now values.now)) }
{
    let draws = entry.case.draws;
    let terms = terms_at(question.alloc, rows, question.columns, draws, values)?;
    match way_of(question.alloc, question.columns, entry, rows, terms) {
        Err(fault) => Err(fault),
        Ok(way) => Ok(way),
    }
}

/// The way by a case into a piece that an integer point has, if there is one.
fn step_to(
    question: &Question,
    standing: &Standing,
    entry: &Entry,
) -> Result<Option<Way>, CoverFault>
    requires standing { IsStanding question.now.columns (query_of question.now) standing.now }
    requires entered { IsEntered (query_of question.now) entry.now }
    ensures step { let s = standing.now in
        let c = case_view entry.now.case.now in
        IfOk result (IsStepTo question.now.columns (query_of question.now) s.rows.now s.point.now c entry.now.piece.now) }
    ensures refusals { let s = standing.now in
        IfErr result (IsFaultHere question.now.columns (query_of question.now) s.rows.now question.now.pivots s.left) }
{
    let alloc = question.alloc;
    let case = entry.case;
    let width = question.columns + case.draws;
    let rows = match case_rows(alloc, case, &entry.piece.poly.rows, question.columns) {
        Err(fault) => return Err(fault),
        Ok(rows) => rows,
    };
    let all = stepping_rows(alloc, width, standing.point, &rows)?;
    let budget = Budget {
        pivots: question.pivots,
        splits: standing.left,
        disjuncts: 1,
    };
    match empty(alloc, &all, width, &budget) {
        Err(fault) => Err(fault),
        Ok(Emptied::Tree(_)) => Ok(None),
        Ok(Emptied::Whole(values)) => match way_at(question, entry, &rows, &values) {
            Err(fault) => Err(fault),
            Ok(way) => Ok(Some(way)),
        },
    }
}

/// The way by a case into some piece that an integer point has, if there is one.
fn step_by(
    question: &Question,
    standing: &Standing,
    case: &Case,
    taken: u32,
) -> Result<Option<Way>, CoverFault>
    requires standing { IsStanding question.now.columns (query_of question.now) standing.now }
    requires taken { slice_get (query_of question.now).system.cases taken ≡ Some (case_view case.now) }
    requires case { IsCase (query_of question.now).system.variables (query_of question.now).system.locations (case_view case.now) }
    requires from { case.now.from ≡ question.now.location }
    ensures step { let s = standing.now in
        IfOk result (IsStepBy question.now.columns (query_of question.now) s.rows.now s.point.now (case_view case.now)) }
    ensures refusals { let s = standing.now in
        IfErr result (IsFaultHere question.now.columns (query_of question.now) s.rows.now question.now.pivots s.left) }
{
    let mut target = 0;
    'pieces: while let Some(piece) = piece_at(question.pieces, case.to, target) {
        let entry = Entry {
            case,
            taken,
            piece,
            target,
        };
        match step_to(question, standing, &entry) {
            Err(fault) => return Err(fault),
            Ok(Some(way)) => return Ok(Some(way)),
            Ok(None) => {}
        }
        target += 1;
    }
    Ok(None)
}

/// A way that an integer point has, if some step leads from it into the pieces.
pub fn step_into(question: &Question, standing: &Standing) -> Result<Option<Way>, CoverFault>
    requires standing { IsStanding question.now.columns (query_of question.now) standing.now }
    ensures step { let s = standing.now in
        IfOk result (IsStepInto question.now.columns (query_of question.now) s.rows.now s.point.now) }
    ensures refusals { let s = standing.now in
        IfErr result (IsFaultHere question.now.columns (query_of question.now) s.rows.now question.now.pivots s.left) }
{
    let cases = question.about.list();
    'cases: for taken in 0..cases.len() {
        let case = &cases[taken];
        if case.from == question.location {
            match step_by(question, standing, case, taken as u32) {
                Err(fault) => return Err(fault),
                Ok(Some(way)) => return Ok(Some(way)),
                Ok(None) => {}
            }
        }
    }
    Ok(None)
}
