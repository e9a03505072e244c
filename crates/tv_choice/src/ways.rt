// Ways to step: a case, a piece at its end, and terms for its draws.

ghost use Rattle.std.specs.Prelude.{◌≡◌, ◌+◌, ◌-◌, ◌^◌, ◌<◌, ◌++◌, [], All, length, map, IfOk, slice_get, Some};
ghost use Rattle.std.specs.Result.{IfErr};
ghost use Rattle.tv_linear.specs.Linear.{columns as width};
ghost use Rattle.tv_linear.specs.Arithmetic.{width_of};
ghost use Rattle.tv_cases.specs.LinearCases.{IsCase};
ghost use Rattle.tv_cases.specs.Views.{case_view};
ghost use Rattle.tv_choice.specs.Rows.{put_terms, AreRead, ArePut, IsWideBefore, IsWidePut};
ghost use Rattle.tv_choice.specs.Asked.{query_of};
ghost use Rattle.tv_choice.specs.Leading.{pieces_at, piece_rows};
ghost use Rattle.tv_choice.specs.Targets.{targets, targets_into, targets_by, draw_choices, AreMadeInto, IsFirstWidePut, IsWideInto, IsFirstWideInto, IsWideTarget};
ghost use Rattle.tv_choice.specs.Ways.{lists_of, IsEntered, AreCaseRows, AreComposed, IsWayOf, IsWay, IsUnmade};

use crate::drawing::draw_choices;
use crate::pieces::piece_at;
use crate::question::Question;
use std::alloc::{AllocError, Global};
use tv_cases::{Case, before};
use tv_farkas::{CoverFault, unmade};
use tv_linear::{Piece, Row, push_copies, push_item};

/// A case from the location, a piece at its end, and a term for each draw. The step leads into the piece where the
/// rows are met.
#[derive(Drop)]
pub struct Way {
    pub taken: u32,
    /// The place of the piece among those at the end of the case.
    pub target: u32,
    pub draws: Vec<Row>,
    pub rows: Vec<Row>,
}

/// A case from the location with its number, and a piece at its end with its place there.
#[derive(Drop)]
pub struct Entry<'a> {
    pub case: &'a Case,
    pub taken: u32,
    pub piece: &'a Piece,
    pub target: u32,
}

/// The guards of a case and then the rows of a piece at its end, over the variables and the draws.
pub fn case_rows(
    alloc: Global,
    case: &Case,
    owed: &[Row],
    columns: u32,
) -> Result<Vec<Row>, CoverFault>
    requires bounded { columns + case.now.draws < 2 ^ 32 - 1 }
    requires guards { All (λ r. width r ≡ columns + case.now.draws) (case_view case.now).guards }
    requires terms { All (λ u. width u.term ≡ columns + case.now.draws) (case_view case.now).updates }
    requires owed { All (λ r. width r ≡ columns) owed.now }
    ensures rows { IfOk result (λ v. AreCaseRows columns (case_view case.now) owed.now v.items) }
    ensures fits { IfOk result (λ _. AreRead (case_view case.now) owed.now) }
    ensures refusals { IfErr result (IsUnmade (IsWideBefore (case_view case.now) owed.now)) }
{
    let mut rows = Vec::new(alloc);
    push_copies(alloc, &case.guards.rows, &mut rows)?;
    'owed: for row in owed {
        match before(alloc, row, case) {
            Ok(made) => push_item(&mut rows, made)?,
            Err(fault) => return Err(unmade(fault)),
        }
    }
    Ok(rows)
}

/// The terms that are put into rows of a case: the columns of the variables, and then the draws.
fn terms_of(alloc: Global, columns: u32, draws: &[Row]) -> Result<Vec<Row>, AllocError>
    requires bounded { columns < 2 ^ 32 - 1 }
    ensures { IfOk result (λ v. v.items ≡ put_terms columns draws.now) }
{
    let mut terms = Vec::new(alloc);
    'columns: for column in 0..columns {
        push_item(&mut terms, Row::column(alloc, columns, column)?)?;
    }
    push_copies(alloc, draws, &mut terms)?;
    Ok(terms)
}

/// Each row with terms put in.
fn all_composed(alloc: Global, rows: &[Row], terms: &[Row]) -> Result<Vec<Row>, CoverFault>
    requires each { All (λ r. width r ≡ length terms.now) rows.now }
    requires even { All (λ t. width t ≡ width_of terms.now) terms.now }
    ensures rows { IfOk result (λ v. AreComposed rows.now terms.now v.items) }
    ensures refusals { IfErr result (IsUnmade (IsWidePut terms.now rows.now)) }
{
    let mut all = Vec::new(alloc);
    'rows: for row in rows {
        match row.compose(alloc, terms) {
            Ok(made) => push_item(&mut all, made)?,
            Err(fault) => return Err(unmade(fault)),
        }
    }
    Ok(all)
}

/// The way of these rows of a case, with terms put in for its draws.
pub fn way_of(
    alloc: Global,
    columns: u32,
    entry: &Entry,
    rows: &[Row],
    draws: Vec<Row>,
) -> Result<Way, CoverFault>
    requires bounded { columns < 2 ^ 32 - 1 }
    requires each { All (λ r. width r ≡ columns + length draws.items) rows.now }
    requires even { All (λ t. width t ≡ columns) draws.items }
    ensures way { IfOk result (λ w. IsWayOf columns entry.now.taken entry.now.target rows.now draws.items w) }
    ensures refusals { IfErr result (IsUnmade (IsWidePut (put_terms columns draws.items) rows.now)) }
{
    let terms = terms_of(alloc, columns, &draws)?;
    match all_composed(alloc, rows, &terms) {
        Err(fault) => Err(fault),
        Ok(rows) => Ok(Way {
            taken: entry.taken,
            target: entry.target,
            draws,
            rows,
        }),
    }
}

/// Puts the ways by a case into a piece at the end of the list, one for each list of terms.
fn push_drawn(
    question: &Question,
    ways: &mut Vec<Way>,
    entry: &Entry,
    rows: &[Row],
    choices: Vec<Vec<Row>>,
) -> Result<(), CoverFault>
    requires entered { IsEntered (query_of question.now) entry.now }
    requires rows { AreCaseRows question.now.columns (case_view entry.now.case.now) (piece_rows entry.now.piece.now) rows.now }
    requires choices { map (λ l. l.items) choices.items ≡ draw_choices entry.now.case.now.draws question.now.columns rows.now }
    requires ways { All (IsWay question.now.columns (query_of question.now) []) ways.old.items }
    ensures ways { IfOk result (λ _. All (IsWay question.now.columns (query_of question.now) []) ways.new.items) }
    ensures lists { let into = targets_into question.now.columns (case_view entry.now.case.now) (piece_rows entry.now.piece.now) in
        IfOk result (λ _. lists_of ways.new.items ≡ lists_of ways.old.items ++ into) }
    ensures fits { let n = question.now.columns in
        let choices = draw_choices entry.now.case.now.draws n rows.now in
        IfOk result (λ _. All (λ draws. ArePut (put_terms n draws) rows.now) choices) }
    ensures refusals { let n = question.now.columns in
        let choices = draw_choices entry.now.case.now.draws n rows.now in
        IfErr result (IsUnmade (λ column. IsFirstWidePut n rows.now column choices)) }
{
    'choices: for draws in choices {
        match way_of(question.alloc, question.columns, entry, rows, draws) {
            Err(fault) => return Err(fault),
            Ok(way) => push_item(ways, way)?,
        }
    }
    Ok(())
}

/// Puts the ways by a case without draws or with one into a piece at the end of the list.
fn push_ways(question: &Question, ways: &mut Vec<Way>, entry: &Entry) -> Result<(), CoverFault>
    requires entered { IsEntered (query_of question.now) entry.now }
    requires ways { All (IsWay question.now.columns (query_of question.now) []) ways.old.items }
    ensures ways { IfOk result (λ _. All (IsWay question.now.columns (query_of question.now) []) ways.new.items) }
    ensures lists { let into = targets_into question.now.columns (case_view entry.now.case.now) (piece_rows entry.now.piece.now) in
        IfOk result (λ _. lists_of ways.new.items ≡ lists_of ways.old.items ++ into) }
    ensures fits { IfOk result (λ _. AreMadeInto question.now.columns (case_view entry.now.case.now) entry.now.piece.now) }
    ensures refusals { let c = case_view entry.now.case.now in
        IfErr result (IsUnmade (IsWideInto question.now.columns c entry.now.piece.now)) }
{
    let case = entry.case;
    if case.draws > 1 {
        return Ok(());
    }
    match case_rows(
        question.alloc,
        case,
        &entry.piece.poly.rows,
        question.columns,
    ) {
        Err(fault) => Err(fault),
        Ok(rows) => {
            let choices = draw_choices(question.alloc, case.draws, &rows, question.columns)?;
            push_drawn(question, ways, entry, &rows, choices)
        }
    }
}

/// Puts the ways by a case into each piece at its end at the end of the list.
fn push_case(
    question: &Question,
    ways: &mut Vec<Way>,
    case: &Case,
    taken: u32,
) -> Result<(), CoverFault>
    requires taken { slice_get (query_of question.now).system.cases taken ≡ Some (case_view case.now) }
    requires case { IsCase (query_of question.now).system.variables (query_of question.now).system.locations (case_view case.now) }
    requires from { case.now.from ≡ question.now.location }
    requires ways { All (IsWay question.now.columns (query_of question.now) []) ways.old.items }
    ensures ways { IfOk result (λ _. All (IsWay question.now.columns (query_of question.now) []) ways.new.items) }
    ensures lists { let into = targets_by question.now.columns (case_view case.now) (pieces_at question.now.pieces.now case.now.to) in
        IfOk result (λ _. lists_of ways.new.items ≡ lists_of ways.old.items ++ into) }
    ensures fits { let pieces = pieces_at question.now.pieces.now case.now.to in
        IfOk result (λ _. All (AreMadeInto question.now.columns (case_view case.now)) pieces) }
    ensures refusals { let pieces = pieces_at question.now.pieces.now case.now.to in
        IfErr result (IsUnmade (λ column. IsFirstWideInto question.now.columns (case_view case.now) column pieces)) }
{
    let mut target = 0;
    'pieces: while let Some(piece) = piece_at(question.pieces, case.to, target) {
        let entry = Entry {
            case,
            taken,
            piece,
            target,
        };
        match push_ways(question, ways, &entry) {
            Err(fault) => return Err(fault),
            Ok(()) => {}
        }
        target += 1;
    }
    Ok(())
}

/// The ways of the targets: by the cases without draws, and by those with one draw for which some row gives a term.
pub fn first_ways(question: &Question) -> Result<Vec<Way>, CoverFault>
    ensures ways { IfOk result (λ v. All (IsWay question.now.columns (query_of question.now) []) v.items) }
    ensures lists { IfOk result (λ v. lists_of v.items ≡ targets question.now.columns (query_of question.now)) }
    ensures refusals { IfErr result (IsUnmade (IsWideTarget question.now.columns (query_of question.now))) }
{
    let mut ways = Vec::new(question.alloc);
    let cases = question.about.list();
    'cases: for taken in 0..cases.len() {
        let case = &cases[taken];
        if case.from == question.location {
            match push_case(question, &mut ways, case, taken as u32) {
                Err(fault) => return Err(fault),
                Ok(()) => {}
            }
        }
    }
    Ok(ways)
}
