ghost use Rattle.std.specs.Prelude.{◌↔◌, ◌<◌, ◌^◌, IsTrue, length};
ghost use Rattle.std.specs.List.{All};
ghost use Rattle.tv_cases.specs.Systems.{cases_of};
ghost use Rattle.tv_cover.specs.Targets.{AreEven};
ghost use Rattle.tv_choice.specs.Leading.{piece_rows};

use crate::wanted::{Numbers, Wanted, is_wanted};
use std::alloc::Global;
use std::test::Fail;
use tv_cases::{Cases, cases};
use tv_choice::{Chosen, choose};
use tv_cover::is_even;
use tv_farkas::{Budget, CoverFault};
use tv_linear::{Piece, Poly, Region, Row};
use tv_reader::read_program;

/// What is asked: a program, the rows of a piece at its location 0, the pieces of a region by location and rows, and whether a state
/// without a step may stop; with the budget, and what is to be given.
#[derive(Clone, Copy)]
pub(crate) struct Question {
    pub text: &'static str,
    pub ambient: &'static [Numbers],
    pub into: &'static [(u32, &'static [Numbers])],
    pub stop: bool,
    pub splits: u32,
    pub pivots: u64,
    pub wanted: Wanted,
}

fn read(alloc: Global, text: &str) -> Result<Cases, Fail> {
    if text.len() > 65536 {
        return Err(Fail::from("too long"));
    }
    let program = read_program(alloc, text.as_bytes())?;
    match cases(alloc, &program) {
        Ok(cases) => Ok(cases),
        Err(_) => Err(Fail::from("cases")),
    }
}

fn row_of(alloc: Global, numbers: &Numbers) -> Result<Row, Fail> {
    if numbers.0.len() > 100 {
        return Err(Fail::from("a row is too long"));
    }
    let row = Row::new(alloc, numbers.0, numbers.1)?.ok_or("wide")?;
    Ok(row)
}

fn rows_of(alloc: Global, table: &[Numbers]) -> Result<Vec<Row>, Fail> {
    let mut rows = Vec::new(alloc);
    for numbers in table {
        rows.push(row_of(alloc, numbers)?)?;
    }
    Ok(rows)
}

fn piece_of(alloc: Global, location: u32, columns: u32, table: &[Numbers]) -> Result<Piece, Fail> {
    let rows = rows_of(alloc, table)?;
    Ok(Piece {
        location,
        poly: Poly { columns, rows },
    })
}

fn pieces_of(
    alloc: Global,
    columns: u32,
    tables: &[(u32, &[Numbers])],
) -> Result<Vec<Piece>, Fail> {
    let mut pieces = Vec::new(alloc);
    for (location, table) in tables {
        pieces.push(piece_of(alloc, *location, columns, *table)?)?;
    }
    Ok(pieces)
}

fn are_even(pieces: &[Piece], columns: u32) -> bool
    ensures { IsTrue result ↔ All (λ p. AreEven columns (piece_rows p)) pieces.now }
{
    pieces
        .iter()
        .all(|piece| is_even(&piece.poly.rows, columns))
}

/// The answer over rows that are over the variables.
fn choose_over(
    alloc: Global,
    question: &Question,
    about: &Cases,
    ambient: &Piece,
    into: &Region,
) -> Result<Result<Chosen, CoverFault>, Fail> {
    let columns = about.variables();
    if !is_even(&ambient.poly.rows, columns) || !are_even(&into.pieces, columns) {
        return Err(Fail::from("a row is not over the variables"));
    }
    if into.pieces.len() > 100 || question.splits > 128 {
        return Err(Fail::from("too many pieces or splits"));
    }
    let budget = Budget {
        pivots: question.pivots,
        splits: question.splits,
        disjuncts: 1,
    };
    Ok(choose(alloc, about, ambient, into, question.stop, &budget))
}

fn answer(
    alloc: Global,
    question: &Question,
    about: &Cases,
) -> Result<Result<Chosen, CoverFault>, Fail> {
    let variables = about.variables();
    let ambient = piece_of(alloc, 0, variables, question.ambient)?;
    let pieces = pieces_of(alloc, variables, question.into)?;
    let into = Region {
        variables,
        locations: about.locations(),
        pieces,
    };
    choose_over(alloc, question, about, &ambient, &into)
}

/// Whether the choice gives what is wanted.
pub(crate) fn is_answered(alloc: Global, question: &Question) -> Result<bool, Fail> {
    let about = read(alloc, question.text)?;
    let found = answer(alloc, question, &about)?;
    Ok(is_wanted(&question.wanted, &found))
}
