ghost use Rattle.std.specs.Prelude.{◌≡◌, ◌+◌, ◌^◌, ◌<◌, ℕ, drop, Ok, true, false};
ghost use Rattle.tv_program.specs.Trees as trees;
ghost use Rattle.tv_program.specs.Trees.{negated};
ghost use Rattle.tv_program.specs.Views.{condition};
ghost use Rattle.tv_grammar.specs.Langs.{turns, then, mapped};
ghost use Rattle.tv_reading.specs.Marks.{left};
ghost use Rattle.tv_reading.specs.SumGrammar.{every, closed, factor_at, sum_at};
ghost use Rattle.tv_reading.specs.ConditionGrammar.{value, tested, relation_cases, tail, opened, is_and, is_or, more_cases, conjunction_from, conjunction_over, condition_from, continued, in_brackets, thing_at, plain_at, literal_at, condition_at};
ghost use Rattle.tv_reading.specs.Views.{stand, Keeps, made_view, piece_view, conds_view};
ghost use Rattle.tv_reading.specs.Answers.{Gives, Turned};

use crate::cursor::{Cursor, kind_of, pass, peek};
use crate::joined::{Piece, add_cond, all_of, comparison, conds_of, negation, some_of};
use crate::marks::Part;
use crate::reason::{Reason, Turn};
use crate::source::Source;
use crate::sums::{close, factor, product_from, sum, sum_from};
use crate::trees::Made;
use tv_language::{TokenKind, relation_of};
use tv_program::Cond;

/// A relation after a sum, if one comes.
fn related(source: &Source, cursor: &mut Cursor, levels: u32, made: Made) -> Result<Piece, Reason>
    ensures reads { let before = left (stand source.now cursor.old) in
        let after = left (stand source.now cursor.new) in
        Gives piece_view result after ((turns (relation_cases (sum_at every levels true)) (value (made_view made))).read before) }
    ensures passed { Keeps source.now cursor.old cursor.new }
{
    match relation_of(kind_of(peek(source, cursor))) {
        Some(relation) => {
            pass(source, cursor)?;
            let other = sum(source, cursor, levels, true)?;
            Ok(Piece::Test(comparison(relation, made, other)))
        }
        None => Ok(Piece::Value(made)),
    }
}

/// The rest of a product, of a sum, and a relation after a factor.
fn tail(source: &Source, cursor: &mut Cursor, levels: u32, first: Made) -> Result<Piece, Reason>
    ensures reads { let before = left (stand source.now cursor.old) in
        let after = left (stand source.now cursor.new) in
        Gives piece_view result after ((tail every levels (made_view first)).read before) }
    ensures passed { Keeps source.now cursor.old cursor.new }
{
    let product = product_from(source, cursor, levels, true, first)?;
    let made = sum_from(source, cursor, levels, true, product)?;
    related(source, cursor, levels, made)
}

/// What may follow a `)`.
fn opened(source: &Source, cursor: &mut Cursor, levels: u32, piece: Piece) -> Result<Piece, Reason>
    ensures reads { let before = left (stand source.now cursor.old) in
        let after = left (stand source.now cursor.new) in
        Gives piece_view result after ((opened every levels (piece_view piece)).read before) }
    ensures passed { Keeps source.now cursor.old cursor.new }
{
    match piece {
        Piece::Value(made) => tail(source, cursor, levels, made),
        Piece::Test(cond) => Ok(Piece::Test(cond)),
    }
}

/// A thing that begins with a factor.
fn sum_thing(source: &Source, cursor: &mut Cursor, levels: u32) -> Result<Piece, Reason>
    ensures reads { let before = left (stand source.now cursor.old) in
        let after = left (stand source.now cursor.new) in
        Gives piece_view result after ((then (factor_at every levels true) (tail every levels)).read before) }
    ensures passed { Keeps source.now cursor.old cursor.new }
{
    let made = factor(source, cursor, levels, true)?;
    tail(source, cursor, levels, made)
}

/// `true` and `false`.
fn truth(source: &Source, cursor: &mut Cursor, truth: bool) -> Result<Cond, Reason>
    ensures reads { Gives condition result (left (stand source.now cursor.new)) (Ok (trees.truth truth, drop 1 (left (stand source.now cursor.old)))) }
    ensures passed { Keeps source.now cursor.old cursor.new }
{
    pass(source, cursor)?;
    Ok(Cond::Truth(truth))
}

fn truth_piece(source: &Source, cursor: &mut Cursor, truth: bool) -> Result<Piece, Reason>
    ensures reads { let before = left (stand source.now cursor.old) in
        let after = left (stand source.now cursor.new) in
        Gives piece_view result after (Ok (tested (trees.truth truth), drop 1 before)) }
    ensures passed { Keeps source.now cursor.old cursor.new }
{
    pass(source, cursor)?;
    Ok(Piece::Test(Cond::Truth(truth)))
}

/// A sum without a relation, or a part of a condition.
#[cycle(conditions)]
fn thing(source: &Source, cursor: &mut Cursor, levels: u32) -> Result<Piece, Reason>
    ensures reads { Gives piece_view result (left (stand source.now cursor.new)) ((thing_at every levels).read (left (stand source.now cursor.old))) }
    ensures passed { Keeps source.now cursor.old cursor.new }
{
    match kind_of(peek(source, cursor)) {
        TokenKind::LeftRound => {
            if levels == 0 {
                return Err(Reason::Deep);
            }
            pass(source, cursor)?;
            bracketed(source, cursor, levels - 1)
        }
        TokenKind::Not => {
            if levels == 0 {
                return Err(Reason::Deep);
            }
            pass(source, cursor)?;
            denied(source, cursor, levels - 1)
        }
        TokenKind::True => truth_piece(source, cursor, true),
        TokenKind::False => truth_piece(source, cursor, false),
        _ => sum_thing(source, cursor, levels),
    }
}

/// What follows a `(`, the `)`, and what may follow it, where a value may stand in the brackets.
#[cycle(conditions)]
fn bracketed(source: &Source, cursor: &mut Cursor, levels: u32) -> Result<Piece, Reason>
    requires deeper { levels + 1 < 2 ^ 32 }
    ensures reads { let before = left (stand source.now cursor.old) in
        let after = left (stand source.now cursor.new) in
        Gives piece_view result after ((in_brackets every (levels + 1) (thing_at every levels)).read before) }
    ensures passed { Keeps source.now cursor.old cursor.new }
{
    let piece = thing(source, cursor, levels)?;
    let piece = continued(source, cursor, levels, piece)?;
    let piece = close(source, cursor, piece)?;
    opened(source, cursor, levels + 1, piece)
}

/// What is joined to a test in brackets.
#[cycle(conditions)]
fn continued(
    source: &Source,
    cursor: &mut Cursor,
    levels: u32,
    piece: Piece,
) -> Result<Piece, Reason>
    ensures reads { let before = left (stand source.now cursor.old) in
        let after = left (stand source.now cursor.new) in
        Gives piece_view result after ((continued (literal_at every levels) (piece_view piece)).read before) }
    ensures passed { Keeps source.now cursor.old cursor.new }
{
    match piece {
        Piece::Value(made) => Ok(Piece::Value(made)),
        Piece::Test(cond) => {
            let front = conjunction_from(source, cursor, levels, cond)?;
            Ok(Piece::Test(condition_from(source, cursor, levels, front)?))
        }
    }
}

/// What follows a `!` at the front of a thing.
#[cycle(conditions)]
fn denied(source: &Source, cursor: &mut Cursor, levels: u32) -> Result<Piece, Reason>
    ensures reads { let before = left (stand source.now cursor.old) in
        let after = left (stand source.now cursor.new) in
        Gives piece_view result after ((mapped (λ c. tested (trees.negated c)) (plain_at every levels)).read before) }
    ensures passed { Keeps source.now cursor.old cursor.new }
{
    let cond = plain(source, cursor, levels)?;
    Ok(Piece::Test(negation(source.alloc, cond)?))
}

/// What follows a `!`.
#[cycle(conditions)]
fn negated(source: &Source, cursor: &mut Cursor, levels: u32) -> Result<Cond, Reason>
    ensures reads { let before = left (stand source.now cursor.old) in
        let after = left (stand source.now cursor.new) in
        Gives condition result after ((mapped negated (plain_at every levels)).read before) }
    ensures passed { Keeps source.now cursor.old cursor.new }
{
    let cond = plain(source, cursor, levels)?;
    Ok(negation(source.alloc, cond)?)
}

/// A condition that is no comparison.
#[cycle(conditions)]
fn plain(source: &Source, cursor: &mut Cursor, levels: u32) -> Result<Cond, Reason>
    ensures reads { Gives condition result (left (stand source.now cursor.new)) ((plain_at every levels).read (left (stand source.now cursor.old))) }
    ensures passed { Keeps source.now cursor.old cursor.new }
{
    match kind_of(peek(source, cursor)) {
        TokenKind::LeftRound => {
            if levels == 0 {
                return Err(Reason::Deep);
            }
            pass(source, cursor)?;
            enclosed(source, cursor, levels - 1)
        }
        TokenKind::Not => {
            if levels == 0 {
                return Err(Reason::Deep);
            }
            pass(source, cursor)?;
            negated(source, cursor, levels - 1)
        }
        TokenKind::True => truth(source, cursor, true),
        TokenKind::False => truth(source, cursor, false),
        _ => Err(Reason::Syntax),
    }
}

/// A condition after a `(`, and the `)`.
#[cycle(conditions)]
fn enclosed(source: &Source, cursor: &mut Cursor, levels: u32) -> Result<Cond, Reason>
    ensures reads { let before = left (stand source.now cursor.old) in
        let after = left (stand source.now cursor.new) in
        Gives condition result after ((then (condition_at every levels) closed).read before) }
    ensures passed { Keeps source.now cursor.old cursor.new }
{
    let cond = condition(source, cursor, levels)?;
    close(source, cursor, cond)
}

#[cycle(conditions)]
fn literal(source: &Source, cursor: &mut Cursor, levels: u32) -> Result<Cond, Reason>
    ensures reads { Gives condition result (left (stand source.now cursor.new)) ((literal_at every levels).read (left (stand source.now cursor.old))) }
    ensures passed { Keeps source.now cursor.old cursor.new }
{
    match thing(source, cursor, levels)? {
        Piece::Value(_) => Err(Reason::Syntax),
        Piece::Test(cond) => Ok(cond),
    }
}

#[cycle(conditions)]
fn and(
    source: &Source,
    cursor: &mut Cursor,
    levels: u32,
    conds: Vec<Cond>,
) -> Result<Turn<Vec<Cond>>, Reason>
    ensures reads { let before = left (stand source.now cursor.old) in
        let after = left (stand source.now cursor.new) in
        Turned conds_view result after (more_cases is_and (literal_at every levels)) (conds_view conds) before }
    ensures passed { Keeps source.now cursor.old cursor.new }
{
    match peek(source, cursor) {
        Some(Part::Fixed(TokenKind::And)) => {
            pass(source, cursor)?;
            let cond = literal(source, cursor, levels)?;
            Ok(Turn::On(add_cond(conds, cond)?))
        }
        _ => Ok(Turn::Off(conds)),
    }
}

/// The literals after the first ones of a conjunction.
#[cycle(conditions)]
fn ands(
    source: &Source,
    cursor: &mut Cursor,
    levels: u32,
    first: Vec<Cond>,
) -> Result<Vec<Cond>, Reason>
    ensures reads { let before = left (stand source.now cursor.old) in
        let after = left (stand source.now cursor.new) in
        Gives conds_view result after ((turns (more_cases is_and (literal_at every levels)) (conds_view first)).read before) }
    ensures passed { Keeps source.now cursor.old cursor.new }
{
    let mut conds = first;
    'turns: loop {
        match and(source, cursor, levels, conds)? {
            Turn::On(more) => conds = more,
            Turn::Off(all) => return Ok(all),
        }
    }
}

#[cycle(conditions)]
fn conjunction_from(
    source: &Source,
    cursor: &mut Cursor,
    levels: u32,
    first: Cond,
) -> Result<Cond, Reason>
    ensures reads { let before = left (stand source.now cursor.old) in
        let after = left (stand source.now cursor.new) in
        Gives condition result after ((conjunction_from (literal_at every levels) (condition first)).read before) }
    ensures passed { Keeps source.now cursor.old cursor.new }
{
    let conds = conds_of(source.alloc, first)?;
    Ok(all_of(ands(source, cursor, levels, conds)?))
}

#[cycle(conditions)]
fn conjunction(source: &Source, cursor: &mut Cursor, levels: u32) -> Result<Cond, Reason>
    ensures reads { let before = left (stand source.now cursor.old) in
        let after = left (stand source.now cursor.new) in
        Gives condition result after ((conjunction_over (literal_at every levels)).read before) }
    ensures passed { Keeps source.now cursor.old cursor.new }
{
    let first = literal(source, cursor, levels)?;
    conjunction_from(source, cursor, levels, first)
}

#[cycle(conditions)]
fn or(
    source: &Source,
    cursor: &mut Cursor,
    levels: u32,
    conds: Vec<Cond>,
) -> Result<Turn<Vec<Cond>>, Reason>
    ensures reads { let before = left (stand source.now cursor.old) in
        let after = left (stand source.now cursor.new) in
        let more = more_cases is_or (conjunction_over (literal_at every levels)) in
        Turned conds_view result after more (conds_view conds) before }
    ensures passed { Keeps source.now cursor.old cursor.new }
{
    match peek(source, cursor) {
        Some(Part::Fixed(TokenKind::Or)) => {
            pass(source, cursor)?;
            let cond = conjunction(source, cursor, levels)?;
            Ok(Turn::On(add_cond(conds, cond)?))
        }
        _ => Ok(Turn::Off(conds)),
    }
}

/// The conjunctions after the first ones of a condition.
#[cycle(conditions)]
fn ors(
    source: &Source,
    cursor: &mut Cursor,
    levels: u32,
    first: Vec<Cond>,
) -> Result<Vec<Cond>, Reason>
    ensures reads { let before = left (stand source.now cursor.old) in
        let after = left (stand source.now cursor.new) in
        let more = more_cases is_or (conjunction_over (literal_at every levels)) in
        Gives conds_view result after ((turns more (conds_view first)).read before) }
    ensures passed { Keeps source.now cursor.old cursor.new }
{
    let mut conds = first;
    'turns: loop {
        match or(source, cursor, levels, conds)? {
            Turn::On(more) => conds = more,
            Turn::Off(all) => return Ok(all),
        }
    }
}

#[cycle(conditions)]
fn condition_from(
    source: &Source,
    cursor: &mut Cursor,
    levels: u32,
    first: Cond,
) -> Result<Cond, Reason>
    ensures reads { let before = left (stand source.now cursor.old) in
        let after = left (stand source.now cursor.new) in
        Gives condition result after ((condition_from (conjunction_over (literal_at every levels)) (condition first)).read before) }
    ensures passed { Keeps source.now cursor.old cursor.new }
{
    let conds = conds_of(source.alloc, first)?;
    Ok(some_of(ors(source, cursor, levels, conds)?))
}

/// A condition that nests at most `levels` deep.
#[cycle(conditions)]
pub fn condition(source: &Source, cursor: &mut Cursor, levels: u32) -> Result<Cond, Reason>
    ensures reads { Gives condition result (left (stand source.now cursor.new)) ((condition_at every levels).read (left (stand source.now cursor.old))) }
    ensures passed { Keeps source.now cursor.old cursor.new }
{
    let first = conjunction(source, cursor, levels)?;
    condition_from(source, cursor, levels, first)
}
