ghost use Rattle.std.specs.Prelude.{◌≡◌, ◌∷◌, [], ℕ, drop, Ok, Some, true, false};
ghost use Rattle.tv_program.specs.Trees as trees;
ghost use Rattle.tv_program.specs.Trees.{minus};
ghost use Rattle.tv_language.specs.Sums.{gathered};
ghost use Rattle.tv_grammar.specs.Reads.{next};
ghost use Rattle.tv_grammar.specs.Langs.{turns, then, mapped, branch_read};
ghost use Rattle.tv_reading.specs.Marks.{left};
ghost use Rattle.tv_reading.specs.SumGrammar.{every, closed, brackets, leaf_cases, star_cases, sum_cases, factor_at, product_at, sum_at};
ghost use Rattle.tv_reading.specs.Views.{mark_of, IsNamed, stand, Keeps, made_view, parts_view};
ghost use Rattle.tv_reading.specs.Answers.{Gives, Turned};

use crate::cursor::{Cursor, kind_of, next_kind, pass, pass_name, peek};
use crate::marks::Part;
use crate::reason::{Reason, Turn};
use crate::source::Source;
use crate::trees::{
    Made, Run, add, draw_of, minus_of, number_of, product_of, run_of, sum_of, variable_of,
};
use tv_language::TokenKind;

/// `)` after what is read.
pub fn close<T: Drop>(source: &Source, cursor: &mut Cursor, value: T) -> Result<T, Reason>
    ensures reads { Gives (λ v. v) result (left (stand source.now cursor.new)) ((closed value).read (left (stand source.now cursor.old))) }
    ensures passed { Keeps source.now cursor.old cursor.new }
{
    match peek(source, cursor) {
        Some(Part::Fixed(TokenKind::RightRound)) => {
            pass(source, cursor)?;
            Ok(value)
        }
        _ => Err(Reason::Syntax),
    }
}

/// `()` after `nondet`.
fn draw_brackets(source: &Source, cursor: &mut Cursor, made: Made) -> Result<Made, Reason>
    ensures reads { Gives made_view result (left (stand source.now cursor.new)) ((brackets (made_view made)).read (left (stand source.now cursor.old))) }
    ensures passed { Keeps source.now cursor.old cursor.new }
{
    match peek(source, cursor) {
        Some(Part::Fixed(TokenKind::LeftRound)) => {
            pass(source, cursor)?;
            close(source, cursor, made)
        }
        _ => Err(Reason::Syntax),
    }
}

/// A factor that begins with this token, which is neither `(` nor `-`.
///
/// Where `free` is false, an earlier factor of a product has a name or a draw.
#[inline(always)]
fn leaf(source: &Source, cursor: &mut Cursor, free: bool, part: Part) -> Result<Made, Reason>
    requires seen { next (left (stand source.now cursor.old)) ≡ Some (mark_of part) }
    ensures reads { let before = left (stand source.now cursor.old) in
        let after = left (stand source.now cursor.new) in
        Gives made_view result after (branch_read (leaf_cases every free (mark_of part)) before (drop 1 before)) }
    ensures passed { Keeps source.now cursor.old cursor.new }
{
    match part {
        Part::Number(value) => {
            pass(source, cursor)?;
            Ok(number_of(value))
        }
        Part::Fixed(TokenKind::Wide) => Err(Reason::Wide),
        Part::Fixed(_) => Err(Reason::Syntax),
        _ => named(source, cursor, free, part),
    }
}

/// A name or a draw.
#[inline(always)]
fn named(source: &Source, cursor: &mut Cursor, free: bool, part: Part) -> Result<Made, Reason>
    requires numbered { IsNamed part }
    requires seen { next (left (stand source.now cursor.old)) ≡ Some (mark_of part) }
    ensures reads { let before = left (stand source.now cursor.old) in
        let after = left (stand source.now cursor.new) in
        Gives made_view result after (branch_read (leaf_cases every free (mark_of part)) before (drop 1 before)) }
    ensures passed { Keeps source.now cursor.old cursor.new }
{
    if !free {
        return Err(Reason::NotLinear);
    }
    match part {
        Part::Variable(number) => {
            pass_name(source, cursor, number)?;
            Ok(variable_of(number))
        }
        Part::Draw(number) => {
            pass(source, cursor)?;
            draw_brackets(source, cursor, draw_of(number))
        }
        Part::UnknownName => Err(Reason::UnknownName),
        _ => Err(Reason::TooMany),
    }
}

/// A factor that nests at most `levels` deep.
#[cycle(sums)]
pub fn factor(source: &Source, cursor: &mut Cursor, levels: u32, free: bool) -> Result<Made, Reason>
    ensures reads { let before = left (stand source.now cursor.old) in
        let after = left (stand source.now cursor.new) in
        Gives made_view result after ((factor_at every levels free).read before) }
    ensures passed { Keeps source.now cursor.old cursor.new }
{
    let part = peek(source, cursor);
    match kind_of(part) {
        TokenKind::LeftRound => {
            if levels == 0 {
                return Err(Reason::Deep);
            }
            pass(source, cursor)?;
            bracketed(source, cursor, levels - 1, free)
        }
        TokenKind::Minus => {
            if levels == 0 {
                return Err(Reason::Deep);
            }
            pass(source, cursor)?;
            signed(source, cursor, levels - 1, free)
        }
        _ => match part {
            Some(part) => leaf(source, cursor, free, part),
            None => Err(Reason::Syntax),
        },
    }
}

/// What follows a `(`.
#[cycle(sums)]
fn bracketed(source: &Source, cursor: &mut Cursor, levels: u32, free: bool) -> Result<Made, Reason>
    ensures reads { let before = left (stand source.now cursor.old) in
        let after = left (stand source.now cursor.new) in
        Gives made_view result after ((then (sum_at every levels free) closed).read before) }
    ensures passed { Keeps source.now cursor.old cursor.new }
{
    let made = sum(source, cursor, levels, free)?;
    close(source, cursor, made)
}

/// What follows a sign.
#[cycle(sums)]
fn signed(source: &Source, cursor: &mut Cursor, levels: u32, free: bool) -> Result<Made, Reason>
    ensures reads { let before = left (stand source.now cursor.old) in
        let after = left (stand source.now cursor.new) in
        Gives made_view result after ((mapped minus (factor_at every levels free)).read before) }
    ensures passed { Keeps source.now cursor.old cursor.new }
{
    let made = factor(source, cursor, levels, free)?;
    Ok(minus_of(source.alloc, made)?)
}

#[cycle(sums)]
#[inline(always)]
fn star(
    source: &Source,
    cursor: &mut Cursor,
    levels: u32,
    free: bool,
    run: Run,
) -> Result<Turn<Run>, Reason>
    ensures reads { let before = left (stand source.now cursor.old) in
        let after = left (stand source.now cursor.new) in
        Turned parts_view result after (star_cases (factor_at every levels) free) (parts_view run) before }
    ensures passed { Keeps source.now cursor.old cursor.new }
{
    match peek(source, cursor) {
        Some(Part::Fixed(TokenKind::Star)) => {
            pass(source, cursor)?;
            let made = factor(source, cursor, levels, free && !run.named)?;
            Ok(Turn::On(add(run, made)?))
        }
        _ => Ok(Turn::Off(run)),
    }
}

/// The factors after the first ones of a product.
#[cycle(sums)]
fn stars(
    source: &Source,
    cursor: &mut Cursor,
    levels: u32,
    free: bool,
    first: Run,
) -> Result<Run, Reason>
    ensures reads { let before = left (stand source.now cursor.old) in
        let after = left (stand source.now cursor.new) in
        Gives parts_view result after ((turns (star_cases (factor_at every levels) free) (parts_view first)).read before) }
    ensures passed { Keeps source.now cursor.old cursor.new }
{
    let mut run = first;
    'turns: loop {
        match star(source, cursor, levels, free, run)? {
            Turn::On(more) => run = more,
            Turn::Off(all) => return Ok(all),
        }
    }
}

/// The product that begins with this factor.
#[cycle(sums)]
pub fn product_from(
    source: &Source,
    cursor: &mut Cursor,
    levels: u32,
    free: bool,
    first: Made,
) -> Result<Made, Reason>
    ensures reads { let before = left (stand source.now cursor.old) in
        let after = left (stand source.now cursor.new) in
        let run = turns (star_cases (factor_at every levels) free) (made_view first ∷ []) in
        Gives made_view result after ((mapped (gathered trees.product) run).read before) }
    ensures passed { Keeps source.now cursor.old cursor.new }
{
    match next_kind(source, cursor) {
        TokenKind::Star => {
            let run = run_of(source.alloc, first)?;
            let all = stars(source, cursor, levels, free, run)?;
            Ok(product_of(all))
        }
        _ => Ok(first),
    }
}

#[cycle(sums)]
#[inline(always)]
fn product(source: &Source, cursor: &mut Cursor, levels: u32, free: bool) -> Result<Made, Reason>
    ensures reads { let before = left (stand source.now cursor.old) in
        let after = left (stand source.now cursor.new) in
        Gives made_view result after ((product_at every levels free).read before) }
    ensures passed { Keeps source.now cursor.old cursor.new }
{
    let first = factor(source, cursor, levels, free)?;
    product_from(source, cursor, levels, free, first)
}

#[cycle(sums)]
#[inline(always)]
fn sign(
    source: &Source,
    cursor: &mut Cursor,
    levels: u32,
    free: bool,
    run: Run,
) -> Result<Turn<Run>, Reason>
    ensures reads { let before = left (stand source.now cursor.old) in
        let after = left (stand source.now cursor.new) in
        Turned parts_view result after (sum_cases (product_at every levels free)) (parts_view run) before }
    ensures passed { Keeps source.now cursor.old cursor.new }
{
    match peek(source, cursor) {
        Some(Part::Fixed(TokenKind::Plus)) => {
            pass(source, cursor)?;
            let made = product(source, cursor, levels, free)?;
            Ok(Turn::On(add(run, made)?))
        }
        Some(Part::Fixed(TokenKind::Minus)) => {
            pass(source, cursor)?;
            let made = product(source, cursor, levels, free)?;
            let made = minus_of(source.alloc, made)?;
            Ok(Turn::On(add(run, made)?))
        }
        _ => Ok(Turn::Off(run)),
    }
}

/// The products after the first ones of a sum.
#[cycle(sums)]
fn signs(
    source: &Source,
    cursor: &mut Cursor,
    levels: u32,
    free: bool,
    first: Run,
) -> Result<Run, Reason>
    ensures reads { let before = left (stand source.now cursor.old) in
        let after = left (stand source.now cursor.new) in
        Gives parts_view result after ((turns (sum_cases (product_at every levels free)) (parts_view first)).read before) }
    ensures passed { Keeps source.now cursor.old cursor.new }
{
    let mut run = first;
    'turns: loop {
        match sign(source, cursor, levels, free, run)? {
            Turn::On(more) => run = more,
            Turn::Off(all) => return Ok(all),
        }
    }
}

/// The sum that begins with this product.
#[cycle(sums)]
pub fn sum_from(
    source: &Source,
    cursor: &mut Cursor,
    levels: u32,
    free: bool,
    first: Made,
) -> Result<Made, Reason>
    ensures reads { let before = left (stand source.now cursor.old) in
        let after = left (stand source.now cursor.new) in
        let run = turns (sum_cases (product_at every levels free)) (made_view first ∷ []) in
        Gives made_view result after ((mapped (gathered trees.sum) run).read before) }
    ensures passed { Keeps source.now cursor.old cursor.new }
{
    match next_kind(source, cursor) {
        TokenKind::Plus | TokenKind::Minus => {
            let run = run_of(source.alloc, first)?;
            let all = signs(source, cursor, levels, free, run)?;
            Ok(sum_of(all))
        }
        _ => Ok(first),
    }
}

/// A sum that nests at most `levels` deep.
#[cycle(sums)]
#[inline(always)]
pub fn sum(source: &Source, cursor: &mut Cursor, levels: u32, free: bool) -> Result<Made, Reason>
    ensures reads { Gives made_view result (left (stand source.now cursor.new)) ((sum_at every levels free).read (left (stand source.now cursor.old))) }
    ensures passed { Keeps source.now cursor.old cursor.new }
{
    let first = product(source, cursor, levels, free)?;
    sum_from(source, cursor, levels, free, first)
}
