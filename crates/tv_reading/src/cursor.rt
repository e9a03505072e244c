ghost use Rattle.std.specs.Prelude.{◌≡◌, ℕ, ◌+◌, ◌<◌, length, drop, OnOk, OnErr, List, Option, Some};
ghost use Rattle.std.specs.Option.{option_map};
ghost use Rattle.tv_language.specs.Symbols.{name, lexeme};
ghost use Rattle.tv_grammar.specs.Reads.{next};
ghost use Rattle.tv_reading.specs.Marks.{plain, name_mark, mark_by, names_behind, draws_behind, left, first};
ghost use Rattle.tv_reading.specs.Views.{mark_of, kind_at, stand, Keeps};

use crate::marks::{
    MOST_DRAWS, MOST_NAMES, Part, draw, is_formula_word, known_name, new_name, number,
};
use crate::source::Source;
use std::alloc::AllocError;
use tv_language::{Recent, Token, TokenKind, behind, find_near, word_of};
use tv_program::Names;

/// How many tokens are taken, the names and draws up to there, and the names that were taken last.
#[derive(Drop)]
pub struct Cursor {
    pub at: u32,
    pub names: Names,
    pub draws: u32,
    pub recent: Recent,
}

/// A name, given those that are known.
#[inline(always)]
fn name(grows: bool, names: &Names, recent: Recent, word: &[u8]) -> Part
    ensures { mark_of result ≡ name_mark grows word.now names.now }
{
    let number = find_near(names, recent, word);
    if grows {
        new_name(number, names.len())
    } else {
        known_name(is_formula_word(word), number)
    }
}

#[inline(always)]
fn see(source: &Source, cursor: &Cursor, token: Token) -> Part
    ensures { mark_of result ≡ mark_by source.now.grows cursor.now.names cursor.now.draws token.kind (lexeme source.now.text.now token).word }
{
    match token.kind {
        TokenKind::Name => name(
            source.grows,
            &cursor.names,
            cursor.recent,
            word_of(source.text, token),
        ),
        TokenKind::Number => number(word_of(source.text, token)),
        TokenKind::Nondet => draw(source.grows, cursor.draws),
        kind => Part::Fixed(kind),
    }
}

/// The token with this number, if there is one.
#[inline(always)]
pub fn current(list: &[Token], at: u32) -> Option<Token>
    ensures { result ≡ first (drop at list.now) }
{
    let place = at as usize;
    if place >= list.len() {
        return None;
    }
    Some(list[place])
}

/// The next token as the grammar sees it.
#[inline(always)]
pub fn peek(source: &Source, cursor: &Cursor) -> Option<Part>
    ensures { option_map mark_of result ≡ next (left (stand source.now cursor.now)) }
{
    match current(source.list, cursor.at) {
        Some(token) => Some(see(source, cursor, token)),
        None => None,
    }
}

/// The kind of a token that is neither a number, nor a name, nor a draw.
#[inline(always)]
pub fn kind_of(part: Option<Part>) -> TokenKind
    ensures { result ≡ kind_at (option_map mark_of part) }
{
    match part {
        Some(Part::Fixed(kind)) => kind,
        _ => TokenKind::Unread,
    }
}

/// The kind of a token, as `kind_of` gives it for what the grammar sees.
#[inline(always)]
fn kind_seen(source: &Source, cursor: &Cursor, token: Token) -> TokenKind
    ensures { result ≡ kind_at (Some (mark_by source.now.grows cursor.now.names cursor.now.draws token.kind (lexeme source.now.text.now token).word)) }
{
    match token.kind {
        TokenKind::Name | TokenKind::Number | TokenKind::Nondet => {
            kind_of(Some(see(source, cursor, token)))
        }
        kind => kind,
    }
}

/// The kind of the next token, if it is neither a number, nor a name, nor a draw.
#[inline(always)]
pub fn next_kind(source: &Source, cursor: &Cursor) -> TokenKind
    ensures { result ≡ kind_at (next (left (stand source.now cursor.now))) }
{
    match current(source.list, cursor.at) {
        Some(token) => kind_seen(source, cursor, token),
        None => TokenKind::Unread,
    }
}

/// Counts what the token brings in.
#[inline(always)]
fn count(
    source: &Source,
    names: &mut Names,
    draws: &mut u32,
    token: Token,
) -> Result<(), AllocError>
    ensures names { OnOk result (names.new ≡ names_behind source.now.grows token.kind (lexeme source.now.text.now token).word names.old) }
    ensures draws { OnOk result (draws.new ≡ draws_behind token.kind draws.old) }
    ensures unchanged { OnErr result ((names.new ≡ names.old) × (draws.new ≡ draws.old)) }
{
    match token.kind {
        TokenKind::Name => {
            if source.grows && names.len() < MOST_NAMES {
                names.put(word_of(source.text, token))?;
            }
        }
        TokenKind::Nondet => {
            if *draws < MOST_DRAWS {
                *draws += 1;
            }
        }
        _ => {}
    }
    Ok(())
}

/// Takes a token, and what it brings in.
#[inline(always)]
pub fn pass(source: &Source, cursor: &mut Cursor) -> Result<(), AllocError>
    ensures rest { OnOk result (left (stand source.now cursor.new) ≡ drop 1 (left (stand source.now cursor.old))) }
    ensures passed { Keeps source.now cursor.old cursor.new }
{
    match current(source.list, cursor.at) {
        Some(token) => {
            count(source, &mut cursor.names, &mut cursor.draws, token)?;
            cursor.at += 1;
        }
        None => {}
    }
    Ok(())
}

/// Counts what a name of this number brings in: nothing where it is known.
#[inline(always)]
fn count_name(
    source: &Source,
    names: &mut Names,
    draws: &mut u32,
    token: Token,
    number: u32,
) -> Result<(), AllocError>
    requires seen { mark_by source.now.grows names.old draws.old token.kind (lexeme source.now.text.now token).word ≡ plain (name number) }
    ensures names { OnOk result (names.new ≡ names_behind source.now.grows token.kind (lexeme source.now.text.now token).word names.old) }
    ensures draws { OnOk result (draws.new ≡ draws_behind token.kind draws.old) }
    ensures unchanged { OnErr result ((names.new ≡ names.old) × (draws.new ≡ draws.old)) }
{
    if number < names.len() {
        return Ok(());
    }
    count(source, names, draws, token)
}

/// Takes the name of this number, and what it brings in.
#[inline(always)]
pub fn pass_name(source: &Source, cursor: &mut Cursor, number: u32) -> Result<(), AllocError>
    requires named { next (left (stand source.now cursor.old)) ≡ Some (plain (name number)) }
    ensures rest { OnOk result (left (stand source.now cursor.new) ≡ drop 1 (left (stand source.now cursor.old))) }
    ensures passed { Keeps source.now cursor.old cursor.new }
{
    match current(source.list, cursor.at) {
        Some(token) => {
            count_name(source, &mut cursor.names, &mut cursor.draws, token, number)?;
            cursor.recent = behind(cursor.recent, number);
            cursor.at += 1;
        }
        None => {}
    }
    Ok(())
}
