ghost use Rattle.std.specs.Prelude.{◌≡◌, false, ◌+◌, ◌<◌, Option, length, drop};
ghost use Rattle.std.specs.Option.{option_map};
ghost use Rattle.tv_language.specs.Symbols.{lexeme};
ghost use Rattle.tv_grammar.specs.Reads.{next};
ghost use Rattle.tv_reading.specs.Marks.{first};
ghost use Rattle.tv_reading.specs.Views.{is_last};
ghost use Rattle.tv_formula_reader.specs.Answers.{left, IsOver, Stays, kind_seen};
ghost use Rattle.tv_formula_reader.specs.Seen.{seen};

use std::alloc::Global;
use tv_language::{Token, TokenKind, number_of, word_of};
use tv_program::Names;
use tv_reading::{Reading, is_formula_word};

/// A text and its tokens, and the labels of the locations.
#[derive(Drop)]
pub struct Source<'a> {
    pub text: &'a [u8],
    pub list: &'a [Token],
    pub labels: &'a Names,
    pub alloc: Global,
}

/// The next token, if there is one.
pub fn next_token(source: &Source, reading: &Reading) -> Option<Token>
    requires over { IsOver source.now reading.now }
    ensures { result ≡ first (drop reading.now.at source.now.list.now) }
{
    let at = reading.place() as usize;
    if at >= source.list.len() {
        return None;
    }
    Some(source.list[at])
}

/// The kind of a token, where it is neither a number below 2^62 nor a variable.
fn kind_of(source: &Source, reading: &Reading, token: Token) -> TokenKind
    ensures { result ≡ kind_seen (Some (seen
        (record { variables = reading.now.names; labels = source.now.labels.now })
        (lexeme source.now.text.now token))) }
{
    match token.kind {
        TokenKind::Name => {
            if is_formula_word(word_of(source.text, token)) {
                TokenKind::Name
            } else {
                TokenKind::Unread
            }
        }
        TokenKind::Number => match number_of(word_of(source.text, token)) {
            Some(_) => TokenKind::Unread,
            None => TokenKind::Wide,
        },
        kind => kind,
    }
}

/// The kind of the next token, likewise.
pub fn next_kind(source: &Source, reading: &Reading) -> TokenKind
    requires over { IsOver source.now reading.now }
    ensures { result ≡ kind_seen (next (left source.now reading.now)) }
{
    match next_token(source, reading) {
        Some(token) => kind_of(source, reading, token),
        None => TokenKind::Unread,
    }
}

/// Takes the next token, which is not the last one.
pub fn pass(source: &Source, reading: &mut Reading)
    requires over { IsOver source.now reading.old }
    requires more { reading.old.at + 1 < length source.now.list.now }
    ensures rest { left source.now reading.new ≡ drop 1 (left source.now reading.old) }
    ensures stays { Stays source.now reading.old reading.new }
{
    reading.take();
}

/// Takes the next token, whose kind says that it is not the last one.
pub fn pass_kind(source: &Source, reading: &mut Reading)
    requires over { IsOver source.now reading.old }
    requires inner { is_last (kind_seen (next (left source.now reading.old))) ≡ false }
    ensures rest { left source.now reading.new ≡ drop 1 (left source.now reading.old) }
    ensures stays { Stays source.now reading.old reading.new }
{
    pass(source, reading);
}
