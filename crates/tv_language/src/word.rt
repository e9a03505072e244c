ghost use Rattle.std.specs.Prelude.{◌≡◌, ℕ, ◌+◌, ◌-◌, ◌<◌, ◌≤◌, length, codes};
ghost use Rattle.std.specs.List.{prefix_len};
ghost use Rattle.std.specs.Str.{bytes_eq};
ghost use Rattle.tv_language.specs.WordTexts.{begins_name, continues_name, word_kind, command_kind};

use crate::token::TokenKind;

#[inline(always)]
pub fn begins_name(byte: u8) -> bool
    ensures { result ≡ begins_name byte }
{
    byte.is_ascii_alphabetic() || byte == b'_'
}

#[inline(always)]
fn continues_name(byte: u8) -> bool
    ensures { result ≡ continues_name byte }
{
    begins_name(byte)
        || byte.is_ascii_digit()
        || byte == b'.'
        || byte == b'\''
        || byte == b'^'
        || byte == b'$'
}

/// How many bytes at the front can go on with a name.
#[inline(always)]
pub fn name_length(bytes: &[u8]) -> usize
    ensures exact { result ≡ prefix_len continues_name bytes.now }
    ensures within { result ≤ length bytes.now }
{
    bytes
        .iter()
        .take_while(|byte| continues_name(**byte))
        .count()
}

/// Whether two words are the same.
#[inline(always)]
pub fn is_word(word: &[u8], other: &[u8]) -> bool
    ensures { result ≡ bytes_eq word.now other.now }
{
    word == other
}

/// What a word of letters is: a reserved word or a name.
#[inline(always)]
pub fn word_kind(word: &[u8]) -> TokenKind
    ensures { result ≡ word_kind word.now }
{
    if is_word(word, b"START") {
        TokenKind::Start
    } else if is_word(word, b"FROM") {
        TokenKind::From
    } else if is_word(word, b"TO") {
        TokenKind::To
    } else if is_word(word, b"AT") {
        TokenKind::At
    } else if is_word(word, b"CUTPOINT") {
        TokenKind::Cutpoint
    } else if is_word(word, b"ERROR") {
        TokenKind::Error
    } else if is_word(word, b"SHADOW") {
        TokenKind::Shadow
    } else {
        command_kind(word)
    }
}

#[inline(always)]
fn command_kind(word: &[u8]) -> TokenKind
    ensures { result ≡ command_kind word.now }
{
    if is_word(word, b"PROCESS") {
        TokenKind::Process
    } else if is_word(word, b"assume") {
        TokenKind::Assume
    } else if is_word(word, b"nondet") {
        TokenKind::Nondet
    } else if is_word(word, b"true") {
        TokenKind::True
    } else if is_word(word, b"false") {
        TokenKind::False
    } else {
        TokenKind::Name
    }
}
