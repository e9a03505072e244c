ghost use Rattle.std.specs.Prelude.{◌≡◌, ℕ, ◌+◌, ◌-◌, ◌^◌, ◌<◌, ◌≤◌, ◌==◌, List, ◌∷◌, length, slice_index, take, drop, IfSome, IsTrue};
ghost use Rattle.std.specs.Char.{is_ascii_digit};
ghost use Rattle.std.specs.List.{prefix_len, position};
ghost use Rattle.tv_language.specs.Fronts.{span, end_of_last, section, number_front, word_front, symbol_front, single_front, solid_front, front_of, Fits};
ghost use Rattle.tv_language.specs.WordTexts.{begins_name, continues_name, word_kind};

use crate::gap::{gap, gap_length};
use crate::number::{is_wide, number_length};
use crate::token::TokenKind;
use crate::word::{begins_name, name_length, word_kind};

/// What stands at the front of a text, and how many bytes it has.
#[derive(Clone, Copy, Debug, PartialEq, Eq)]
pub enum Front {
    End,
    Gap(usize),
    Token(TokenKind, usize),
    Unread,
}

/// How far into a text there is still a `;` and a `)`: after these places there is none.
#[derive(Clone, Copy, Debug, PartialEq, Eq)]
pub struct Reach {
    pub semicolon: usize,
    pub round: usize,
}

/// The place of the first such byte.
fn place_of(bytes: &[u8], close: u8, reach: usize) -> Option<usize>
    requires { reach ≡ end_of_last close bytes.now }
    ensures exact { result ≡ position (λ byte. byte == close) bytes.now }
    ensures within { IfSome result (λ n. n < length bytes.now) }
{
    if reach == 0 {
        return None;
    }
    bytes.iter().position(|byte| *byte == close)
}

/// How many bytes there are up to the first `close` after the blanks, the comments and the byte `opening`.
fn span(text: &[u8], opening: u8, close: u8, reach: usize) -> Option<usize>
    requires short { length text.now + 1 < 2 ^ 32 }
    requires opens { 0 < opening }
    requires reach { reach ≡ end_of_last close text.now }
    ensures exact { result ≡ span opening close text.now }
    ensures within { IfSome result (λ n. (0 < n) × (n ≤ length text.now)) }
{
    let gaps = gap_length(text);
    let (_, rest) = text.split_at(gaps);
    if first_byte(rest) != opening {
        return None;
    }
    let (_, inner) = rest.split_at(1);
    match place_of(inner, close, reach.saturating_sub(gaps + 1)) {
        Some(n) => Some(gaps + 1 + n + 1),
        None => None,
    }
}

/// A word of `len` bytes, with what belongs to it in the text after it.
fn section(whole: TokenKind, bare: TokenKind, len: usize, more: Option<usize>) -> Front
    requires positive { 0 < len }
    requires short { len < 2 ^ 32 }
    requires within { IfSome more (λ n. n < 2 ^ 32) }
    ensures { result ≡ section whole bare len more }
{
    match more {
        Some(more) => Front::Token(whole, len + more),
        None => Front::Token(bare, len),
    }
}

/// What a word of `len` bytes is, with the text after it.
#[inline(always)]
fn word_front(kind: TokenKind, len: usize, rest: &[u8], reach: Reach) -> Front
    requires positive { 0 < len }
    requires short { len + length rest.now + 1 < 2 ^ 32 }
    requires semicolon { reach.semicolon ≡ end_of_last 59 rest.now }
    requires round { reach.round ≡ end_of_last 41 rest.now }
    ensures exact { result ≡ word_front kind len rest.now }
    ensures fits { Fits (len + length rest.now) result }
{
    match kind {
        TokenKind::Cutpoint | TokenKind::Error | TokenKind::Shadow => {
            section(
                TokenKind::Passed,
                kind,
                len,
                span(rest, b':', b';', reach.semicolon),
            )
        }
        TokenKind::At => section(
            TokenKind::Mark,
            kind,
            len,
            span(rest, b'(', b')', reach.round),
        ),
        _ => Front::Token(kind, len),
    }
}

/// The number at the front.
#[inline(always)]
fn number_front(text: &[u8]) -> Front
    requires { IsTrue (is_ascii_digit (slice_index text.now 0)) }
    ensures exact { result ≡ number_front (prefix_len is_ascii_digit text.now) (take (prefix_len is_ascii_digit text.now) text.now) }
    ensures fits { Fits (length text.now) result }
{
    let len = number_length(text);
    let (digits, _) = text.split_at(len);
    if is_wide(digits) {
        Front::Token(TokenKind::Wide, len)
    } else {
        Front::Token(TokenKind::Number, len)
    }
}

/// The first byte, 0 where there is none.
#[inline(always)]
fn first_byte(text: &[u8]) -> u8
    ensures exact { result ≡ slice_index text.now 0 }
    ensures some { 0 < result → 0 < length text.now }
{
    match text {
        [byte, ..] => *byte,
        [] => 0,
    }
}

/// The symbol of two bytes or of the first of them.
#[inline(always)]
fn symbol_front(byte: u8, after: u8) -> Front
    ensures exact { result ≡ symbol_front byte after }
    ensures fits { (len : ℕ) → 0 < len → (0 < after → 1 < len) → Fits len result }
{
    match (byte, after) {
        (b':', b'=') => Front::Token(TokenKind::Assign, 2),
        (b'<', b'=') => Front::Token(TokenKind::LessEqual, 2),
        (b'>', b'=') => Front::Token(TokenKind::GreaterEqual, 2),
        (b'=', b'=') => Front::Token(TokenKind::Equal, 2),
        (b'!', b'=') => Front::Token(TokenKind::NotEqual, 2),
        (b'&', b'&') => Front::Token(TokenKind::And, 2),
        (b'|', b'|') => Front::Token(TokenKind::Or, 2),
        _ => single_front(byte),
    }
}

/// The symbol of one byte.
#[inline(always)]
fn single_front(byte: u8) -> Front
    ensures exact { result ≡ single_front byte }
    ensures fits { (len : ℕ) → 0 < len → Fits len result }
{
    match byte {
        b':' => Front::Token(TokenKind::Colon, 1),
        b'<' => Front::Token(TokenKind::Less, 1),
        b'>' => Front::Token(TokenKind::Greater, 1),
        b'!' => Front::Token(TokenKind::Not, 1),
        b';' => Front::Token(TokenKind::Semicolon, 1),
        b'(' => Front::Token(TokenKind::LeftRound, 1),
        b')' => Front::Token(TokenKind::RightRound, 1),
        b'[' => Front::Token(TokenKind::LeftSquare, 1),
        b']' => Front::Token(TokenKind::RightSquare, 1),
        b'+' => Front::Token(TokenKind::Plus, 1),
        b'-' => Front::Token(TokenKind::Minus, 1),
        b'*' => Front::Token(TokenKind::Star, 1),
        _ => Front::Unread,
    }
}

/// The word at the front.
#[inline(always)]
fn name_front(text: &[u8], rest: &[u8], reach: Reach) -> Front
    requires text { (byte : ℕ) × (text.now ≡ byte ∷ rest.now) }
    requires short { length text.now + 1 < 2 ^ 32 }
    requires semicolon { reach.semicolon ≡ end_of_last 59 text.now }
    requires round { reach.round ≡ end_of_last 41 text.now }
    ensures exact { let behind = prefix_len continues_name rest.now in
        result ≡ word_front (word_kind (take (1 + behind) text.now)) (1 + behind) (drop behind rest.now) }
    ensures fits { Fits (length text.now) result }
{
    let more = name_length(rest);
    let (word, _) = text.split_at(1 + more);
    let (_, behind) = rest.split_at(more);
    let inner = Reach {
        semicolon: reach.semicolon.saturating_sub(1 + more),
        round: reach.round.saturating_sub(1 + more),
    };
    word_front(word_kind(word), 1 + more, behind, inner)
}

/// What stands at the front of a text.
#[tactic(auto, unfolding(crate::specs::Fronts::front_of))]
#[inline(always)]
pub fn front_at(text: &[u8], reach: Reach) -> Front
    requires short { length text.now + 1 < 2 ^ 32 }
    requires semicolon { reach.semicolon ≡ end_of_last 59 text.now }
    requires round { reach.round ≡ end_of_last 41 text.now }
    ensures exact { result ≡ front_of text.now }
    ensures fits { Fits (length text.now) result }
{
    match text {
        [] => Front::End,
        [byte, rest @ ..] => match gap(text) {
            Some(n) => Front::Gap(n),
            None => {
                if begins_name(*byte) {
                    name_front(text, rest, reach)
                } else if byte.is_ascii_digit() {
                    number_front(text)
                } else {
                    symbol_front(*byte, first_byte(rest))
                }
            }
        },
    }
}
