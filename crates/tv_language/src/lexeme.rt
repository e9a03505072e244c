ghost use Rattle.std.specs.Prelude.{◌≡◌, ◌^◌, ◌<◌, ◌≤◌, MatchOption, ℤ, pos};
ghost use Rattle.tv_language.specs.Conditions.{relation_of};
ghost use Rattle.tv_language.specs.Numbers.{value_of_digits};
ghost use Rattle.tv_language.specs.Symbols.{lexeme, is_name, is_label, is_colon};

use crate::{Token, TokenKind};
use tv_program::Relation;

/// The bytes of a token of the text.
#[inline(always)]
pub fn word_of(text: &[u8], token: Token) -> &[u8]
    ensures { result.now ≡ (lexeme text.now token).word }
{
    let (_, behind) = text.split_at((token.at as usize).min(text.len()));
    let (word, _) = behind.split_at((token.len as usize).min(behind.len()));
    word
}

/// The number that digits write, where it is below 2^62.
#[inline(always)]
pub fn number_of(digits: &[u8]) -> Option<i128>
    ensures { MatchOption result (2 ^ 62 ≤ value_of_digits digits.now)
        (λ n. (n ≡ pos (value_of_digits digits.now)) × (value_of_digits digits.now < 2 ^ 62)) }
{
    let mut total: u128 = 0;
    for digit in digits {
        total = 10 * total + digit.saturating_sub(b'0') as u128;
        if total >= 1 << 62 {
            return None;
        }
    }
    Some(total as i128)
}

/// Whether it is a name, which is no reserved word.
#[inline(always)]
pub fn is_name(kind: TokenKind) -> bool
    ensures { result ≡ is_name kind }
{
    matches!(kind, TokenKind::Name)
}

/// Whether a label is of this kind: a name or a number.
#[inline(always)]
pub fn is_label(kind: TokenKind) -> bool
    ensures { result ≡ is_label kind }
{
    matches!(kind, TokenKind::Name | TokenKind::Number)
}

/// Whether a label follows.
#[inline(always)]
pub fn is_colon(kind: TokenKind) -> bool
    ensures { result ≡ is_colon kind }
{
    matches!(kind, TokenKind::Colon)
}

/// The relation that a token stands for.
#[inline(always)]
pub fn relation_of(kind: TokenKind) -> Option<Relation>
    ensures { result ≡ relation_of kind }
{
    match kind {
        TokenKind::Less => Some(Relation::Less),
        TokenKind::LessEqual => Some(Relation::LessEqual),
        TokenKind::Greater => Some(Relation::Greater),
        TokenKind::GreaterEqual => Some(Relation::GreaterEqual),
        TokenKind::Equal => Some(Relation::Equal),
        TokenKind::NotEqual => Some(Relation::NotEqual),
        _ => None,
    }
}
