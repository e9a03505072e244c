ghost use Rattle.std.specs.Prelude.{◌≡◌, ℕ, ◌+◌, ◌-◌, ◌^◌, ◌<◌, ◌≤◌, List, length, IfOk, IfErr, drop, find};
ghost use Rattle.tv_language.specs.Fronts.{end_of_last};
ghost use Rattle.tv_language.specs.Tokens.{IsTokens, is_fault, IsAnswer};

use crate::front::{Front, Reach, front_at};
use crate::token::{Token, TokenFault, TokenKind};
use std::alloc::{AllocError, Global};

/// The place after the last such byte, 0 where there is none.
fn end_of_last(text: &[u8], close: u8) -> usize
    requires { length text.now < 2 ^ 32 }
    ensures exact { result ≡ end_of_last close text.now }
    ensures within { result ≤ length text.now }
{
    let mut rest = text;
    while let [front @ .., byte] = rest {
        if *byte == close {
            return rest.len();
        }
        rest = front;
    }
    0
}

/// The tokens of a text, up to its end or to the first byte that no token can hold.
///
/// A wide number is a token of its own kind, so there is always a list. The time is linear in the text.
pub fn scan(alloc: Global, text: &[u8]) -> Result<Vec<Token>, AllocError>
    requires { length text.now + 1 < 2 ^ 32 }
    ensures { IfOk result (λ list. IsTokens 0 text.now list.items) }
{
    let semicolon = end_of_last(text, b';');
    let round = end_of_last(text, b')');
    let mut list = Vec::new(alloc);
    let mut at: usize = 0;
    loop {
        let (_, rest) = text.split_at(at);
        let reach = Reach {
            semicolon: semicolon.saturating_sub(at),
            round: round.saturating_sub(at),
        };
        match front_at(rest, reach) {
            Front::Gap(n) => {
                at += n;
            }
            Front::Token(kind, n) => {
                list.push(Token {
                    at: at as u32,
                    len: n as u32,
                    kind,
                })?;
                at += n;
            }
            Front::End => {
                list.push(Token {
                    at: at as u32,
                    len: 0,
                    kind: TokenKind::End,
                })?;
                return Ok(list);
            }
            Front::Unread => {
                list.push(Token {
                    at: at as u32,
                    len: 0,
                    kind: TokenKind::Unread,
                })?;
                return Ok(list);
            }
        }
    }
}

/// Whether the token is a wide number or a byte that no token can hold.
#[inline(always)]
fn is_fault(token: Token) -> bool
    ensures { result ≡ is_fault token }
{
    matches!(token.kind, TokenKind::Wide | TokenKind::Unread)
}

/// The first wide number or unread byte of a list.
fn first_fault(list: &[Token]) -> Option<Token>
    ensures { result ≡ find is_fault list.now }
{
    list.iter().copied().find(|token| is_fault(*token))
}

/// The tokens of a text, or its first lexical fault.
pub fn tokens(alloc: Global, text: &[u8]) -> Result<Vec<Token>, TokenFault>
    requires { length text.now + 1 < 2 ^ 32 }
    ensures { IsAnswer text.now result }
{
    let list = scan(alloc, text)?;
    match first_fault(&list) {
        None => Ok(list),
        Some(token) => match token.kind {
            TokenKind::Wide => Err(TokenFault::Wide { at: token.at }),
            _ => Err(TokenFault::Syntax { at: token.at }),
        },
    }
}
