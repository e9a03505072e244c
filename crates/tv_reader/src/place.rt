ghost use Rattle.std.specs.Prelude.{◌≡◌, ◌≢◌, ◌+◌, ◌^◌, ◌<◌, ◌≤◌, length, take, false, ◌==◌, if◌then◌else◌};
ghost use Rattle.tv_reader.specs.Places.{line_of, column_of};
ghost use Rattle.tv_reader.specs.FirstFaults.{ends_with_colon, brought_in, IsTold};

use crate::fault::{ReadFault, What};
use tv_language::{Token, TokenKind, is_colon};
use tv_reading::Reason;

/// The bytes before a place.
fn front_of(text: &[u8], at: u32) -> &[u8]
    ensures same { result.now ≡ take at text.now }
    ensures short { length result.now ≤ length text.now }
{
    let (front, _) = text.split_at((at as usize).min(text.len()));
    front
}

/// The line of a place of the text.
pub fn line_of(text: &[u8], at: u32) -> u32
    requires { length text.now + 1 < 2 ^ 32 }
    ensures { result ≡ line_of text.now at }
{
    let ends = front_of(text, at)
        .iter()
        .filter(|byte| **byte == b'\n')
        .count();
    ends as u32 + 1
}

/// The column after a byte.
fn column_behind(column: u32, byte: u8) -> u32
    requires { column + 1 < 2 ^ 32 }
    ensures { result ≡ (if byte == 10 then 1 else column + 1) }
{
    if byte == b'\n' { 1 } else { column + 1 }
}

/// The column of a place of the text.
pub fn column_of(text: &[u8], at: u32) -> u32
    requires { length text.now + 1 < 2 ^ 32 }
    ensures { result ≡ column_of text.now at }
{
    let front = front_of(text, at);
    let mut column = 1;
    for byte in front {
        column = column_behind(column, *byte);
    }
    column
}

/// Whether the token with this number comes right after a colon.
fn is_behind_colon(list: &[Token], index: usize) -> bool
    ensures { result ≡ ends_with_colon false (take index list.now) }
{
    let (before, _) = list.split_at(index.min(list.len()));
    let mut colon = false;
    for token in before {
        colon = is_colon(token.kind);
    }
    colon
}

/// What a token brings in, given whether it comes right after a colon.
fn brought_in(behind_colon: bool, kind: TokenKind) -> What
    ensures { result ≡ brought_in behind_colon kind }
{
    if behind_colon {
        return What::Locations;
    }
    match kind {
        TokenKind::From => What::Edges,
        TokenKind::Nondet => What::Draws,
        _ => What::Variables,
    }
}

fn fault_at(reason: Reason, what: What, line: u32, column: u32) -> ReadFault
    requires { reason ≢ Reason.UnknownName }
    ensures { IsTold reason what line column result }
{
    match reason {
        Reason::Syntax => ReadFault::Syntax { line, column },
        Reason::Wide => ReadFault::Wide { line, column },
        Reason::Deep => ReadFault::Deep { line, column },
        Reason::NotLinear => ReadFault::NotLinear { line, column },
        Reason::TwoStarts => ReadFault::TwoStarts { line, column },
        Reason::TooMany => ReadFault::TooMany { what, line, column },
        Reason::UnknownName => unreachable!(),
        Reason::Memory => ReadFault::Memory,
    }
}

/// The refusal for a reason at this token, which has this number.
pub fn located(text: &[u8], list: &[Token], index: usize, token: Token, reason: Reason) -> ReadFault
    requires short { length text.now + 1 < 2 ^ 32 }
    requires known { reason ≢ Reason.UnknownName }
    ensures { let what = brought_in (ends_with_colon false (take index list.now)) token.kind in
        IsTold reason what (line_of text.now token.at) (column_of text.now token.at) result }
{
    let what = brought_in(is_behind_colon(list, index), token.kind);
    fault_at(
        reason,
        what,
        line_of(text, token.at),
        column_of(text, token.at),
    )
}
