use std::alloc::{AllocError, Global};
use tv_language::TokenKind::{
    And, Assign, Assume, At, Colon, End, Equal, Error, False, From, Greater, GreaterEqual,
    LeftRound, LeftSquare, Less, LessEqual, Mark, Minus, Name, Nondet, Not, NotEqual, Number, Or,
    Passed, Plus, Process, RightRound, RightSquare, Semicolon, Star, Start, To, True, Unread, Wide,
};
use tv_language::{Token, TokenFault, TokenKind, scan, tokens};

/// Whether the tokens have these kinds, places and lengths.
fn are(tokens: &[Token], wanted: &[(TokenKind, u32, u32)]) -> bool {
    let mut rest = tokens;
    for want in wanted {
        let [token, more @ ..] = rest else {
            return false;
        };
        if (token.kind, token.at, token.len) != *want {
            return false;
        }
        rest = more;
    }
    rest.is_empty()
}

// A text with the kinds, the places and the lengths of its tokens.
const SCANNED: &[(&str, &[(TokenKind, u32, u32)])] = &[
    ("", &[(End, 0, 0)]),
    (" \t\r\n\x0C", &[(End, 5, 0)]),
    (
        "START:0;",
        &[
            (Start, 0, 5),
            (Colon, 5, 1),
            (Number, 6, 1),
            (Semicolon, 7, 1),
            (End, 8, 0),
        ],
    ),
    (
        "FROM a_1.b'^$ TO 00",
        &[
            (From, 0, 4),
            (Name, 5, 8),
            (To, 14, 2),
            (Number, 17, 2),
            (End, 19, 0),
        ],
    ),
    (
        "assume(x<=1&&!true||y!=nondet());",
        &[
            (Assume, 0, 6),
            (LeftRound, 6, 1),
            (Name, 7, 1),
            (LessEqual, 8, 2),
            (Number, 10, 1),
            (And, 11, 2),
            (Not, 13, 1),
            (True, 14, 4),
            (Or, 18, 2),
            (Name, 20, 1),
            (NotEqual, 21, 2),
            (Nondet, 23, 6),
            (LeftRound, 29, 1),
            (RightRound, 30, 1),
            (RightRound, 31, 1),
            (Semicolon, 32, 1),
            (End, 33, 0),
        ],
    ),
    (
        "x := -2*(y+z)>=false",
        &[
            (Name, 0, 1),
            (Assign, 2, 2),
            (Minus, 5, 1),
            (Number, 6, 1),
            (Star, 7, 1),
            (LeftRound, 8, 1),
            (Name, 9, 1),
            (Plus, 10, 1),
            (Name, 11, 1),
            (RightRound, 12, 1),
            (GreaterEqual, 13, 2),
            (False, 15, 5),
            (End, 20, 0),
        ],
    ),
    (
        "[AX]at < > == PROCESS",
        &[
            (LeftSquare, 0, 1),
            (Name, 1, 2),
            (RightSquare, 3, 1),
            (Name, 4, 2),
            (Less, 7, 1),
            (Greater, 9, 1),
            (Equal, 11, 2),
            (Process, 14, 7),
            (End, 21, 0),
        ],
    ),
    (
        "assumed 1x",
        &[(Name, 0, 7), (Number, 8, 1), (Name, 9, 1), (End, 10, 0)],
    ),
    (
        "a//b\n/*c;*/d",
        &[(Name, 0, 1), (Name, 11, 1), (End, 12, 0)],
    ),
    ("/**/*/", &[(Star, 4, 1), (Unread, 5, 0)]),
    ("/*/", &[(Unread, 0, 0)]),
    ("x /* y", &[(Name, 0, 1), (Unread, 2, 0)]),
    ("x = 1", &[(Name, 0, 1), (Unread, 2, 0)]),
    (
        "AT /*p*/ ( a; ] ?) ;",
        &[(Mark, 0, 18), (Semicolon, 19, 1), (End, 20, 0)],
    ),
    (
        "AT(x",
        &[(At, 0, 2), (LeftRound, 2, 1), (Name, 3, 1), (End, 4, 0)],
    ),
    (
        "CUTPOINT: a ? b;ERROR:;SHADOW \n: x; x",
        &[
            (Passed, 0, 16),
            (Passed, 16, 7),
            (Passed, 23, 12),
            (Name, 36, 1),
            (End, 37, 0),
        ],
    ),
    (
        "ERROR x;",
        &[(Error, 0, 5), (Name, 6, 1), (Semicolon, 7, 1), (End, 8, 0)],
    ),
    (
        "4611686018427387903 4611686018427387904 x",
        &[(Number, 0, 19), (Wide, 20, 19), (Name, 40, 1), (End, 41, 0)],
    ),
];

fn is_scanned(
    alloc: Global,
    text: &str,
    wanted: &[(TokenKind, u32, u32)],
) -> Result<bool, AllocError> {
    if text.len() >= 100 {
        return Ok(false);
    }
    let list = scan(alloc, text.as_bytes())?;
    Ok(are(&list, wanted))
}

#[test]
fn takes_tokens_off(rt: HostRuntime) {
    for (text, wanted) in SCANNED {
        assert!(rt;
            is_scanned(rt.alloc(), text, wanted) == Ok(true),
            "{text:?}"
        );
    }
}

// A text with the number of its tokens or its first fault.
const FAULTS: &[(&str, Result<usize, TokenFault>)] = &[
    ("x := 1;", Ok(5)),
    ("// 4611686018427387904", Ok(1)),
    ("x := ?", Err(TokenFault::Syntax { at: 5 })),
    (
        "x /* 4611686018427387904",
        Err(TokenFault::Syntax { at: 2 }),
    ),
    ("x & y", Err(TokenFault::Syntax { at: 2 })),
    ("x + 4611686018427387904", Err(TokenFault::Wide { at: 4 })),
    (
        "99999999999999999999999999999999999999999999 ?",
        Err(TokenFault::Wide { at: 0 }),
    ),
    ("x ? 4611686018427387904", Err(TokenFault::Syntax { at: 2 })),
];

fn count_of(alloc: Global, text: &str) -> Result<usize, TokenFault> {
    if text.len() >= 100 {
        return Err(TokenFault::Memory);
    }
    match tokens(alloc, text.as_bytes()) {
        Ok(list) => Ok(list.len()),
        Err(fault) => Err(fault),
    }
}

#[test]
fn tells_the_first_fault(rt: HostRuntime) {
    for (text, wanted) in FAULTS {
        assert!(rt; count_of(rt.alloc(), text) == *wanted, "{text:?}");
    }
}
