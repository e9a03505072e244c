use crate::texts::{repeated, says};
use crate::words::MISSING;
use std::alloc::{AllocError, Global};
use tv_top::Status;

const WORDS: [&str; 3] = ["--check", "--safety", "0"];

const EDGE: &str = "START: 0; FROM: 0; ";

const DRAWN: &str = "TO: 0; FROM: 0; x := nondet(); TO: 0;";

/// What closes 64 brackets after a number.
const CLOSED: &str = "1)))))))))))))))))))))))))))))))))))))))))))))))))))))))))))))))); TO: 0;";

/// How a run ends that writes this line: a certificate is wanted and none is there, or the text is refused.
fn status_with(line: &str) -> Status {
    if line == MISSING {
        Status::CertificateRefused
    } else {
        Status::Refused
    }
}

/// A front, a part and how many times it stands, an end, and the line.
type Limit = (&'static str, &'static str, u32, &'static str, &'static str);

/// At each limit the certificate is missing, past it the text is refused.
const TEXTS: &[Limit] = &[
    (EDGE, "#:=0;", 512, "TO: 0;", MISSING),
    (
        EDGE,
        "#:=0;",
        513,
        "TO: 0;",
        "Refused text too many variables line 1 column 3604\n",
    ),
    (
        EDGE,
        "#:=0;",
        512,
        "assume(z > 0); TO: 0;",
        "Refused text too many variables line 1 column 3611\n",
    ),
    ("START: 0; ", "FROM:#;TO:0;", 1023, "", MISSING),
    (
        "START: 0; ",
        "FROM:#;TO:0;",
        1024,
        "",
        "Refused text too many locations line 1 column 14338\n",
    ),
    ("", "FROM:#;TO:#;", 1023, "START: 0;", MISSING),
    (
        "",
        "FROM:#;TO:#;",
        1024,
        "START: 0;",
        "Refused text too many locations line 1 column 16392\n",
    ),
    ("START: 0;\n", "FROM: 0; TO: 0;\n", 4096, "", MISSING),
    (
        "START: 0;\n",
        "FROM: 0; TO: 0;\n",
        4097,
        "",
        "Refused text too many edges line 4098 column 1\n",
    ),
    (EDGE, "x:=nondet();", 64, "TO: 0;", MISSING),
    (
        EDGE,
        "x:=nondet();",
        65,
        "TO: 0;",
        "Refused text too many draws line 1 column 791\n",
    ),
    (EDGE, "x:=nondet();", 64, DRAWN, MISSING),
    ("START: 0; FROM: 0; x := ", "(", 64, CLOSED, MISSING),
    (
        "START: 0; FROM: 0; x := ",
        "(",
        65,
        CLOSED,
        "Refused text deep line 1 column 89\n",
    ),
    ("START: 0; FROM: 0; x := ", "-", 64, "1; TO: 0;", MISSING),
    (
        "START: 0; FROM: 0; x := ",
        "-",
        65,
        "1; TO: 0;",
        "Refused text deep line 1 column 89\n",
    ),
    // The bracket of `assume` opens the first level.
    (
        "START: 0; FROM: 0; assume(",
        "!",
        63,
        "true); TO: 0;",
        MISSING,
    ),
    (
        "START: 0; FROM: 0; assume(",
        "!",
        64,
        "true); TO: 0;",
        "Refused text deep line 1 column 90\n",
    ),
];

/// Whether the line is written of the text.
fn says_of_limit(alloc: Global, limit: &Limit) -> Result<bool, AllocError> {
    let (front, part, times, end, line) = limit;
    let text = repeated(alloc, front, part, *times, end)?;
    says(alloc, &WORDS, text, line, status_with(line))
}

#[test]
fn texts_keep_their_limits(rt: HostRuntime) {
    for limit in TEXTS {
        assert!(rt; says_of_limit(rt.alloc(), limit) == Ok(true), "{limit:?}");
    }
}

/// Whether the byte is no blank, and no token begins with it.
fn begins_no_token(byte: u8) -> bool {
    !byte.is_ascii_alphanumeric() && !b" \t\r\n\x0c_:;()[]+-*<>!".contains(&byte)
}

/// A text with this byte in it.
fn around(alloc: Global, front: &str, byte: u8, end: &str) -> Result<Vec<u8>, AllocError> {
    let mut text = Vec::from_slice(alloc, front.as_bytes())?;
    text.push(byte)?;
    text.extend_from_slice(end.as_bytes())?;
    Ok(text)
}

/// Whether this is written of a text with the byte in it.
fn says_around(
    alloc: Global,
    front: &str,
    byte: u8,
    end: &str,
    line: &str,
) -> Result<bool, AllocError> {
    let text = around(alloc, front, byte, end)?;
    says(alloc, &WORDS, text, line, status_with(line))
}

#[test]
fn many_bytes_begin_no_token(rt: HostRuntime) {
    let count = (0..=255u8).filter(|byte| begins_no_token(*byte)).count();
    assert!(rt; count == 176);
}

/// Whether the byte is refused alone after a START, and read in a comment, where each byte may stand.
fn stands_in_comments_alone(alloc: Global, byte: u8) -> bool {
    let refused = "Refused text syntax line 1 column 11\n";
    says_around(alloc, "START: 0; ", byte, "", refused) == Ok(true)
        && says_around(alloc, "START: 0; /*", byte, "*/", MISSING) == Ok(true)
}

#[test]
fn bytes_that_begin_no_token_are_refused(rt: HostRuntime) {
    for byte in 0..=255u8 {
        if begins_no_token(byte) {
            assert!(rt; stands_in_comments_alone(rt.alloc(), byte), "{byte}");
        }
    }
}
