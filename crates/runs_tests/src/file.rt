use crate::texts::says;
use crate::words::MISSING;
use std::alloc::{AllocError, Global};
use tv_top::Status;

/// Nested loops, a branch and a countdown, as a translator of programs writes them.
pub(crate) const FILE: &str = "// nested loops, a branch and a countdown
START: 0;
CUTPOINT: 1;
FROM: 0;
AT(0, \"demo.c:3\")
n := nondet();
i := 0;
TO: 1;
FROM: 1;
AT(1, \"demo.c:4\");
assume(i < n);
TO: 2;
FROM: 2; j := 0; TO: 3;
FROM: 3; assume(j < i); TO: 4;
FROM: 4; j := j + 1; TO: 5;
FROM: 5; TO: 3;
FROM: 3; assume(j >= i); TO: 6;
FROM: 6; c := nondet(); assume(c > 0); i := i + 1; TO: 7;
FROM: 6; /* the other branch */ i := i + 2; TO: 8;
FROM: 7; TO: 1;
FROM: 8; TO: 1;
FROM: 1; assume(i >= n); TO: 9;
FROM: 9; k := n; TO: 10;
FROM: 10; assume(k > 0); TO: 11;
FROM: 11; k := k - 1; TO: 10;
FROM: 10; assume(k <= 0); TO: 12;
FROM: 12; TO: 13;
ERROR: 99;
";

/// Each location of the file but the last, whole.
const PIECES: &str =
    "piece 0 go 0\npiece 1 go 0\npiece 2 go 0\npiece 3 go 0\npiece 4 go 0\npiece 5 go 0\npiece 6 go 0\npiece 7 go 0\npiece 8 go 0\npiece 9 go 0\npiece 10 go 0\npiece 11 go 0\npiece 12 go 0\n";

/// The parts of a certificate that no run reaches location 13, and how often each stands there.
const PARTS: [(&str, u32); 8] = [
    ("CERTIFICATE:\nT2CERT 1\nproved\nnode fix 13 0\n", 1),
    (PIECES, 1),
    ("node atom 13 0\n", 1),
    (PIECES, 1),
    ("into 0 0\n", 13),
    ("node atom 0 0\n", 1),
    ("into 0 0\n", 29),
    ("empty\ninto 0 0\nend\n", 1),
];

/// Puts the part at the end of the text `times` times.
fn push_times(text: &mut Vec<u8>, part: &str, times: u32) -> Result<(), AllocError> {
    for _ in 0..times {
        text.extend_from_slice(part.as_bytes())?;
    }
    Ok(())
}

/// The file with a certificate that no run reaches location 13.
fn certified(alloc: Global) -> Result<Vec<u8>, AllocError> {
    let mut text = Vec::from_slice(alloc, FILE.as_bytes())?;
    for (part, times) in PARTS {
        push_times(&mut text, part, times)?;
    }
    Ok(text)
}

/// The text with this end of a line in place of each LF.
fn with_line_ends(alloc: Global, text: &[u8], line_end: &str) -> Result<Vec<u8>, AllocError> {
    let mut bytes = Vec::new(alloc);
    for byte in text {
        if *byte == b'\n' {
            bytes.extend_from_slice(line_end.as_bytes())?;
        } else {
            bytes.push(*byte)?;
        }
    }
    Ok(bytes)
}

/// Whether a run with the words on the text, with this end of a line in place of each LF, writes this, and ends so.
pub(crate) fn says_with_ends(
    alloc: Global,
    words: &[&str],
    text: &[u8],
    line_end: &str,
    written: &str,
    status: Status,
) -> Result<bool, AllocError> {
    let text = with_line_ends(alloc, text, line_end)?;
    says(alloc, words, text, written, status)
}

const WORDS: [&str; 3] = ["--check", "--safety", "13"];

/// Whether this is written of the text with such ends of lines, whose certificate is refused.
fn is_refused(alloc: Global, text: &[u8], line_end: &str, written: &str) -> bool {
    let status = Status::CertificateRefused;
    says_with_ends(alloc, &WORDS, text, line_end, written, status) == Ok(true)
}

#[test]
fn both_line_ends_are_read(rt: HostRuntime) {
    for line_end in ["\n", "\r\n"] {
        assert!(rt; is_refused(rt.alloc(), FILE.as_bytes(), line_end, MISSING));
    }
}

/// Whether this is written of the file with its certificate and such ends of lines.
fn is_certified(alloc: Global, line_end: &str, written: &str) -> Result<bool, AllocError> {
    let text = certified(alloc)?;
    Ok(is_refused(alloc, &text, line_end, written))
}

// The certificate holds up to the step from 12: before it are 13 pieces of the child, and 13 holds and 16 steps of the root.
#[test]
fn both_line_ends_are_read_in_certificates(rt: HostRuntime) {
    let unmet = "Certificate refused obligation 43 node 0 step\n";
    for line_end in ["\n", "\r\n"] {
        assert!(rt; is_certified(rt.alloc(), line_end, unmet) == Ok(true));
    }
}
