use crate::certificates::{COUNTDOWN, ENDED, TERMINATION, UNENDED};
use crate::texts::{repeated, says, with_line, with_lines};
use std::alloc::{AllocError, Global};
use tv_top::Status;

/// Whether this is written of the countdown, where a line of its certificate is another one, and this is its end.
fn says_with_line(
    alloc: Global,
    number: u32,
    line: &str,
    end: &str,
    written: &str,
) -> Result<bool, AllocError> {
    let mut text = with_line(alloc, COUNTDOWN, UNENDED, number, line)?;
    text.extend_from_slice(end.as_bytes())?;
    says(
        alloc,
        TERMINATION,
        text,
        written,
        Status::CertificateRefused,
    )
}

/// A line of the certificate of the countdown, what stands in its place, and the line that is reported.
const FORMS: &[(u32, &str, u32)] = &[
    (1, "T2CERT 2\n", 1),
    (1, "t2cert 1\n", 1),
    (1, "\n", 1),
    (2, "proven\n", 2),
    (2, "proved 1\n", 2),
    (2, "node term 2 2\n", 2),
    (3, "node trem 2 2\n", 3),
    (3, "node term 2\n", 3),
    (3, "node term 2 2 0\n", 3),
    (3, "node noterm 2 2\n", 3),
    (3, "node term 2 02\n", 3),
    (3, "node term -2 2\n", 3),
    (3, "node term 2  2\n", 3),
    (3, "node term 1 2\n", 7),
    (3, "node term 2 3\n", 7),
    (4, "piece 2 go 0\n", 4),
    (4, "piece 0 done 0\n", 4),
    (4, "piece 0 stay 0\n", 4),
    (4, "piece 0 go\n", 4),
    (4, "piece 00 go 0\n", 4),
    (4, "piece -1 go 0\n", 4),
    (4, "piece 0 go 1\n", 5),
    (4, "rank 0 1\n", 4),
    (5, "row 0 1\n", 5),
    (5, "rank 0\n", 5),
    (5, "rank 0 1 0\n", 5),
    (5, "rank -0 1\n", 5),
    (5, "rank +0 1\n", 5),
    (5, "rank 0 01\n", 5),
    (5, "rank 0 1 \n", 5),
    (5, " rank 0 1\n", 5),
    (5, "rank 0 4611686018427387904\n", 5),
    (5, "rank 0 -4611686018427387904\n", 5),
    (10, "into 1 1\n", 10),
    (10, "into 0 3\n", 10),
    (10, "into 0 0\n", 10),
    (10, "into -1 1\n", 10),
    (10, "into 0\n", 10),
    (10, "take 0 0 1\n", 10),
    (10, "nostep\n", 10),
    (11, "by\n", 11),
    (11, "by 1 1\n", 11),
    (11, "by 4611686018427387904\n", 11),
    (11, "empty 1\n", 11),
    (16, "by 2\n", 16),
    (17, "into 0 1\n", 17),
    (17, "into 1 0\n", 17),
    (17, "split 1\n", 17),
];

/// Whether the line is reported where another one stands in the place of that with the number.
fn is_told(alloc: Global, number: u32, line: &str, told: u32) -> Result<bool, AllocError> {
    let written = format!(in alloc; "Certificate refused line {told}\n")?;
    says_with_line(alloc, number, line, ENDED, &written)
}

#[test]
fn each_form_of_line_is_told(rt: HostRuntime) {
    for (number, line, told) in FORMS {
        let is_told = is_told(rt.alloc(), *number, line, *told);
        assert!(rt; is_told == Ok(true), "{number} {line}");
    }
}

/// A line of the certificate of the countdown, what stands in its place, the end, and what is reported.
const ENDS: &[(u32, &str, &str, &str)] = &[
    (
        16,
        "by 2 1\n",
        "end\n",
        "Certificate refused obligation 2 node 0 step\n",
    ),
    (
        11,
        "by -1\n",
        "end\n",
        "Certificate refused obligation 1 node 0 step\n",
    ),
    (
        17,
        "empty\n",
        "end\n",
        "Certificate refused obligation 3 node 0 root\n",
    ),
    (16, "by 2 1\n", "", "Certificate refused line 18\n"),
    (16, "by 2 1\n", "ends\n", "Certificate refused line 18\n"),
    (0, "", "", "Certificate refused line 18\n"),
    (0, "", "\n", "Certificate refused line 18\n"),
    (0, "", "end\n\n", "Certificate refused line 19\n"),
    (0, "", "end\nend\n", "Certificate refused line 19\n"),
    (17, "", "end\n", "Certificate refused line 17\n"),
];

#[test]
fn lines_come_before_obligations(rt: HostRuntime) {
    for (number, line, end, written) in ENDS {
        let is_said = says_with_line(rt.alloc(), *number, line, end, written);
        assert!(rt; is_said == Ok(true), "{number} {line}");
    }
}

/// Whether line `missing` is reported after `count` lines of the certificate of the countdown.
fn is_missing(alloc: Global, count: u32, missing: u32) -> Result<bool, AllocError> {
    let text = with_lines(alloc, COUNTDOWN, UNENDED, count)?;
    let written = format!(in alloc; "Certificate refused line {missing}\n")?;
    says(
        alloc,
        TERMINATION,
        text,
        &written,
        Status::CertificateRefused,
    )
}

// The first lines of the certificate of the countdown: the next one is missing.
#[test]
fn the_first_missing_line_is_told(rt: HostRuntime) {
    for count in 0..18u32 {
        assert!(rt;
            is_missing(rt.alloc(), count, count + 1) == Ok(true),
            "{count}"
        );
    }
}

/// Puts `times` splits at the root.
fn push_splits(alloc: Global, text: &mut Vec<u8>, times: u32) -> Result<(), AllocError> {
    let splits = repeated(alloc, "", "split 1 0\n", times, "into 0 0\n")?;
    text.extend_from_slice(&splits)
}

/// Puts the other side of each of `times` splits, and the end.
fn push_sides(alloc: Global, text: &mut Vec<u8>, times: u32) -> Result<(), AllocError> {
    let sides = repeated(alloc, "", "into 0 0\n", times, ENDED)?;
    text.extend_from_slice(&sides)
}

/// The countdown with `times` splits at the root, each with both of its sides.
fn with_splits(alloc: Global, times: u32) -> Result<Vec<u8>, AllocError> {
    let mut text = with_lines(alloc, COUNTDOWN, UNENDED, 16)?;
    push_splits(alloc, &mut text, times)?;
    push_sides(alloc, &mut text, times)?;
    Ok(text)
}

/// Whether this is written of `times` splits.
fn says_of_splits(
    alloc: Global,
    times: u32,
    written: &str,
    status: Status,
) -> Result<bool, AllocError> {
    let text = with_splits(alloc, times)?;
    says(alloc, TERMINATION, text, written, status)
}

// 128 of them are met; the 129th is reported.
#[test]
fn splits_lie_128_deep(rt: HostRuntime) {
    let told = "Certificate refused line 145\n";
    let deep = says_of_splits(rt.alloc(), 128, "Proved\n", Status::Proved);
    let deeper = says_of_splits(rt.alloc(), 129, told, Status::CertificateRefused);
    assert!(rt; deep == Ok(true) && deeper == Ok(true));
}
