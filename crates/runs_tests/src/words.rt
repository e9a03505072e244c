use crate::texts::{Asked, expect_said, says_of};
use std::alloc::Global;
use tv_top::Status;

pub(crate) const COUNTDOWN: &str =
    "START: 0; FROM: 0; TO: 1; FROM: 1; assume(x > 0); x := x - 1; TO: 1;";

/// No certificate is there.
pub(crate) const MISSING: &str = "Certificate refused line 1\n";

pub(crate) const UNKNOWN: &str = "Refused property unknown name column 1\n";

const PROVED: &str = "Proved\n";

/// Forms of words about a certificate of the countdown, also where a label or a formula begins with `-`.
const CHECKS: &[Asked] = &[
    (
        &["--check", "--safety", "1"],
        &[COUNTDOWN],
        MISSING,
        Status::CertificateRefused,
    ),
    (
        &["--safety=1", "--check"],
        &[COUNTDOWN],
        MISSING,
        Status::CertificateRefused,
    ),
    (
        &["--termination", "--check"],
        &[COUNTDOWN],
        MISSING,
        Status::CertificateRefused,
    ),
    (
        &["--check", "--pivots", "1", "--termination"],
        &[COUNTDOWN],
        MISSING,
        Status::CertificateRefused,
    ),
    (
        &["--ctl=-x > 0", "--check"],
        &[COUNTDOWN],
        MISSING,
        Status::CertificateRefused,
    ),
    (
        &["--ctl", "true", "--check"],
        &[COUNTDOWN],
        MISSING,
        Status::CertificateRefused,
    ),
    (
        &["--check", "--safety", "9"],
        &[COUNTDOWN],
        UNKNOWN,
        Status::Refused,
    ),
    (
        &["--check", "--safety", "00"],
        &[COUNTDOWN],
        UNKNOWN,
        Status::Refused,
    ),
    (
        &["--check", "--safety", ""],
        &[COUNTDOWN],
        UNKNOWN,
        Status::Refused,
    ),
    (
        &["--check", "--safety", "-"],
        &[COUNTDOWN],
        UNKNOWN,
        Status::Refused,
    ),
    (
        &["--safety=--check", "--check"],
        &[COUNTDOWN],
        UNKNOWN,
        Status::Refused,
    ),
];

/// Forms of words that ask for a search.
const SEARCHES: &[Asked] = &[
    (&["--termination"], &[COUNTDOWN], PROVED, Status::Proved),
    (&["--ctl", "term"], &[COUNTDOWN], PROVED, Status::Proved),
    (&["--ctl=!!term"], &[COUNTDOWN], PROVED, Status::Proved),
    (
        &["--termination", "--"],
        &[COUNTDOWN],
        PROVED,
        Status::Proved,
    ),
    (
        &["--pivots", "1000000", "--termination", "--splits=128"],
        &[COUNTDOWN],
        PROVED,
        Status::Proved,
    ),
    (
        &["--disjuncts", "4096", "--termination"],
        &[COUNTDOWN],
        PROVED,
        Status::Proved,
    ),
    (
        &["--safety", "1"],
        &[COUNTDOWN],
        "Disproved\nx = 1\n",
        Status::Disproved,
    ),
    (
        &["--ctl", "[AG](!at(1))"],
        &[COUNTDOWN],
        "Disproved\nx = 1\n",
        Status::Disproved,
    ),
    (
        &["--ctl", "x > 0"],
        &[COUNTDOWN],
        "Disproved\nx = 0\n",
        Status::Disproved,
    ),
    (&["--safety", "9"], &[COUNTDOWN], UNKNOWN, Status::Refused),
    (
        &["--ctl", "x > "],
        &[COUNTDOWN],
        "Refused property syntax column 5\n",
        Status::Refused,
    ),
];

#[test]
fn words_ask_about_a_certificate(rt: HostRuntime) {
    expect_said(&rt, rt.alloc(), CHECKS);
}

#[test]
fn words_ask_for_a_search(rt: HostRuntime) {
    expect_said(&rt, rt.alloc(), SEARCHES);
}

/// Words that ask nothing.
const OTHERS: &[&[&str]] = &[
    &[],
    &["--check"],
    &["--certificate"],
    &["1"],
    &["--safety"],
    &["--check", "--ctl"],
    &["--check", "--safety", "1", "2"],
    &["--termination", "1"],
    &["--check", "--Safety", "1"],
    &["--term"],
    &["--termination=1"],
    &["--termination", "--safety", "1"],
    &["--safety", "1", "--ctl", "true"],
    &["--termination", "--termination"],
    &["--check", "--check", "--termination"],
    &["--safety", "--check", "--check"],
    &["--check", "--certificate", "--termination"],
    &["--help"],
    &["-h"],
    &["--version"],
    &["--termination", "--pivots"],
    &["--termination", "--pivots", "0"],
    &["--termination", "--pivots", "+1"],
    &["--termination", "--pivots", "-1"],
    &["--termination", "--pivots", "007"],
    &["--termination", "--pivots", "1000001"],
    &["--termination", "--pivots", "1", "--pivots", "1"],
    &["--termination", "--splits", "129"],
    &["--termination", "--splits", ""],
    &["--termination", "--disjuncts", "4097"],
    &["--check", "--termination", "--splits", "129"],
    &["--generate"],
    &["--generate", "0"],
    &["--generate", "1001"],
    &["--generate", "+3"],
    &["--generate", "3", "--termination"],
    &["--generate", "3", "--safety", "1"],
    &["--generate", "3", "--ctl", "term"],
    &["--generate", "3", "--check"],
    &["--generate", "3", "--certificate"],
    &["--generate", "3", "--generate", "3"],
];

fn are_refused(alloc: Global, words: &[&str]) -> bool {
    says_of(
        alloc,
        words,
        &[COUNTDOWN],
        "Refused words\n",
        Status::Refused,
    ) == Ok(true)
}

#[test]
fn other_words_are_refused(rt: HostRuntime) {
    for words in OTHERS {
        assert!(rt; are_refused(rt.alloc(), words), "{words:?}");
    }
}
