use crate::texts::{Asked, expect_said};
use tv_top::Status;

pub(crate) const COUNTER: &str =
    "START: 0; FROM: 0; x := 0; TO: 1; FROM: 1; assume(x < 5); x := x + 1; TO: 1; FROM: 1; assume(x > 5); TO: 2;\n";

pub(crate) const HEADING: &str = "CERTIFICATE:\n";

pub(crate) const FRONT: &str =
    "T2CERT 1\nproved\nnode fix 2 0\npiece 0 go 0\npiece 1 go 1\nrow 1 -5\nnode atom 2 0\npiece 0 go 0\npiece 1 go 0\ninto 0 0\ninto 0 0\nnode atom 0 0\ninto 0 0\ninto 0 0\nby 1\ninto 0 0\ninto 0 0\n";

pub(crate) const STEP: &str = "by 0 1 1\n";

const WRONG_STEP: &str = "by 1 1 1\n";

pub(crate) const BACK: &str = "empty 1 1\ninto 0 0\nend\n";

/// The start is split at 0, and the same piece is entered on both sides.
const SPLIT_BACK: &str = "empty 1 1\nsplit 1 0\ninto 0 0\ninto 0 0\nend\n";

/// The denied side of the split refutes nothing.
const UNMET_BACK: &str = "empty 1 1\nsplit 1 0\ninto 0 0\nempty 1\nend\n";

const DRAWN: &str =
    "START: 0; FROM: 0; x := nondet(); TO: 1; FROM: 1; assume(x > 0); x := x - 1; TO: 1;";

const UNMET: &str = "Certificate refused obligation 6 node 0 step\n";

/// Behind the text of `COUNTER` in line 1.
const INSIDE: &str = "Refused text syntax line 2 column 2\n";

const DRAWN_FRONT: &str =
    "T2CERT 1\nproved\nnode fix 2 0\npiece 0 go 0\npiece 1 go 1\nrow -1 4\nnode atom 2 0\npiece 0 go 0\npiece 1 go 0\ninto 0 0\ninto 0 0\nnode atom 0 0\ninto 0 0\ninto 0 0\n";

const DRAWN_BACK: &str = "into 0 0\nempty 1 1\ninto 0 0\nend\n";

/// A drawn value above 3 is never below 0.
const DRAWN_ABOVE: &str =
    "START: 0; FROM: 0; x := nondet(); assume(x > 3); TO: 1; FROM: 1; assume(x < 0); TO: 2;\n";

const NO_CERTIFICATE: &str = "Certificate refused line 1\n";

const CHECK_2: &[&str] = &["--check", "--safety", "2"];

const ROWS: &[Asked] = &[
    (
        CHECK_2,
        &[COUNTER, HEADING, FRONT, STEP, BACK],
        "Proved\n",
        Status::Proved,
    ),
    (
        CHECK_2,
        &[COUNTER, "CERTIFICATE:\r\n", FRONT, STEP, BACK],
        "Proved\n",
        Status::Proved,
    ),
    (
        CHECK_2,
        &[COUNTER, HEADING, FRONT, STEP, SPLIT_BACK],
        "Proved\n",
        Status::Proved,
    ),
    (
        CHECK_2,
        &[COUNTER, HEADING, FRONT, STEP, UNMET_BACK],
        "Certificate refused obligation 8 node 0 root\n",
        Status::CertificateRefused,
    ),
    (
        CHECK_2,
        &[COUNTER, HEADING, FRONT, WRONG_STEP, BACK],
        UNMET,
        Status::CertificateRefused,
    ),
    (
        &["--check", "--safety", "9"],
        &[COUNTER, HEADING, FRONT, STEP, BACK],
        "Refused property unknown name column 1\n",
        Status::Refused,
    ),
    (
        &["--check", "--safety", "0"],
        &[DRAWN],
        NO_CERTIFICATE,
        Status::CertificateRefused,
    ),
    (
        CHECK_2,
        &[COUNTER],
        NO_CERTIFICATE,
        Status::CertificateRefused,
    ),
    (
        CHECK_2,
        &[COUNTER, "CERTIFICATE:"],
        NO_CERTIFICATE,
        Status::CertificateRefused,
    ),
    (
        CHECK_2,
        &[COUNTER, HEADING, HEADING, FRONT, STEP, BACK],
        NO_CERTIFICATE,
        Status::CertificateRefused,
    ),
    (
        CHECK_2,
        &[COUNTER, " CERTIFICATE:\n", FRONT, STEP, BACK],
        INSIDE,
        Status::Refused,
    ),
    (CHECK_2, &[], "Refused text no start\n", Status::Refused),
    (
        CHECK_2,
        &[DRAWN_ABOVE, HEADING, DRAWN_FRONT, "by 1 1\n", DRAWN_BACK],
        "Proved\n",
        Status::Proved,
    ),
    (
        CHECK_2,
        &[DRAWN_ABOVE, HEADING, DRAWN_FRONT, "by 1 2\n", DRAWN_BACK],
        "Certificate refused obligation 4 node 0 step\n",
        Status::CertificateRefused,
    ),
];

#[test]
fn safety_is_checked(rt: HostRuntime) {
    expect_said(&rt, rt.alloc(), ROWS);
}
