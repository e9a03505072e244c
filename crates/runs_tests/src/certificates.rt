use crate::texts::{Asked, expect_said};
use tv_top::Status;

/// Counts x down to 0.
pub(crate) const COUNTDOWN: &str =
    "START: 0; FROM: 0; TO: 1; FROM: 1; assume(x > 0); x := x - 1; TO: 1;\nCERTIFICATE:\n";

/// Counts x up for ever, once it is above 0.
const CLIMBER: &str =
    "START: 0; FROM: 0; TO: 1; FROM: 1; assume(x > 0); x := x + 1; TO: 1;\nCERTIFICATE:\n";

/// Counts x down at its one location.
const LOOP: &str = "START: 0; FROM: 0; assume(x > 0); x := x - 1; TO: 0;\nCERTIFICATE:\n";

/// Every run of the countdown ends, by the ranks 1, 0 and 0, x. The last line is left out.
pub(crate) const UNENDED: &str =
    "T2CERT 1\nproved\nnode term 2 2\npiece 0 go 0\nrank 0 1\nrank 0 0\npiece 1 go 0\nrank 0 0\nrank 1 0\ninto 0 1\nby 1\nby 1\ninto 0 2\nby 0 1\nby 0 1\nby 1 1\ninto 0 0\n";

pub(crate) const ENDED: &str = "end\n";

/// A run of the climber is endless.
const ENDLESS: &str =
    "T2CERT 1\ndisproved\nnode noterm 2 0\npiece 0 go 1\nrow -1 1\npiece 1 go 1\nrow -1 1\ntake 0 0 0\nby 1 1\ntake 1 0 0\nby 1 1\nby 1 1\nat 0 1\nend\n";

/// A certificate that x comes below 0 on every run of the loop, which ends at 0.
const BELOW: &str =
    "T2CERT 1\nproved\nnode fix 2 1\npiece 0 done 1\nrow 1 1\npiece 0 go 1\nrow -1 0\nrank 1 0\nnode atom 1 0\npiece 0 go 0\ninto 0 0\nnode atom 1 0\npiece 0 go 1\nrow 1 1\ninto 0 0\nby 1 1\ninto 0 0\nby 1 1\ninto 0 0\ntake 0 0 0\nby 1 1\ninto 1 1\nby 0 1 1\nby 0 0 1\nby 1 0 1\nsplit 1 1\ninto 0 0\nby 1 1\ninto 1 0\nby 1 1\nend\n";

/// A certificate that x comes to 0 or below on every run of the loop.
const DOWN: &str =
    "T2CERT 1\nproved\nnode fix 2 1\npiece 0 done 1\nrow 1 0\npiece 0 go 1\nrow -1 1\nrank 1 0\nnode atom 1 0\npiece 0 go 0\ninto 0 0\nnode atom 1 0\npiece 0 go 1\nrow 1 0\ninto 0 0\nby 1 1\ninto 0 0\nby 1 1\ninto 0 0\ntake 0 0 0\nby 1 1\nsplit 1 -1\ninto 0 0\nby 0 0 1 1\ninto 1 1\nby 0 0 1 1\nby 0 0 0 1\nby 1 0 0 1\nsplit 1 0\ninto 0 0\nby 1 1\ninto 1 0\nby 1 1\nend\n";

/// A certificate that x never comes below 0 on some run of the loop.
const NEVER_BELOW: &str =
    "T2CERT 1\ndisproved\nnode fix 1 0\npiece 0 go 1\nrow -1 0\nnode atom 0 0\nnode atom 1 0\npiece 0 go 1\nrow -1 0\ninto 0 0\nby 1 1\ninto 0 0\nby 1 1\nsplit 1 0\nnostep\nempty 0 1 1\ntake 0 0 0\nby 0 1 1\nby 0 1 1\nat 0 0\nend\n";

pub(crate) const TERMINATION: &[&str] = &["--check", "--termination"];

const ROWS: &[Asked] = &[
    (
        TERMINATION,
        &[COUNTDOWN, UNENDED, ENDED],
        "Proved\n",
        Status::Proved,
    ),
    (
        &["--termination", "--check"],
        &[COUNTDOWN, UNENDED, ENDED],
        "Proved\n",
        Status::Proved,
    ),
    (
        &["--check", "--ctl", "term"],
        &[COUNTDOWN, UNENDED, ENDED],
        "Proved\n",
        Status::Proved,
    ),
    (
        TERMINATION,
        &[CLIMBER, ENDLESS],
        "Disproved\nx = 1\n",
        Status::Disproved,
    ),
    (
        &["--check", "--ctl", "term"],
        &[CLIMBER, ENDLESS],
        "Disproved\nx = 1\n",
        Status::Disproved,
    ),
    (
        &["--ctl", "[AF](x <= 0)", "--check"],
        &[LOOP, DOWN],
        "Proved\n",
        Status::Proved,
    ),
    (
        &["--check", "--ctl", "[AF](x < 0)"],
        &[LOOP, NEVER_BELOW],
        "Disproved\nx = 0\n",
        Status::Disproved,
    ),
    (
        &["--check", "--ctl", "[AF](x < 0)"],
        &[LOOP, BELOW],
        "Certificate refused obligation 5 node 0 successor\n",
        Status::CertificateRefused,
    ),
    (
        &["--check", "--ctl", "false"],
        &[
            "START: 0; FROM: 0; assume(y > x); TO: 0;\nCERTIFICATE:\n",
            "T2CERT 1\ndisproved\nnode atom 1 0\npiece 0 go 0\ninto 0 0\nat 0 5 -3\n",
            ENDED,
        ],
        "Disproved\ny = 5\nx = -3\n",
        Status::Disproved,
    ),
    (
        TERMINATION,
        &[
            "START: 0; FROM: 0; TO: 0;\nCERTIFICATE:\n",
            "T2CERT 1\ndisproved\nnode noterm 1 0\npiece 0 go 0\ntake 0 0 0\nat 0\n",
            ENDED,
        ],
        "Disproved\n",
        Status::Disproved,
    ),
    (
        &["--check", "--ctl", "true"],
        &[
            "START: 0;\nCERTIFICATE:\n",
            "T2CERT 1\nproved\nnode atom 1 0\npiece 0 go 0\ninto 0 0\ninto 0 0\n",
            ENDED,
        ],
        "Proved\n",
        Status::Proved,
    ),
    // `!!term` says what `term` does.
    (
        &["--check", "--ctl", "!(!term)"],
        &[CLIMBER, ENDLESS],
        "Disproved\nx = 1\n",
        Status::Disproved,
    ),
];

#[test]
fn certificates_are_checked(rt: HostRuntime) {
    expect_said(&rt, rt.alloc(), ROWS);
}
