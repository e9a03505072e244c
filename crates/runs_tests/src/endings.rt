use crate::file::{FILE, says_with_ends};
use crate::texts::{Asked, expect_said, expect_shown, output};
use crate::words::COUNTDOWN;
use std::alloc::{AllocError, Global};
use tv_top::Status;

const TERMINATION: &[&str] = &["--termination"];

const PROVED: &str = "Proved\n";

const DRAWN_COUNTDOWN: &str =
    "START: 0; FROM: 0; x := nondet(); TO: 1; FROM: 1; assume(x > 0); x := x - 1; TO: 1;";

const DRAWN_FALL: &str =
    "START: 0; FROM: 0; assume(x > 0); y := nondet(); assume(y < x); x := y; TO: 0;";

pub(crate) const NESTED: &str =
    "START: 0; FROM: 0; assume(x > 0); x := x - 1; y := nondet(); TO: 0; FROM: 0; assume(y > 0); y := y - 1; TO: 0;";

const CLIMBER: &str = "START: 0; FROM: 0; TO: 1; FROM: 1; assume(x > 0); x := x + 1; TO: 1;";

const FALLING_SUM: &str = "START: 0; FROM: 0; assume(x > 0); x := x + y; y := y - 1; TO: 0;";

const WIDE: &str =
    "START: 0; FROM: 0; assume(x > 0); assume(2199023255552*x > y); x := x - 1; TO: 0;";

const NARROW: &str = "START: 0; FROM: 0; assume(x > 0); assume(1000*x > y); x := x - 1; TO: 0;";

/// Programs all of whose runs are shown to end.
const ENDING: &[Asked] = &[
    (TERMINATION, &[COUNTDOWN], PROVED, Status::Proved),
    (TERMINATION, &["START: 0;"], PROVED, Status::Proved),
    (TERMINATION, &[DRAWN_COUNTDOWN], PROVED, Status::Proved),
    (TERMINATION, &[DRAWN_FALL], PROVED, Status::Proved),
    (TERMINATION, &[NESTED], PROVED, Status::Proved),
    (TERMINATION, &[NARROW], PROVED, Status::Proved),
    (TERMINATION, &[FILE], PROVED, Status::Proved),
];

#[test]
fn every_run_ends(rt: HostRuntime) {
    expect_said(&rt, rt.alloc(), ENDING);
}

/// An idle loop after a guard that no integer meets: one that is odd and even is found by its rounded bounds.
const HALF: &str = "START: 0; FROM: 0; assume(2*x == 1); TO: 1; FROM: 1; TO: 1;";

/// Two guards that no integers meet, which no split shows.
const PARITY: &str =
    "START: 0; FROM: 0; assume(2*x == y); assume(2*z + 1 == y); TO: 1; FROM: 1; TO: 1;";

/// A countdown by a step that is at least 1 since it is set.
const STEPPED: &str =
    "START: 0; FROM: 0; y := 2; TO: 1; FROM: 1; assume(x > 0); x := x - y; TO: 1;";

/// Programs all of whose runs are shown to end, under rows that hold on every run.
const UNDER_ROWS: &[Asked] = &[
    (TERMINATION, &[HALF], PROVED, Status::Proved),
    (TERMINATION, &[STEPPED], PROVED, Status::Proved),
];

#[test]
fn ranks_are_found_under_rows_that_hold(rt: HostRuntime) {
    expect_said(&rt, rt.alloc(), UNDER_ROWS);
}

/// Goes towards 0 from either side, so that the rank of one side grows on the other.
const TOWARDS: &str =
    "START: 0; FROM: 0; assume(x > 0); x := x - 1; TO: 0; FROM: 0; assume(x < 0); x := x + 1; TO: 0;";

/// Counts from 0 until it meets a number, which it would miss from above.
const MEETING: &str =
    "START: 0; FROM: 0; i := 0; TO: 1; FROM: 1; assume(i != n && n >= 0); i := i + 1; TO: 1;";

/// Programs all of whose runs are shown to end by ranks of parts of their locations.
const IN_PARTS: &[Asked] = &[
    (TERMINATION, &[TOWARDS], PROVED, Status::Proved),
    (TERMINATION, &[MEETING], PROVED, Status::Proved),
];

#[test]
fn ranks_are_found_where_guards_split(rt: HostRuntime) {
    expect_said(&rt, rt.alloc(), IN_PARTS);
    expect_shown(&rt, rt.alloc(), IN_PARTS);
}

/// y falls, and x falls once y is below 0; z before both.
const THREE_PHASES: &str =
    "START: 0; FROM: 0; assume(x > 0); x := x + y; y := y + z; z := z - 1; TO: 0;";

/// Turns towards 0 with each step.
const TURNING: &str =
    "START: 0; FROM: 0; assume(i < 0); i := -i - 1; TO: 0; FROM: 0; assume(i > 0); i := -i + 1; TO: 0;";

pub(crate) const FIVE_PHASES: &str =
    "START: 0; FROM: 0; assume(x > 0); x := x + y; y := y + z; z := z + w; w := w + v; v := v - 1; TO: 0;";

/// Programs all of whose runs are shown to end by ranks of places that are split by rows.
const IN_PHASES: &[Asked] = &[
    (TERMINATION, &[FALLING_SUM], PROVED, Status::Proved),
    (TERMINATION, &[THREE_PHASES], PROVED, Status::Proved),
    (TERMINATION, &[TURNING], PROVED, Status::Proved),
];

#[test]
fn places_are_split_where_no_term_falls(rt: HostRuntime) {
    expect_said(&rt, rt.alloc(), IN_PHASES);
    expect_shown(&rt, rt.alloc(), IN_PHASES);
}

/// Programs for which it is not known whether all runs end, and why.
const STUCK: &[Asked] = &[
    (
        TERMINATION,
        &[FIVE_PHASES],
        "Unknown rank\ncases 0\n",
        Status::Unknown,
    ),
    (
        TERMINATION,
        &[PARITY],
        "Unknown splits\nsplits 64\n",
        Status::Unknown,
    ),
];

#[test]
fn no_linear_ranks_are_found(rt: HostRuntime) {
    expect_said(&rt, rt.alloc(), STUCK);
}

/// Words, a program, and the lines of the system that was not settled.
const UNSETTLED: &[Asked] = &[
    (
        TERMINATION,
        &[WIDE],
        "Unknown width\nsystem empty 0 row 0 column 1\n",
        Status::Unknown,
    ),
    (
        &["--termination", "--pivots", "1"],
        &[NESTED],
        "Unknown pivots\nsystem rank 0 0 0 bases 1\n",
        Status::Unknown,
    ),
    (
        &["--splits", "128", "--ctl", "term", "--pivots", "1"],
        &[NESTED],
        "Unknown pivots\nsystem rank 0 0 0 bases 1\n",
        Status::Unknown,
    ),
];

#[test]
fn a_system_is_not_settled(rt: HostRuntime) {
    expect_said(&rt, rt.alloc(), UNSETTLED);
}

/// Programs at fault.
const AT_FAULT: &[Asked] = &[
    (
        TERMINATION,
        &["START: 0; FROM: 0; assume(x"],
        "Refused text syntax line 1 column 28\n",
        Status::Refused,
    ),
    (
        TERMINATION,
        &[""],
        "Refused text no start\n",
        Status::Refused,
    ),
    (
        TERMINATION,
        &["START: 0; FROM: 0; x := 4611686018427387903 * 2; TO: 0;"],
        "Refused text wide edge 0\n",
        Status::Refused,
    ),
];

/// Faults of a program are reported as they are beside a certificate.
#[test]
fn programs_at_fault_are_refused(rt: HostRuntime) {
    expect_said(&rt, rt.alloc(), AT_FAULT);
}

/// Whether all runs of the file with a CR before each LF are shown to end.
fn returns_end(alloc: Global) -> Result<bool, AllocError> {
    says_with_ends(
        alloc,
        TERMINATION,
        FILE.as_bytes(),
        "\r\n",
        PROVED,
        Status::Proved,
    )
}

#[test]
fn a_file_with_returns_ends(rt: HostRuntime) {
    assert!(rt; returns_end(rt.alloc()) == Ok(true));
}

#[test]
fn certificates_that_are_written_are_accepted(rt: HostRuntime) {
    expect_shown(&rt, rt.alloc(), ENDING);
    expect_shown(&rt, rt.alloc(), UNDER_ROWS);
}

/// Programs with runs that never end, and the lines after the verdict.
const ENDLESS: &[Asked] = &[
    (
        TERMINATION,
        &[CLIMBER],
        "Disproved\nx = 1\n",
        Status::Disproved,
    ),
    (
        TERMINATION,
        &["START: 0; FROM: 0; TO: 0;"],
        "Disproved\n",
        Status::Disproved,
    ),
];

#[test]
fn runs_that_never_end_are_found(rt: HostRuntime) {
    expect_said(&rt, rt.alloc(), ENDLESS);
    expect_shown(&rt, rt.alloc(), ENDLESS);
}

/// How the answer to the countdown begins with its certificate.
const FIRST_LINES: &[u8] = b"Proved\nT2CERT 1\nproved\nnode term 2 2\n";

/// Whether the answer to the countdown begins with these lines, and ends with the last line of a certificate.
fn is_behind_the_verdict(alloc: Global) -> Result<bool, AllocError> {
    let words = ["--certificate", "--termination"];
    let written = output(alloc, &words, &[COUNTDOWN])?;
    Ok(written.starts_with(FIRST_LINES) && written.ends_with(b"\nend\n"))
}

#[test]
fn a_certificate_is_behind_the_verdict(rt: HostRuntime) {
    assert!(rt; is_behind_the_verdict(rt.alloc()) == Ok(true));
}
