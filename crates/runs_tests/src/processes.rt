use crate::texts::{Asked, all_proposers, begins_under, expect_said, joined};
use std::alloc::{AllocError, Global};
use tv_top::Status;

const PROVED: &str = "Proved\n";

/// Two processes that each enter where a lock is open, in one step.
const LOCKED: &str =
    "PROCESS: a; START: 0; FROM: 0; assume(l == 0); l := 1; TO: 1; PROCESS: b; START: 0; FROM: 0; assume(l == 0); l := 1; TO: 1;";

/// One process counts down what the other one counts up while its own counter falls.
const FED: &str =
    "PROCESS: a; START: 0; FROM: 0; assume(x > 0); x := x - 1; TO: 0; PROCESS: b; START: 0; FROM: 0; assume(y > 0); y := y - 1; x := x + 1; TO: 0;";

/// The other one never stops.
const FED_FOR_EVER: &str =
    "PROCESS: a; START: 0; FROM: 0; assume(x > 0); x := x - 1; TO: 0; PROCESS: b; START: 0; FROM: 0; x := x + 1; TO: 0;";

/// Each process reads a number, and then writes one more.
const LOST_UPDATE: &str =
    "PROCESS: a; START: 0; FROM: 0; t := x; TO: 1; FROM: 1; x := t + 1; TO: 2; PROCESS: b; START: 0; FROM: 0; u := x; TO: 1; FROM: 1; x := u + 1; TO: 2;";

const TWO_STEPS: &str =
    "PROCESS: a; START: p; FROM: p; TO: q; PROCESS: b; START: r; FROM: r; TO: s;";

const ELEVEN: &str =
    "START: 0; FROM: 0; TO: 1; FROM: 1; TO: 2; FROM: 2; TO: 3; FROM: 3; TO: 4; FROM: 4; TO: 5; FROM: 5; TO: 6; FROM: 6; TO: 7; FROM: 7; TO: 8; FROM: 8; TO: 9; FROM: 9; TO: 10;";

const HEAD: &str = "PROCESS: p; ";

const ALONE: &str = "PROCESS: a; START: 0;";

/// Words, a text of processes, and all that is written.
const SAID: &[Asked] = &[
    (&["--safety", "_1.1"], &[LOCKED], PROVED, Status::Proved),
    (&["--termination"], &[FED], PROVED, Status::Proved),
    (
        &["--ctl", "x != 0 || [EF](at(_2.2) && x == 1)"],
        &[LOST_UPDATE],
        PROVED,
        Status::Proved,
    ),
    (
        &["--ctl", "[AF](at(_q.s))"],
        &[TWO_STEPS],
        PROVED,
        Status::Proved,
    ),
    (
        &["--ctl", "[AX](at(_q.r) || at(_p.s))"],
        &[TWO_STEPS],
        PROVED,
        Status::Proved,
    ),
    (
        &["--ctl", "[AX](at(_q.s))"],
        &[TWO_STEPS],
        "Disproved\n",
        Status::Disproved,
    ),
    (&["--termination"], &[ALONE], PROVED, Status::Proved),
    (
        &["--safety", "0"],
        &[ALONE],
        "Refused property unknown name column 1\n",
        Status::Refused,
    ),
    (
        &["--safety", "_0"],
        &[ALONE],
        "Disproved\n",
        Status::Disproved,
    ),
];

/// Texts that are refused, in the order in which the faults count.
const REFUSED: &[Asked] = &[
    (
        &["--termination"],
        &["START: 0; PROCESS: a; START: 0;"],
        "Refused text syntax line 1 column 1\n",
        Status::Refused,
    ),
    (
        &["--termination"],
        &[
            ALONE, ALONE, ALONE, ALONE, ALONE, ALONE, ALONE, ALONE, ALONE,
        ],
        "Refused text processes 9\n",
        Status::Refused,
    ),
    (
        &["--termination"],
        &["PROCESS: a; PROCESS: b; START: 0;"],
        "Refused text no start\n",
        Status::Refused,
    ),
    (
        &["--termination"],
        &["PROCESS: p; START: a.b;"],
        "Refused text label line 1 column 20\n",
        Status::Refused,
    ),
    (
        &["--termination"],
        &[HEAD, ELEVEN, HEAD, ELEVEN, HEAD, ELEVEN],
        "Refused text product locations 1331\n",
        Status::Refused,
    ),
];

#[test]
fn questions_of_processes_are_answered(rt: HostRuntime) {
    expect_said(&rt, rt.alloc(), SAID);
}

#[test]
fn texts_of_processes_are_refused(rt: HostRuntime) {
    expect_said(&rt, rt.alloc(), REFUSED);
}

/// Words, a text of processes, and the first line: the values that follow may be any that serve.
const BEGUN: &[Asked] = &[
    (
        &["--ctl", "[EF](at(_1.0))"],
        &[LOCKED],
        "Disproved\nl = ",
        Status::Disproved,
    ),
    (
        &["--termination"],
        &[FED_FOR_EVER],
        "Disproved\nx = ",
        Status::Disproved,
    ),
    (
        &["--ctl", "x != 0 || [AG](!at(_2.2) || x == 2)"],
        &[LOST_UPDATE],
        "Disproved\nt = ",
        Status::Disproved,
    ),
];

fn begins(alloc: Global, asked: &Asked) -> Result<bool, AllocError> {
    let (words, texts, line, status) = asked;
    let proposers = all_proposers(alloc)?;
    let text = joined(alloc, texts)?;
    begins_under(alloc, words, text, proposers, line, *status)
}

#[test]
fn questions_of_processes_are_disproved(rt: HostRuntime) {
    for asked in BEGUN {
        assert!(rt; begins(rt.alloc(), asked) == Ok(true), "{asked:?}");
    }
}
