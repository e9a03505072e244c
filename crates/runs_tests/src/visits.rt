use crate::texts::{Asked, expect_said, repeated, says};
use crate::words::COUNTDOWN;
use std::alloc::{AllocError, Global};
use tv_top::Status;

const COUNTER: &str = "START: 0; FROM: 0; x := x + 1; TO: 0;";

const IDLE: &str = "START: 0; FROM: 0; TO: 0;";

const CLIMBER: &str = "START: 0; FROM: 0; TO: 1; FROM: 1; assume(x > 0); x := x + 1; TO: 1;";

const PROVED: &str = "Proved\n";

/// Properties that hold only finitely often, in runs that go on for ever and in others.
const FINITE: &[Asked] = &[
    (
        &["--finitely", "x < 10"],
        &[COUNTER],
        PROVED,
        Status::Proved,
    ),
    (
        &["--finitely", "x == 10"],
        &[COUNTER],
        PROVED,
        Status::Proved,
    ),
    (&["--finitely", "false"], &[IDLE], PROVED, Status::Proved),
    (
        &["--finitely=x > 0 && at(1)"],
        &[COUNTDOWN],
        PROVED,
        Status::Proved,
    ),
    (
        &["--finitely", "x <= 0"],
        &[CLIMBER],
        PROVED,
        Status::Proved,
    ),
];

#[test]
fn properties_hold_only_finitely_often(rt: HostRuntime) {
    expect_said(&rt, rt.alloc(), FINITE);
}

/// Properties that may hold again and again, or of which this is not known, and a system that was not settled.
const OPEN: &[Asked] = &[
    (
        &["--finitely", "at(0)"],
        &[IDLE],
        "Unknown rank\ncases 0\n",
        Status::Unknown,
    ),
    (
        &["--finitely", "true"],
        &[IDLE],
        "Unknown rank\ncases 0\n",
        Status::Unknown,
    ),
    (
        &["--finitely", "y > 5"],
        &["START: 0; FROM: 0; y := nondet(); TO: 0;"],
        "Unknown rank\ncases 0 1\n",
        Status::Unknown,
    ),
    (
        &["--pivots", "1", "--finitely", "x < 10"],
        &[COUNTER],
        "Unknown pivots\nsystem visits empty 1 bases 1\n",
        Status::Unknown,
    ),
];

#[test]
fn properties_may_hold_again_and_again(rt: HostRuntime) {
    expect_said(&rt, rt.alloc(), OPEN);
}

/// What is no property of states, or none by which the program is split.
const NOT_SPLIT: &[Asked] = &[
    (
        &["--finitely", "[EX](true)"],
        &[COUNTDOWN],
        "Refused property temporal\n",
        Status::Refused,
    ),
    (
        &["--finitely", "term"],
        &[COUNTDOWN],
        "Refused property temporal\n",
        Status::Refused,
    ),
    (
        &["--finitely", "at(9)"],
        &[COUNTDOWN],
        "Refused property unknown name column 4\n",
        Status::Refused,
    ),
    (
        &["--finitely", "x > 0"],
        &["START: 0; FROM: 0; x := x + 1; TO: 0; FROM: 0; x := 4611686018427387903 * 2; TO: 0;"],
        "Refused property cases edge 1\n",
        Status::Refused,
    ),
];

#[test]
fn programs_are_split_by_properties_of_states_alone(rt: HostRuntime) {
    expect_said(&rt, rt.alloc(), NOT_SPLIT);
}

/// Whether a program with this many edges is answered so.
fn many_edges(
    alloc: Global,
    edges: u32,
    written: &str,
    status: Status,
) -> Result<bool, AllocError> {
    let text = repeated(alloc, "START: 0; ", "FROM:0;TO:0;", edges, "")?;
    says(alloc, &["--finitely", "false"], text, written, status)
}

#[test]
fn edges_are_doubled_up_to_a_limit(rt: HostRuntime) {
    let within = many_edges(rt.alloc(), 2048, PROVED, Status::Proved);
    let above = "Refused property edges 4098\n";
    let past = many_edges(rt.alloc(), 2049, above, Status::Refused);
    assert!(rt; within == Ok(true));
    assert!(rt; past == Ok(true));
}

/// Words that ask for visits beside what there is not of them.
const REFUSED: &[Asked] = &[
    (
        &["--finitely", "x > 0", "--certificate"],
        &[COUNTDOWN],
        "Refused words\n",
        Status::Refused,
    ),
    (
        &["--finitely", "x > 0", "--check"],
        &[COUNTDOWN],
        "Refused words\n",
        Status::Refused,
    ),
    (
        &["--finitely", "x > 0", "--termination"],
        &[COUNTDOWN],
        "Refused words\n",
        Status::Refused,
    ),
];

#[test]
fn visits_are_asked_for_alone(rt: HostRuntime) {
    expect_said(&rt, rt.alloc(), REFUSED);
}
