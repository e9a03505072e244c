use crate::texts::{Asked, expect_said, output};
use crate::words::COUNTDOWN;
use std::alloc::{AllocError, Global};
use tv_top::Status;

const THREE_STATES: &[&str] = &["--termination", "--trace", "3"];

const IDLE: &str = "START: 0; FROM: 0; TO: 0;";

const CLIMBER: &str = "START: 0; FROM: 0; TO: 1; FROM: 1; assume(x > 0); x := x + 1; TO: 1;";

/// A run that never ends, from its first state on; a program all of whose runs end.
const SHOWN: &[Asked] = &[
    (
        THREE_STATES,
        &[IDLE],
        "Disproved\ntrace 0 0\ntrace 1 0\ntrace 2 0\n",
        Status::Disproved,
    ),
    (
        THREE_STATES,
        &[CLIMBER],
        "Disproved\nx = 1\ntrace 0 0 1\ntrace 1 1 1\ntrace 2 1 2\n",
        Status::Disproved,
    ),
    (
        &["--trace=1", "--termination"],
        &[CLIMBER],
        "Disproved\nx = 1\ntrace 0 0 1\n",
        Status::Disproved,
    ),
    (THREE_STATES, &[COUNTDOWN], "Proved\n", Status::Proved),
];

#[test]
fn states_of_an_endless_run_are_written(rt: HostRuntime) {
    expect_said(&rt, rt.alloc(), SHOWN);
}

/// Words that ask for states beside what has none.
const REFUSED: &[Asked] = &[
    (
        &["--termination", "--trace", "0"],
        &[IDLE],
        "Refused words\n",
        Status::Refused,
    ),
    (
        &["--termination", "--trace", "1001"],
        &[IDLE],
        "Refused words\n",
        Status::Refused,
    ),
    (
        &["--termination", "--trace", "3", "--check"],
        &[IDLE],
        "Refused words\n",
        Status::Refused,
    ),
    (
        &["--ctl", "term", "--trace", "3"],
        &[IDLE],
        "Refused words\n",
        Status::Refused,
    ),
];

#[test]
fn states_are_asked_for_with_termination_alone(rt: HostRuntime) {
    expect_said(&rt, rt.alloc(), REFUSED);
}

/// Programs, how many states are asked for, and the last line.
const LEAVING: &[(&str, &str, &str)] = &[
    (
        "START: 0; FROM: 0; assume(x > 0); x := 4*x; TO: 0;",
        "100",
        "\ntrace 64 wide\n",
    ),
    (
        "START: 0; FROM: 0; assume(x > 0); x := 4*x; TO: 0;",
        "64",
        "\ntrace 63 0 85070591730234615865843651857942052864\n",
    ),
    (
        "START: 0; FROM: 0; x := 1; TO: 1; FROM: 1; x := 2*x; TO: 1;",
        "200",
        "\ntrace 128 wide\n",
    ),
    (
        "START: 0; FROM: 0; x := 1; TO: 1; FROM: 1; x := -2*x; TO: 1;",
        "200",
        "\ntrace 129 wide\n",
    ),
];

/// Whether what is written of the run ends with the line.
fn ends_so(alloc: Global, program: &str, states: &str, line: &str) -> Result<bool, AllocError> {
    let written = output(alloc, &["--termination", "--trace", states], &[program])?;
    Ok(written.ends_with(line.as_bytes()))
}

#[test]
fn a_number_that_is_too_wide_ends_the_states(rt: HostRuntime) {
    for (program, states, line) in LEAVING {
        assert!(rt;
            ends_so(rt.alloc(), program, states, line) == Ok(true),
            "{program}"
        );
    }
}
