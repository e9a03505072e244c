use crate::endings::FIVE_PHASES;
use crate::file::{FILE, says_with_ends};
use crate::texts::{Asked, expect_said, expect_shown, output};
use crate::words::COUNTDOWN;
use std::alloc::{AllocError, Global};
use std::process::Abort;
use std::str;
use tv_top::Status;

const PROVED: &str = "Proved\n";

/// Counts down to 0 and stops.
const LOOP: &str = "START: 0; FROM: 0; assume(x > 0); x := x - 1; TO: 0;";

const DRAW: &str = "START: 0; FROM: 0; x := x; y := nondet(); TO: 1;";

/// One step that changes nothing.
const STEP: &str = "START: 0; FROM: 0; x := x; TO: 1;";

/// Draws a number and counts down from it.
const DRAWN: &str =
    "START: 0; FROM: 0; x := nondet(); TO: 1; FROM: 1; assume(x > 0); x := x - 1; TO: 1;";

/// Takes up some work, and is idle once it is done.
const SERVER: &str =
    "START: 0; FROM: 0; work := nondet(); TO: 1; FROM: 1; assume(work > 0); work := work - 1; TO: 1; FROM: 1; assume(work <= 0); TO: 0;";

/// One step, and a loop that no run comes to.
const APART: &str = "START: 0; FROM: 0; x := x; TO: 1; FROM: 2; TO: 2;";

/// Falls by a number that falls.
const FALLING: &str = "START: 0; FROM: 0; assume(x > 0); x := x + y; y := y - 1; TO: 0;";

/// Falls over each two steps by 1, but in between it may grow by any number.
const TURNING: &str = "START: 0; FROM: 0; assume(x > 0); x := x + y; y := 0 - y - 1; TO: 0;";

/// Draws half of a number, if there is one.
const HALF: &str = "START: 0; FROM: 0; y := nondet(); assume(2*y == x); TO: 1;";

/// Formulas that hold of the loop.
const HOLD: &[Asked] = &[
    (&["--ctl", "[AX](x >= 0)"], &[LOOP], PROVED, Status::Proved),
    (&["--ctl", "[AF](x <= 0)"], &[LOOP], PROVED, Status::Proved),
    (
        &["--ctl", "[AG](x <= 5 || x > 5)"],
        &[LOOP],
        PROVED,
        Status::Proved,
    ),
    (&["--ctl", "[EG](true)"], &[LOOP], PROVED, Status::Proved),
    (
        &["--ctl", "[AU](x > 0)(x <= 0)"],
        &[LOOP],
        PROVED,
        Status::Proved,
    ),
    (
        &["--ctl", "[AW](x > 0)(x <= 0)"],
        &[LOOP],
        PROVED,
        Status::Proved,
    ),
    (
        &["--ctl", "[EW](x > 0)(x <= 0)"],
        &[LOOP],
        PROVED,
        Status::Proved,
    ),
    (
        &["--ctl", "[AR](x <= 0)(x <= 0 || x > 0)"],
        &[LOOP],
        PROVED,
        Status::Proved,
    ),
    (
        &["--ctl", "[ER](false)(true)"],
        &[LOOP],
        PROVED,
        Status::Proved,
    ),
    (
        &["--ctl", "[AM](x <= 0)(true)"],
        &[LOOP],
        PROVED,
        Status::Proved,
    ),
    (
        &["--ctl", "[AG]([AF](x <= 0))"],
        &[LOOP],
        PROVED,
        Status::Proved,
    ),
];

/// Formulas that fail at an initial state of the loop, and what is written of one.
const FAIL: &[Asked] = &[
    (
        &["--ctl", "[AX](x > 0)"],
        &[LOOP],
        "Disproved\nx = 1\n",
        Status::Disproved,
    ),
    (
        &["--ctl", "[EX](true)"],
        &[LOOP],
        "Disproved\nx = 0\n",
        Status::Disproved,
    ),
    (
        &["--ctl", "[AF](x < 0)"],
        &[LOOP],
        "Disproved\nx = 1\n",
        Status::Disproved,
    ),
    (
        &["--ctl", "[EF](x < 0)"],
        &[LOOP],
        "Disproved\nx = 0\n",
        Status::Disproved,
    ),
    (
        &["--ctl", "[AG](x >= 0)"],
        &[LOOP],
        "Disproved\nx = -1\n",
        Status::Disproved,
    ),
    (
        &["--ctl", "[EG](x > 0)"],
        &[LOOP],
        "Disproved\nx = 0\n",
        Status::Disproved,
    ),
    (
        &["--ctl", "[AU](x > 3)(x <= 0)"],
        &[LOOP],
        "Disproved\nx = 1\n",
        Status::Disproved,
    ),
    (
        &["--ctl", "[EU](x > 3)(x <= 0)"],
        &[LOOP],
        "Disproved\nx = 1\n",
        Status::Disproved,
    ),
    (
        &["--ctl", "[AW](x > 3)(x <= 0)"],
        &[LOOP],
        "Disproved\nx = 1\n",
        Status::Disproved,
    ),
    (
        &["--ctl", "[EW](x > 3)(x <= 0)"],
        &[LOOP],
        "Disproved\nx = 1\n",
        Status::Disproved,
    ),
    (
        &["--ctl", "[AR](false)(x > 0)"],
        &[LOOP],
        "Disproved\nx = 0\n",
        Status::Disproved,
    ),
    (
        &["--ctl", "[ER](false)(x > 0)"],
        &[LOOP],
        "Disproved\nx = 0\n",
        Status::Disproved,
    ),
    (
        &["--ctl", "[AM](x < 0)(true)"],
        &[LOOP],
        "Disproved\nx = 1\n",
        Status::Disproved,
    ),
    (
        &["--ctl", "[EM](x < 0)(true)"],
        &[LOOP],
        "Disproved\nx = 0\n",
        Status::Disproved,
    ),
    (
        &["--ctl", "[AG]([EF]([AG](x > 0)))"],
        &[LOOP],
        "Disproved\nx = 0\n",
        Status::Disproved,
    ),
    (
        &["--ctl", "!at(0)"],
        &[LOOP],
        "Disproved\nx = 1\n",
        Status::Disproved,
    ),
];

/// Formulas of other programs, and the lines of the verdict.
const OTHERS: &[Asked] = &[
    (
        &["--ctl", "[AG](x >= 0)"],
        &[COUNTDOWN],
        "Disproved\nx = -1\n",
        Status::Disproved,
    ),
    (
        &["--ctl", "[AF](x <= 0)"],
        &[COUNTDOWN],
        PROVED,
        Status::Proved,
    ),
    (
        &["--ctl", "[EX](y == x + 5)"],
        &[DRAW],
        PROVED,
        Status::Proved,
    ),
    (
        &["--ctl", "[EX](x == 1 || x == 3)"],
        &[STEP],
        "Disproved\nx = 2\n",
        Status::Disproved,
    ),
    (&["--ctl", "[EF](x == 7)"], &[DRAWN], PROVED, Status::Proved),
    (
        &["--ctl", "[AF](x < 0)"],
        &[DRAWN],
        "Disproved\nx = 1\n",
        Status::Disproved,
    ),
    (
        &["--ctl", "[AG]([AF](at(0)))"],
        &[SERVER],
        PROVED,
        Status::Proved,
    ),
];

/// Each formula is to be answered so, and the certificate that is written after the answer accepted.
fn expect_settled(rt: &impl Abort, alloc: Global, list: &[Asked]) {
    expect_said(rt, alloc, list);
    expect_shown(rt, alloc, list);
}

#[test]
fn formulas_that_hold_are_proved(rt: HostRuntime) {
    expect_settled(&rt, rt.alloc(), HOLD);
}

#[test]
fn formulas_that_fail_are_disproved(rt: HostRuntime) {
    expect_settled(&rt, rt.alloc(), FAIL);
}

#[test]
fn formulas_of_other_programs_are_settled(rt: HostRuntime) {
    expect_settled(&rt, rt.alloc(), OTHERS);
}

/// Too few pieces may be kept for the states before a step, and enough.
const COUNTED: &[Asked] = &[
    (
        &["--ctl", "[EX](x == 1 || x == 3)", "--disjuncts", "1"],
        &[STEP],
        "Unknown disjuncts\nlocation 0 count 2\n",
        Status::Unknown,
    ),
    (
        &["--ctl", "[EX](x == 1 || x == 3)", "--disjuncts", "4"],
        &[STEP],
        "Disproved\nx = 2\n",
        Status::Disproved,
    ),
];

#[test]
fn pieces_are_counted(rt: HostRuntime) {
    expect_said(&rt, rt.alloc(), COUNTED);
}

/// A step that uses nine variables.
const NINE: &str = "START: 0; FROM: 0; a := b + c + d + e + f + g + h + i; TO: 1;";

/// None of the nine is 0: each may be below or above, so there are 2^9 pieces.
const NONE_IS_ZERO: &str =
    "a != 0 && b != 0 && c != 0 && d != 0 && e != 0 && f != 0 && g != 0 && h != 0 && i != 0";

/// More pieces than are kept: a further search follows where the limit is the usual one, and none where it is lower.
const MANY_PIECES: &[Asked] = &[
    (
        &["--ctl", NONE_IS_ZERO, "--disjuncts", "255"],
        &[NINE],
        "Unknown disjuncts\nlocation 0 count 256\n",
        Status::Unknown,
    ),
    (
        &["--ctl", NONE_IS_ZERO],
        &[NINE],
        "Disproved\na = 0\nb = 0\nc = 0\nd = 0\ne = 0\nf = 0\ng = 0\nh = 0\ni = 0\n",
        Status::Disproved,
    ),
];

#[test]
fn a_further_search_follows_the_usual_limit_of_pieces(rt: HostRuntime) {
    expect_said(&rt, rt.alloc(), MANY_PIECES);
}

/// Whether a line of the text begins so.
fn has_line(text: &[u8], begins: &str) -> bool {
    match str::from_utf8(text) {
        Ok(text) => text.lines().any(|line| line.starts_with(begins)),
        Err(_) => false,
    }
}

/// Whether a certificate of that which always holds has a piece at the location that is entered, and none at the other.
fn has_what_is_entered(alloc: Global) -> Result<bool, AllocError> {
    let words = ["--ctl", "[AG](true)", "--certificate"];
    let text = output(alloc, &words, &[APART])?;
    Ok(has_line(&text, "piece 1 go") && !has_line(&text, "piece 2 go"))
}

/// A certificate has no piece that nothing enters.
#[test]
fn pieces_that_nothing_enters_are_left_out(rt: HostRuntime) {
    assert!(rt; has_what_is_entered(rt.alloc()) == Ok(true));
}

/// Rounds that are not settled, a case with a draw over which going back is not exact, and a comparison that is too wide.
const LEFT_OPEN: &[Asked] = &[
    (
        &["--ctl", "[AF](x <= 0)"],
        &[FIVE_PHASES],
        "Unknown template\nsubformula 0\n",
        Status::Unknown,
    ),
    (
        &["--ctl", "[EX](true)"],
        &[HALF],
        "Unknown template\ndraw case 0\n",
        Status::Unknown,
    ),
    (
        &["--ctl", "x + 4611686018427387903 + 5 >= 0"],
        &[TURNING],
        "Unknown width\ncomposed column 2\n",
        Status::Unknown,
    ),
];

/// What is left open is named.
#[test]
fn formulas_are_left_open(rt: HostRuntime) {
    expect_said(&rt, rt.alloc(), LEFT_OPEN);
}

/// What the rounds leave open and a further search settles.
const FURTHER: &[Asked] = &[
    (&["--ctl", "[EF](x <= 0)"], &[LOOP], PROVED, Status::Proved),
    (
        &["--ctl", "[AF](x <= 0)"],
        &[FALLING],
        PROVED,
        Status::Proved,
    ),
];

#[test]
fn a_formula_is_settled_by_a_further_search(rt: HostRuntime) {
    expect_settled(&rt, rt.alloc(), FURTHER);
}

/// Whether a formula of the file with such ends of lines is proved.
fn is_proved_of_the_file(alloc: Global, line_end: &str) -> bool {
    let words = ["--ctl", "[AG](!at(9) || [AF](at(13)))"];
    let status = Status::Proved;
    says_with_ends(alloc, &words, FILE.as_bytes(), line_end, PROVED, status) == Ok(true)
}

/// A formula of a program with nested loops and draws, whatever ends its lines.
#[test]
fn a_formula_of_nested_loops_is_proved(rt: HostRuntime) {
    for line_end in ["\n", "\r\n"] {
        assert!(rt; is_proved_of_the_file(rt.alloc(), line_end));
    }
}
