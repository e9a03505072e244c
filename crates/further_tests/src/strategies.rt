use crate::saying::{Outcome, answer_to};
use std::test::Fail;

/// Counts down, or does something else.
const COUNTDOWN: &str =
    "START: 0; FROM: 0; assume(x > 0); x := x + 1; TO: 0; FROM: 0; assume(x > 0); x := x - 1; TO: 0; FROM: 0; assume(x > 5); TO: 1; FROM: 1; TO: 1;";

/// A draw, and then a countdown.
const DRAW: &str =
    "START: 0; FROM: 0; x := nondet(); assume(x >= 3); TO: 1; FROM: 1; assume(x > 0); x := x - 1; TO: 1; FROM: 1; assume(x <= 0); TO: 2; FROM: 1; assume(x > 0); x := x + 2; TO: 1;";

/// A controller that may always come back.
const CONTROLLER: &str =
    "START: reset; FROM: reset; t := 0; TO: run; FROM: run; t := t + 1; TO: run; FROM: run; assume(t > 10); TO: cool; FROM: cool; assume(t > 0); t := t - 1; TO: cool; FROM: cool; t := t + 1; TO: cool; FROM: cool; assume(t <= 0); TO: reset;";

/// A loop in a loop. Each of them may grow.
const NESTED: &str =
    "START: 0; FROM: 0; assume(x > 0); y := nondet(); assume(y > x); TO: 1; FROM: 1; assume(y > 0); y := y + 1; TO: 1; FROM: 1; assume(y > 0); y := y - 1; TO: 1; FROM: 1; assume(y <= 0); x := x - 1; TO: 0; FROM: 1; assume(y <= 0); x := x + 1; TO: 0; FROM: 0; assume(x <= 0); TO: 2; FROM: 2; TO: 2;";

/// First one counter grows, and then it falls.
const PHASES: &str =
    "START: 0; FROM: 0; x := x + 1; TO: 0; FROM: 0; x := x - 1; TO: 0; FROM: 0; assume(x > 9); TO: 1; FROM: 1; x := x - 1; TO: 1; FROM: 1; x := x + 1; TO: 1; FROM: 1; assume(x < 0 - 9); TO: 2; FROM: 2; TO: 2;";

/// Falls only while another number is positive.
const GUARDED: &str =
    "START: 0; FROM: 0; assume(y > 0); x := x - 1; TO: 0; FROM: 0; x := x + 1; TO: 0; FROM: 0; assume(x > 3); TO: 1; FROM: 1; TO: 1;";

/// Passes zero from an odd number.
const EVEN: &str = "START: 0; FROM: 0; x := x - 2; TO: 0;";

/// Two counters hand a token back and forth while they grow; from the second one it may be lost.
const GROWING: &str =
    "START: 0; FROM: 0; assume(x > 0); x := x + y; TO: 1; FROM: 1; assume(y > 0); TO: 0; FROM: 1; y := y - 1; TO: 0; FROM: 0; assume(x <= 0); TO: 2; FROM: 2; TO: 2;";

/// Counts down to a stop, which it may not come to where another number is not positive.
const STOPPING: &str =
    "START: 0; FROM: 0; assume(x > 0); x := x - 1; TO: 0; FROM: 0; assume(x <= 0); assume(y > 0); TO: 1; FROM: 1; TO: 1;";

/// Counts down to location 1, but at one number leaves for where it stays for ever.
const LEAKING: &str =
    "START: 0; FROM: 0; assume(x > 0); assume(y != 7); x := x - 1; TO: 0; FROM: 0; assume(x <= 0); TO: 1; FROM: 0; assume(y == 7); TO: 2; FROM: 2; y := y + 1; TO: 2; FROM: 1; TO: 1;";

/// A lift: it may be called to any floor, and goes there step by step.
const LIFT: &str =
    "START: idle; FROM: idle; goal := nondet(); assume(goal >= 0); TO: moving; FROM: moving; assume(floor < goal); floor := floor + 1; TO: moving; FROM: moving; assume(floor > goal); floor := floor - 1; TO: moving; FROM: moving; assume(floor == goal); TO: open; FROM: open; TO: idle; FROM: open; TO: open;";

/// A lift whose direction says whether it goes up or down until it opens.
const DIRECTED: &str =
    "START: idle; FROM: idle; way := nondet(); TO: moving; FROM: moving; assume(way > 0 && floor < 9); floor := floor + 1; TO: moving; FROM: moving; assume(way <= 0 && floor > 0); floor := floor - 1; TO: moving; FROM: moving; assume(way > 0 && floor >= 9); TO: open; FROM: moving; assume(way <= 0 && floor <= 0); TO: open; FROM: open; TO: idle;";

/// Falls by a number that falls: at first it may grow.
const FALLING: &str =
    "START: 0; FROM: 0; assume(x > 0); x := x + y; y := y - 1; TO: 0; FROM: 0; assume(x <= 0); TO: 1; FROM: 1; TO: 1;";

/// A lock for which others may begin to wait at any time; when it is given back, one of them goes.
const WAITERS: &str =
    "START: free; FROM: free; w := w + 1; TO: free; FROM: free; TO: held; FROM: held; w := w + 1; TO: held; FROM: held; assume(w > 0); w := w - 1; TO: free; FROM: held; assume(w <= 0); TO: free;";

/// Nine loops, one after the other.
const LOOPS: &str =
    "START: 0; FROM: 0; assume(x > 0); x := x - 1; TO: 0; FROM: 0; assume(x <= 0); x := y; TO: 1; \
     FROM: 1; assume(x > 0); x := x - 1; TO: 1; FROM: 1; assume(x <= 0); x := y; TO: 2; \
     FROM: 2; assume(x > 0); x := x - 1; TO: 2; FROM: 2; assume(x <= 0); x := y; TO: 3; \
     FROM: 3; assume(x > 0); x := x - 1; TO: 3; FROM: 3; assume(x <= 0); x := y; TO: 4; \
     FROM: 4; assume(x > 0); x := x - 1; TO: 4; FROM: 4; assume(x <= 0); x := y; TO: 5; \
     FROM: 5; assume(x > 0); x := x - 1; TO: 5; FROM: 5; assume(x <= 0); x := y; TO: 6; \
     FROM: 6; assume(x > 0); x := x - 1; TO: 6; FROM: 6; assume(x <= 0); x := y; TO: 7; \
     FROM: 7; assume(x > 0); x := x - 1; TO: 7; FROM: 7; assume(x <= 0); x := y; TO: 8; \
     FROM: 8; assume(x > 0); x := x - 1; TO: 8; FROM: 8; assume(x <= 0); x := y; TO: 9;";

/// A program, a property of it, and what is said: counters.
const COUNTING: &[(&str, &str, Outcome)] = &[
    (COUNTDOWN, "[EF](x <= 0)", Outcome::Proved),
    (COUNTDOWN, "[AG](at(1) || [EF](x <= 0))", Outcome::Proved),
    (COUNTDOWN, "[EU](at(0))(x <= 0)", Outcome::Proved),
    (DRAW, "[EF](at(2))", Outcome::Proved),
    (COUNTDOWN, "[EU](x < 10)(at(1))", Outcome::Disproved),
    (COUNTDOWN, "[AG](x <= 0 || [EF](at(1)))", Outcome::Proved),
    (COUNTDOWN, "[EF](x > 100)", Outcome::Disproved),
    (
        COUNTDOWN,
        "[AG](x <= 0 || at(1) || [EF](x > 100))",
        Outcome::Proved,
    ),
    (EVEN, "[EF](x == 0)", Outcome::Disproved),
];

/// The same of the controller.
const CONTROLLED: &[(&str, &str, Outcome)] = &[
    (CONTROLLER, "[EF](at(cool))", Outcome::Proved),
    (CONTROLLER, "[AG]([EF](at(reset)))", Outcome::Proved),
    (
        CONTROLLER,
        "[EM](t <= 10)(at(reset) || at(run))",
        Outcome::Proved,
    ),
    (
        CONTROLLER,
        "[EM](t == 10)(at(reset) || at(run))",
        Outcome::Proved,
    ),
    (
        CONTROLLER,
        "[EU](at(reset) || at(run))(t == 10)",
        Outcome::Proved,
    ),
    (
        CONTROLLER,
        "[AG]([EF](at(run) && t == 20))",
        Outcome::Proved,
    ),
];

/// The same of loops.
const LOOPING: &[(&str, &str, Outcome)] = &[
    (NESTED, "[EF](at(2))", Outcome::Proved),
    (NESTED, "[AG]([EF](at(2)))", Outcome::Proved),
    (PHASES, "[EF](at(2))", Outcome::Proved),
    (GUARDED, "[EF](at(1))", Outcome::Proved),
    (
        GUARDED,
        "[AG](y <= 0 || at(1) || [EF](x <= 0))",
        Outcome::Proved,
    ),
];

/// The same of cycles.
const CYCLING: &[(&str, &str, Outcome)] = &[
    (
        GROWING,
        "[AG](x <= 0 || y < 0 || at(2) || at(1) || [EG](x > 0))",
        Outcome::Disproved,
    ),
    (
        GROWING,
        "[AG](x <= 0 || y <= 0 || at(2) || [EG](x > 0))",
        Outcome::Proved,
    ),
    (
        GROWING,
        "[AX](x <= 0 || y <= 0 || [EG](x > 0 && y > 0))",
        Outcome::Proved,
    ),
    (
        GROWING,
        "[EF](at(2) || [EG](x > 0 && y > 0))",
        Outcome::Proved,
    ),
    (LIFT, "[AG]([EF](at(open)))", Outcome::Proved),
    (LIFT, "[AG](!at(open) || [EG](at(open)))", Outcome::Proved),
    (LIFT, "[EF]([EG](at(open)))", Outcome::Proved),
    (LIFT, "[AG]([EF]([EG](at(open))))", Outcome::Proved),
    (LIFT, "[ER](at(idle))(!at(moving))", Outcome::Proved),
];

/// The same of every path.
const EVERY: &[(&str, &str, Outcome)] = &[
    (STOPPING, "[AG](y <= 0 || [AF](at(1)))", Outcome::Proved),
    (STOPPING, "[AF](at(1) || y <= 0)", Outcome::Proved),
    (
        LEAKING,
        "[AG](y == 7 || at(2) || [AF](at(1)))",
        Outcome::Proved,
    ),
    (
        LEAKING,
        "[AX](y == 7 || [AF](at(1) && y != 7))",
        Outcome::Proved,
    ),
];

/// The same of every path through loops that change with a variable, or follow one another.
const PARTED: &[(&str, &str, Outcome)] = &[
    (
        DIRECTED,
        "[AG](!at(moving) || [AF](at(open)))",
        Outcome::Proved,
    ),
    (DIRECTED, "[AG]([AF](at(idle)))", Outcome::Proved),
    (FALLING, "[AF](at(1))", Outcome::Proved),
    (LOOPS, "[AF](at(9))", Outcome::Proved),
    (LOOPS, "[EF](at(9))", Outcome::Proved),
];

/// The same of a number that falls over several areas in turn.
const WAITING: &[(&str, &str, Outcome)] = &[
    (WAITERS, "[EF](w == 10)", Outcome::Proved),
    (WAITERS, "[AG]([EF](w == 0))", Outcome::Proved),
    (WAITERS, "[AG]([EF](w == 0 && at(free)))", Outcome::Proved),
    (FALLING, "[EF](at(1))", Outcome::Proved),
    (FALLING, "[AG](at(1) || [EF](at(1)))", Outcome::Proved),
];

/// Compares what is said of each row.
fn all_are_said(rt: &HostRuntime, rows: &[(&str, &str, Outcome)]) -> Result<(), Fail> {
    for (program, property, wanted) in rows {
        let answer = answer_to(rt.alloc(), program, property)?;
        if answer != *wanted {
            return Err(Fail::from("another answer"));
        }
    }
    Ok(())
}

#[test]
fn counters_come_to_the_end(rt: HostRuntime) -> Result<(), Fail> {
    all_are_said(&rt, COUNTING)
}

#[test]
fn a_controller_comes_back(rt: HostRuntime) -> Result<(), Fail> {
    all_are_said(&rt, CONTROLLED)
}

#[test]
fn loops_come_to_the_end(rt: HostRuntime) -> Result<(), Fail> {
    all_are_said(&rt, LOOPING)
}

#[test]
fn cycles_go_on_for_ever(rt: HostRuntime) -> Result<(), Fail> {
    all_are_said(&rt, CYCLING)
}

#[test]
fn every_path_comes_to_the_end(rt: HostRuntime) -> Result<(), Fail> {
    all_are_said(&rt, EVERY)
}

#[test]
fn every_path_leaves_loops_that_are_parted(rt: HostRuntime) -> Result<(), Fail> {
    all_are_said(&rt, PARTED)
}

#[test]
fn waiters_are_served(rt: HostRuntime) -> Result<(), Fail> {
    all_are_said(&rt, WAITING)
}
