use crate::saying::{Outcome, answer_to};
use std::test::Fail;

/// Counts down, and then goes round.
const ROUND: &str =
    "START: 0; FROM: 0; assume(x > 0); x := x - 1; TO: 0; FROM: 0; assume(x <= 0); TO: 1; FROM: 1; TO: 1;";

/// Draws a number and counts it down.
const DRAWING: &str =
    "START: 0; FROM: 0; x := nondet(); TO: 1; FROM: 1; assume(x > 0); x := x - 1; TO: 1; FROM: 1; assume(x <= 0); TO: 2; \
     FROM: 2; TO: 2;";

/// A controller that may be stopped at any time, and is reset then.
const CONTROLLER: &str =
    "START: wait; FROM: wait; t := nondet(); TO: run; FROM: run; assume(t > 0); t := t - 1; TO: run; \
     FROM: run; assume(t <= 0); TO: reset; FROM: run; TO: stop; FROM: stop; TO: reset; FROM: reset; TO: wait;";

/// A lock is taken or not, and given back where it was taken.
const LOCK: &str =
    "START: 0; FROM: 0; l := 0; f := 0; TO: 1; FROM: 1; assume(l == 0); l := 1; f := 1; TO: 2; FROM: 1; f := 0; TO: 2; \
     FROM: 2; n := n + 1; TO: 2; FROM: 2; assume(f == 1); TO: 3; FROM: 2; assume(f != 1); TO: 1; \
     FROM: 3; assume(l != 1); TO: bad; FROM: 3; assume(l == 1); l := 0; TO: 1; FROM: bad; TO: bad;";

/// Two counters that grow in turn.
const PHASES: &str =
    "START: 0; FROM: 0; p := 0; x := 0; y := 0; TO: 1; FROM: 1; assume(p == 0); x := x + 1; p := 1; TO: 1; \
     FROM: 1; assume(p == 1); y := y + 1; p := 0; TO: 1; FROM: 1; assume(p == 0); assume(x != y); TO: bad; \
     FROM: 1; assume(p != 0); assume(x != y + 1); TO: bad;";

/// What was drawn is added to a number, which may go to location 1 while it is below 5.
const GROWING: &str =
    "START: 0; FROM: 0; assume(x > 0); x := x + y; y := nondet(); TO: 0; FROM: 0; assume(x < 5); x := x - 1; TO: 1; \
     FROM: 1; assume(x < 0); TO: 1;";

/// y is always twice x.
const COUNTERS: &str =
    "START: 0; FROM: 0; x := 0; y := 0; TO: 1; FROM: 1; x := x + 1; y := y + 2; TO: 1; FROM: 1; assume(x == 3); assume(y != 6); TO: 2;";

/// Each step takes from what is left of the steps, and from a number.
const SPENDING: &str = "START: 0; FROM: 0; assume(n > 0); n := n - 1; x := x - 1; TO: 0;";

/// Two ways to spend what is left. One of them takes from a number too.
const BURNING: &str =
    "START: 0; FROM: 0; assume(f > 0); f := f - 1; h := h - 1; TO: 0; FROM: 0; assume(f > 0); f := f - 1; TO: 0; \
     FROM: 0; assume(f <= 0); TO: 1; FROM: 1; TO: 1;";

/// Steps, untils and what is kept, over some path and every path: a program, a property of it, and what is said.
const PATHS: &[(&str, &str, Outcome)] = &[
    (ROUND, "[EX](at(1) || x < 100)", Outcome::Disproved),
    (ROUND, "[EX](at(1) || at(0))", Outcome::Proved),
    (ROUND, "[AG]([EX](at(1) || at(0)))", Outcome::Proved),
    (
        ROUND,
        "[AG]([EX](at(1) || [EX](at(1) || x > -5)))",
        Outcome::Proved,
    ),
    (
        ROUND,
        "[EG](x > 0 || at(1) || [EX](at(1)))",
        Outcome::Proved,
    ),
    (ROUND, "[AG](at(0) || [EG](at(1)))", Outcome::Proved),
    (ROUND, "[EF](x > 10) || x <= 10", Outcome::Proved),
    (DRAWING, "[EF](at(2))", Outcome::Proved),
    (DRAWING, "[EF](at(1) && x == 7)", Outcome::Proved),
    (DRAWING, "[EF](at(2) && x == 0)", Outcome::Proved),
    (DRAWING, "[EF]([EG](at(2)))", Outcome::Proved),
    (DRAWING, "[EF](at(1) && [EG](x <= 3))", Outcome::Proved),
    (
        DRAWING,
        "[AG](at(0) || at(1) || [AG](at(2)))",
        Outcome::Proved,
    ),
    (DRAWING, "[AX]([EX](at(2)))", Outcome::Disproved),
    (DRAWING, "[EX]([EX](at(2)))", Outcome::Proved),
    (DRAWING, "[EX]([AX](at(1)))", Outcome::Proved),
    (DRAWING, "[AX]([AX](at(1)))", Outcome::Disproved),
    (DRAWING, "[AX](at(1) && x > 0)", Outcome::Disproved),
    (CONTROLLER, "[AG]([EF](at(reset)))", Outcome::Proved),
    (
        CONTROLLER,
        "[AG]([EF](at(reset) && t == 3))",
        Outcome::Proved,
    ),
    (CONTROLLER, "[EG](!at(reset))", Outcome::Disproved),
    (
        CONTROLLER,
        "[AG]([EF](at(reset) && t > 5))",
        Outcome::Proved,
    ),
    (CONTROLLER, "[AW](!at(stop))(at(stop))", Outcome::Proved),
    (
        CONTROLLER,
        "[AG](!at(stop) || [AW](at(stop) || at(reset))(at(wait)))",
        Outcome::Proved,
    ),
    (
        CONTROLLER,
        "[AG](!at(stop) || [AF](at(wait)))",
        Outcome::Proved,
    ),
    (CONTROLLER, "[EU](!at(reset))(at(stop))", Outcome::Proved),
    (
        CONTROLLER,
        "[EW](at(wait) || at(run))(at(stop))",
        Outcome::Proved,
    ),
];

/// The same of a number that grows.
const GROWN: &[(&str, &str, Outcome)] = &[
    (GROWING, "[AG](at(0) || x < 4 )", Outcome::Proved),
    (GROWING, "[EF](at(1))", Outcome::Proved),
    (
        GROWING,
        "[AG](at(1) || x <= 0 || [EX](x > 77))",
        Outcome::Disproved,
    ),
];

/// Release and strong release.
const RELEASES: &[(&str, &str, Outcome)] = &[
    (
        ROUND,
        "[AR](at(1))(x > 0 || at(1) || [AX](at(1)))",
        Outcome::Proved,
    ),
    (ROUND, "[AR](at(1))(x > 0 || at(1))", Outcome::Disproved),
    (ROUND, "[AM](at(1))(x < 10)", Outcome::Disproved),
    (ROUND, "[AM](at(1))(at(0) || x <= 0)", Outcome::Proved),
    (ROUND, "[ER](at(1))(at(0) || x <= 0)", Outcome::Proved),
    (DRAWING, "[EM](at(2))(at(0) || x <= 3)", Outcome::Proved),
    (
        DRAWING,
        "[EM](at(2) && x > 3)(at(0) || x <= 3)",
        Outcome::Disproved,
    ),
    (
        DRAWING,
        "[ER](at(2) && x > 3)(at(0) || x <= 3)",
        Outcome::Proved,
    ),
    (DRAWING, "[AM](at(1))(at(0) || at(1))", Outcome::Proved),
];

/// Locations that are never reached, where no single list of rows at each location shows it.
const SAFE: &[(&str, &str, Outcome)] = &[
    (LOCK, "[AG](!at(bad))", Outcome::Proved),
    (LOCK, "[AG](!at(3) || l == 1)", Outcome::Proved),
    (PHASES, "[AG](!at(bad))", Outcome::Proved),
    (COUNTERS, "[AG](!at(2))", Outcome::Nothing),
];

/// A number that stays in bounds since what takes from it must stop before.
const STOPPING: &[(&str, &str, Outcome)] = &[
    (SPENDING, "x < n || x < 0 || [AG](x >= 0)", Outcome::Proved),
    (
        SPENDING,
        "[AG](x < n || x < 0 || [AG](x >= 0))",
        Outcome::Proved,
    ),
    (BURNING, "f < 0 || h < f || [AG](h >= 0)", Outcome::Proved),
];

#[test]
fn paths_are_settled_by_rounds(rt: HostRuntime) -> Result<(), Fail> {
    for (program, property, wanted) in PATHS {
        let answer = answer_to(rt.alloc(), program, property)?;
        assert_eq!(rt; answer, *wanted, "{property} {program}");
    }
    Ok(())
}

#[test]
fn paths_with_a_number_that_grows_are_settled(rt: HostRuntime) -> Result<(), Fail> {
    for (program, property, wanted) in GROWN {
        let answer = answer_to(rt.alloc(), program, property)?;
        assert_eq!(rt; answer, *wanted, "{property} {program}");
    }
    Ok(())
}

#[test]
fn releases_are_settled_by_rounds(rt: HostRuntime) -> Result<(), Fail> {
    for (program, property, wanted) in RELEASES {
        let answer = answer_to(rt.alloc(), program, property)?;
        assert_eq!(rt; answer, *wanted, "{property} {program}");
    }
    Ok(())
}

#[test]
fn bounds_are_kept_by_what_must_stop(rt: HostRuntime) -> Result<(), Fail> {
    for (program, property, wanted) in STOPPING {
        let answer = answer_to(rt.alloc(), program, property)?;
        assert_eq!(rt; answer, *wanted, "{property} {program}");
    }
    Ok(())
}

#[test]
fn locations_are_safe_by_rounds(rt: HostRuntime) -> Result<(), Fail> {
    for (program, property, wanted) in SAFE {
        let answer = answer_to(rt.alloc(), program, property)?;
        assert_eq!(rt; answer, *wanted, "{property} {program}");
    }
    Ok(())
}
