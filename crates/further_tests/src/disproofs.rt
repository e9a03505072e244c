use crate::saying::{Outcome, answer_to};
use std::test::Fail;

/// The step is not bounded.
const UNBOUNDED: &str = "START: 0; FROM: 0; assume(x > 0); x := x + y; TO: 0;";

/// It passes 0 from an odd number.
const ODD: &str = "START: 0; FROM: 0; assume(x != 0); x := x - 2; TO: 0;";

/// It doubles, or begins again.
const DOUBLING: &str =
    "START: 0; FROM: 0; assume(x > 0); assume(x < 50); x := x + x; TO: 0; FROM: 0; assume(x >= 50); x := 1; TO: 0;";

/// Two locations hand a token back and forth.
const TOKENS: &str =
    "START: 0; FROM: 0; n := n + 1; TO: 1; FROM: 1; assume(n > 0); TO: 0; FROM: 1; assume(n <= 0); TO: 2;";

/// A draw may keep the loop alive.
const DRAWN: &str = "START: 0; FROM: 0; assume(x > 0); x := nondet(); TO: 0;";

/// A draw between two numbers may keep the loop alive.
const DRAWN_BETWEEN: &str =
    "START: 0; FROM: 0; assume(x > 3); y := nondet(); assume(y >= 0); assume(y <= 1); x := x - y; TO: 0;";

/// Comes to location 2 after twelve steps.
const TWELVE: &str =
    "START: 0; FROM: 0; x := 0; TO: 1; FROM: 1; assume(x < 10); x := x + 1; TO: 1; FROM: 1; assume(x >= 10); TO: 2;";

/// Comes to location 2 after forty steps.
const FORTY: &str =
    "START: 0; FROM: 0; x := 0; TO: 1; FROM: 1; assume(x < 38); x := x + 1; TO: 1; FROM: 1; assume(x >= 38); TO: 2;";

/// Comes to location 2 after sixty steps.
const SIXTY: &str =
    "START: 0; FROM: 0; x := 0; TO: 1; FROM: 1; assume(x < 58); x := x + 1; TO: 1; FROM: 1; assume(x >= 58); TO: 2;";

/// A server that may stop for ever.
const SERVER: &str =
    "START: idle; FROM: idle; w := 3; TO: work; FROM: work; assume(w > 0); w := w - 1; TO: work; FROM: work; assume(w <= 0); TO: idle; FROM: idle; TO: stopped;";

/// Counts down, and then goes round.
const ROUND: &str =
    "START: 0; FROM: 0; assume(x > 0); x := x - 1; TO: 0; FROM: 0; assume(x <= 0); TO: 1; FROM: 1; TO: 1;";

/// A counter grows for ever, and may go to another location.
const GROWING: &str =
    "START: 0; FROM: 0; assume(x > 0); x := x + 1; TO: 1; FROM: 1; TO: 0; FROM: 1; assume(y > 5); TO: 2; FROM: 2; TO: 2;";

/// A request may wait for ever while the clock goes on.
const WAITING: &str =
    "START: 0; FROM: 0; t := 0; TO: 1; FROM: 1; t := t + 1; TO: 1; FROM: 1; assume(t > 3); TO: 2; FROM: 2; t := 0; TO: 1;";

/// Branches many times before the bad location.
const BRANCHING: &str =
    "START: 0; FROM: 0; x := 0; y := 0; TO: 1; FROM: 1; assume(x + y < 60); x := x + 1; TO: 1; FROM: 1; assume(x + y < 60); y := y + 1; TO: 1; FROM: 1; assume(x + y >= 60); TO: 2;";

/// Only from one state at the start.
const FAR: &str =
    "START: 0; FROM: 0; assume(x > 1000); assume(y == x + 77); TO: 1; FROM: 1; TO: 1;";

/// A program, a property of it, and what is said.
const ROWS: &[(&str, &str, Outcome)] = &[
    (UNBOUNDED, "term", Outcome::Disproved),
    (UNBOUNDED, "[AF](x <= 0)", Outcome::Disproved),
    (ODD, "term", Outcome::Disproved),
    (DOUBLING, "term", Outcome::Disproved),
    (TOKENS, "term", Outcome::Disproved),
    (DRAWN, "term", Outcome::Disproved),
    (DRAWN_BETWEEN, "term", Outcome::Disproved),
    (TWELVE, "[AG](!at(2))", Outcome::Disproved),
    (FORTY, "[AG](!at(2))", Outcome::Disproved),
    (SIXTY, "[AG](!at(2))", Outcome::Disproved),
    (SERVER, "[AG]([EF](at(work)))", Outcome::Disproved),
    (SERVER, "[AG]([AF](at(idle)))", Outcome::Disproved),
    (SERVER, "[AF](at(stopped))", Outcome::Disproved),
    (SERVER, "[EG](at(idle))", Outcome::Disproved),
    (SERVER, "[EG](!at(stopped))", Outcome::Proved),
    (SERVER, "[AX](at(work))", Outcome::Disproved),
    (SERVER, "[EX](at(idle))", Outcome::Disproved),
    (ROUND, "[EF](x > 0)", Outcome::Disproved),
    (ROUND, "[EG](x > 0)", Outcome::Disproved),
    (ROUND, "[AF](at(0) && x < 0)", Outcome::Disproved),
    (ROUND, "[AX](at(0)) || [AX](at(1))", Outcome::Proved),
    (ROUND, "[AX](at(1) || x > 5)", Outcome::Disproved),
    (ROUND, "[AW](at(0))(x > 0)", Outcome::Disproved),
    (ROUND, "[ER](at(1))(x < 1)", Outcome::Disproved),
    (ROUND, "[EM](x == 1)(x < 3)", Outcome::Disproved),
];

/// The same, where graphs of single states do not do.
const FAR_ROWS: &[(&str, &str, Outcome)] = &[
    (GROWING, "term", Outcome::Disproved),
    (GROWING, "[AF](at(2))", Outcome::Disproved),
    (GROWING, "[AF](x <= 0)", Outcome::Disproved),
    (GROWING, "[AG]([AF](at(2)))", Outcome::Disproved),
    (GROWING, "[AG](x <= 0 || [AF](y > 100))", Outcome::Disproved),
    (WAITING, "[AG]([AF](at(2)))", Outcome::Disproved),
    (WAITING, "[AG]([AF](t == 0))", Outcome::Disproved),
    (
        WAITING,
        "[AG](at(0) || [AF](at(2) || t < 3))",
        Outcome::Disproved,
    ),
    (WAITING, "[AG](t < 40)", Outcome::Disproved),
    (BRANCHING, "[AG](!at(2))", Outcome::Disproved),
    (FAR, "term", Outcome::Disproved),
    (FAR, "[AG](!at(1))", Outcome::Disproved),
];

#[test]
fn properties_fail_on_graphs(rt: HostRuntime) -> Result<(), Fail> {
    for (program, property, wanted) in ROWS {
        let answer = answer_to(rt.alloc(), program, property)?;
        assert_eq!(rt; answer, *wanted, "{property} {program}");
    }
    Ok(())
}

#[test]
fn properties_fail_far_from_the_start(rt: HostRuntime) -> Result<(), Fail> {
    for (program, property, wanted) in FAR_ROWS {
        let answer = answer_to(rt.alloc(), program, property)?;
        assert_eq!(rt; answer, *wanted, "{property} {program}");
    }
    Ok(())
}
