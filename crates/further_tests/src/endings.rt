use crate::saying::{Outcome, answer_to};
use std::test::Fail;

/// Goes towards 0 from either side.
const TOWARDS: &str =
    "START: 0; FROM: 0; assume(x > 0); x := x - 1; TO: 0; FROM: 0; assume(x < 0); x := x + 1; TO: 0;";

/// Which way it counts was drawn.
const CHOSEN: &str =
    "START: 0; FROM: 0; up := nondet(); TO: 1; FROM: 1; assume(up > 0 && x < 9); x := x + 1; TO: 1; FROM: 1; assume(up <= 0 && x > 0); x := x - 1; TO: 1;";

/// Two numbers that come closer, whichever is the greater.
const CLOSER: &str =
    "START: 0; FROM: 0; assume(x - y > 2); y := y + 1; TO: 0; FROM: 0; assume(y - x > 2); x := x + 1; TO: 0;";

/// Counts from 0 until it meets a number, which it would miss from above.
const MEETING: &str =
    "START: 0; FROM: 0; i := 0; TO: 1; FROM: 1; assume(i != n && n >= 0); i := i + 1; TO: 1;";

/// The same where the number may be below 0.
const MISSING: &str =
    "START: 0; FROM: 0; i := 0; TO: 1; FROM: 1; assume(i != n); i := i + 1; TO: 1;";

/// Ends from some states alone.
const HALF: &str =
    "START: 0; FROM: 0; assume(x > 0); x := x - 1; TO: 0; FROM: 0; assume(x < 0); TO: 1; FROM: 1; TO: 1;";

/// Falls by a number that falls.
const FALLING: &str = "START: 0; FROM: 0; assume(x > 0); x := x + y; y := y - 1; TO: 0;";

/// Stays where it is.
const IDLE: &str = "START: 0; FROM: 0; TO: 0;";

/// Goes up without end from above 0.
const RISING: &str = "START: 0; FROM: 0; assume(x > 0); x := x + 1; TO: 0;";

/// A program, a property of it, and what is said.
const ROWS: &[(&str, &str, Outcome)] = &[
    (TOWARDS, "term", Outcome::Proved),
    (CHOSEN, "term", Outcome::Proved),
    (CLOSER, "term", Outcome::Proved),
    (MEETING, "term", Outcome::Proved),
    (MISSING, "term", Outcome::Disproved),
    (HALF, "term", Outcome::Disproved),
    (HALF, "x < 0 || term", Outcome::Proved),
    (HALF, "[AG](at(1) || x < 0 || term)", Outcome::Proved),
    (TOWARDS, "[AG](term)", Outcome::Proved),
    (FALLING, "term", Outcome::Nothing),
];

#[test]
fn runs_end_where_guards_split(rt: HostRuntime) -> Result<(), Fail> {
    for (program, property, wanted) in ROWS {
        let answer = answer_to(rt.alloc(), program, property)?;
        assert_eq!(rt; answer, *wanted, "{property} {program}");
    }
    Ok(())
}

/// The same of runs that never end.
const ENDLESS: &[(&str, &str, Outcome)] = &[
    (IDLE, "!term", Outcome::Proved),
    (IDLE, "[AG]([EX](!term))", Outcome::Proved),
    (RISING, "!term", Outcome::Disproved),
    (RISING, "x <= 0 || !term", Outcome::Proved),
    (HALF, "x >= 0 || !term", Outcome::Proved),
];

#[test]
fn runs_never_end_on_closed_cycles(rt: HostRuntime) -> Result<(), Fail> {
    for (program, property, wanted) in ENDLESS {
        let answer = answer_to(rt.alloc(), program, property)?;
        assert_eq!(rt; answer, *wanted, "{property} {program}");
    }
    Ok(())
}
