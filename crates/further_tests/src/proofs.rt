use crate::saying::{Outcome, answer_to};
use std::test::Fail;

/// Counts down, and then goes round.
const ROUND: &str =
    "START: 0; FROM: 0; assume(x > 0); x := x - 1; TO: 0; FROM: 0; assume(x <= 0); TO: 1; FROM: 1; TO: 1;";

/// A loop that another loop feeds.
const FED: &str =
    "START: 0; FROM: 0; assume(x > 0); x := x - 1; y := nondet(); TO: 1; FROM: 1; assume(y > 0); y := y - 1; TO: 1; FROM: 1; assume(y <= 0); TO: 0; FROM: 0; assume(x <= 0); TO: 2; FROM: 2; TO: 2;";

/// A server with a counter of work.
const SERVER: &str =
    "START: idle; FROM: idle; w := nondet(); TO: work; FROM: work; assume(w > 0); w := w - 1; TO: work; FROM: work; assume(w <= 0); TO: idle;";

/// Goes on in a region, and may leave it upwards.
const KEPT: &str =
    "START: 0; FROM: 0; x := x + 1; TO: 0; FROM: 0; assume(x > 10); TO: 1; FROM: 1; TO: 1;";

/// A program, a property of it, and what is said.
const ROWS: &[(&str, &str, Outcome)] = &[
    (ROUND, "[AF](x <= 0)", Outcome::Proved),
    (ROUND, "[AF](at(1))", Outcome::Proved),
    (ROUND, "[AG]([AF](at(1)))", Outcome::Proved),
    (ROUND, "[AG](x > 0 || [AF](at(1)))", Outcome::Proved),
    (ROUND, "[AX](at(0) || at(1))", Outcome::Proved),
    (ROUND, "[AG](at(0) || [AG](at(1)))", Outcome::Proved),
    (FED, "[AF](at(2))", Outcome::Proved),
    (FED, "[AF](at(2) && x <= 0)", Outcome::Proved),
    (FED, "[AF]([AG](at(2)))", Outcome::Proved),
    (SERVER, "[AG]([AF](at(idle)))", Outcome::Proved),
    (SERVER, "[AG](at(idle) || [AF](w <= 0))", Outcome::Proved),
    (KEPT, "[AF](x > 10)", Outcome::Proved),
    (KEPT, "[AF](at(1))", Outcome::Disproved),
    (KEPT, "[AG](x < 0 || [AG](x >= 0))", Outcome::Proved),
    (KEPT, "[EF](x > 5)", Outcome::Proved),
];

#[test]
fn properties_hold_by_ranks(rt: HostRuntime) -> Result<(), Fail> {
    for (program, property, wanted) in ROWS {
        let answer = answer_to(rt.alloc(), program, property)?;
        assert_eq!(rt; answer, *wanted, "{property} {program}");
    }
    Ok(())
}
