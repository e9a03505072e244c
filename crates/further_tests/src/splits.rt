use crate::saying::{Outcome, answer_by_splits};
use std::test::Fail;

/// A counter that turns at 0.
pub(crate) const TURNING: &str =
    "START: 0; FROM: 0; assume(i < 0); i := -i - 1; TO: 0; FROM: 0; assume(i > 0); i := -i + 1; TO: 0;";

/// It swings ever further from 10/3.
pub(crate) const SWINGING: &str = "START: 0; FROM: 0; assume(x >= 0); x := -2*x + 10; TO: 0;";

/// One number falls, and the other turns its sign.
pub(crate) const SIGNS: &str =
    "START: 0; FROM: 0; assume(x + y > 0); x := x - 1; y := -2*y; TO: 0;";

/// No step is taken where x1 is at most 0, which the sum of the guards says.
pub(crate) const SUMMED: &str =
    "START: 0; FROM: 0; assume(x2 <= x1 && x1 + x2 >= 1); x2 := x2 - 2*x1 + 1; TO: 0;";

/// Two phases in one loop, by a flag.
pub(crate) const FLAGGED: &str =
    "START: 0; FROM: 0; f := 0; TO: 1; FROM: 1; assume(f == 0 && x < 10); x := x + 1; TO: 1; FROM: 1; assume(f == 0 && x >= 10); f := 1; TO: 1; FROM: 1; assume(f == 1 && x > 0); x := x - 1; TO: 1;";

/// A loop that first raises a number, and then lowers it.
pub(crate) const UP_AND_DOWN: &str =
    "START: 0; FROM: 0; up := 1; TO: 1; FROM: 1; assume(x >= 0 && x <= n && up == 1); x := x + 1; TO: 2; FROM: 1; assume(x >= 0 && x <= n && up != 1); x := x - 1; TO: 2; FROM: 2; assume(x >= n); up := 0; TO: 1; FROM: 2; assume(x < n); TO: 1;";

/// The greatest common divisor, by subtraction.
pub(crate) const DIVISOR: &str =
    "START: 0; FROM: 0; assume(x > 0 && y > 0); TO: 1; FROM: 1; assume(x > y); x := x - y; TO: 1; FROM: 1; assume(y > x); y := y - x; TO: 1;";

/// A loop that is bounded by what another one leaves.
pub(crate) const LEFT_OVER: &str =
    "START: 0; FROM: 0; y := 0; TO: 1; FROM: 1; assume(x > 0); x := x - 1; y := y + 1; TO: 1; FROM: 1; assume(x <= 0); TO: 2; FROM: 2; assume(y > 0); y := y - 1; TO: 2;";

/// It falls by a number that falls.
pub(crate) const FALLING: &str = "START: 0; FROM: 0; assume(x > 0); x := x + y; y := y - 1; TO: 0;";

/// Five numbers, each of which is raised by the next: more phases than there are splits.
pub(crate) const FIVE_PHASES: &str =
    "START: 0; FROM: 0; assume(x > 0); x := x + y; y := y + z; z := z + w; w := w + v; v := v - 1; TO: 0;";

/// It goes round for ever, after guards that no whole numbers meet together.
pub(crate) const ROUND: &str =
    "START: 0; FROM: 0; assume(2*x == y); assume(2*z + 1 == y); TO: 1; FROM: 1; TO: 1;";

/// It goes up for ever from above 0.
pub(crate) const RISING: &str = "START: 0; FROM: 0; assume(x > 0); x := x + 1; TO: 0;";

/// A program, a property of it, and what is said.
const ROWS: &[(&str, &str, Outcome)] = &[
    (TURNING, "term", Outcome::Proved),
    (SWINGING, "term", Outcome::Proved),
    (SIGNS, "term", Outcome::Proved),
    (SUMMED, "term", Outcome::Proved),
    (FLAGGED, "term", Outcome::Proved),
    (UP_AND_DOWN, "term", Outcome::Proved),
    (DIVISOR, "term", Outcome::Proved),
    (LEFT_OVER, "term", Outcome::Proved),
    (FALLING, "term", Outcome::Proved),
    (FIVE_PHASES, "term", Outcome::Nothing),
    (ROUND, "term", Outcome::Nothing),
    (RISING, "term", Outcome::Nothing),
    (TURNING, "[AG](term)", Outcome::Nothing),
];

#[test]
fn runs_end_where_places_are_split(rt: HostRuntime) -> Result<(), Fail> {
    for (program, property, wanted) in ROWS {
        let answer = answer_by_splits(rt.alloc(), program, property)?;
        assert_eq!(rt; answer, *wanted, "{property} {program}");
    }
    Ok(())
}
