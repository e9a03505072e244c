use crate::saying::{Outcome, answer_by_splits};
use crate::splits::{
    DIVISOR, FALLING, FIVE_PHASES, FLAGGED, LEFT_OVER, RISING, ROUND, SIGNS, SUMMED, SWINGING,
    TURNING, UP_AND_DOWN,
};
use std::alloc::Global;
use std::test::Fail;

/// It falls by 1 over each two steps, and grows in between.
const TURNING_SUM: &str = "START: 0; FROM: 0; assume(x > 0); x := x + y; y := 0 - y - 1; TO: 0;";

/// It goes to 0 from both sides.
const TOWARDS: &str =
    "START: 0; FROM: 0; assume(x > 0); x := x - 1; TO: 0; FROM: 0; assume(x < 0); x := x + 1; TO: 0;";

/// The programs whose runs all end.
const ENDING: &[&str] = &[
    TURNING,
    SWINGING,
    SIGNS,
    SUMMED,
    FLAGGED,
    UP_AND_DOWN,
    DIVISOR,
    LEFT_OVER,
    FALLING,
    TURNING_SUM,
    TOWARDS,
];

/// Programs of which the search cannot tell whether their runs end, or some of whose runs do not.
const OTHERS: &[&str] = &[FIVE_PHASES, ROUND, RISING];

/// The first of the programs of whose property something else is said.
fn first_other(
    alloc: Global,
    programs: &[&'static str],
    property: &str,
    wanted: Outcome,
) -> Result<Option<&'static str>, Fail> {
    for program in programs {
        if answer_by_splits(alloc, program, property)? != wanted {
            return Ok(Some(*program));
        }
    }
    Ok(None)
}

#[test]
fn false_beside_termination_is_left_out(rt: HostRuntime) -> Result<(), Fail> {
    let other = first_other(rt.alloc(), ENDING, "term || false", Outcome::Proved)?;
    assert_eq!(rt; other, None, "not proved");
    Ok(())
}

#[test]
fn true_beside_termination_is_left_out(rt: HostRuntime) -> Result<(), Fail> {
    let other = first_other(rt.alloc(), ENDING, "term && true", Outcome::Proved)?;
    assert_eq!(rt; other, None, "not proved");
    Ok(())
}

#[test]
fn runs_come_to_where_no_step_is_possible(rt: HostRuntime) -> Result<(), Fail> {
    let other = first_other(rt.alloc(), ENDING, "[AF]([AX](false))", Outcome::Proved)?;
    assert_eq!(rt; other, None, "not proved");
    Ok(())
}

#[test]
fn no_other_runs_come_there(rt: HostRuntime) -> Result<(), Fail> {
    let other = first_other(rt.alloc(), OTHERS, "[AF]([AX](false))", Outcome::Nothing)?;
    assert_eq!(rt; other, None, "proved");
    Ok(())
}

#[test]
fn false_beside_other_runs_changes_nothing(rt: HostRuntime) -> Result<(), Fail> {
    let other = first_other(rt.alloc(), OTHERS, "term || false", Outcome::Nothing)?;
    assert_eq!(rt; other, None, "proved");
    Ok(())
}

#[test]
fn true_beside_other_runs_changes_nothing(rt: HostRuntime) -> Result<(), Fail> {
    let other = first_other(rt.alloc(), OTHERS, "term && true", Outcome::Nothing)?;
    assert_eq!(rt; other, None, "proved");
    Ok(())
}

/// It falls by a number that falls, and then goes on.
const FALLING_ON: &str =
    "START: 0; FROM: 0; assume(x > 0); x := x + y; y := y - 1; TO: 0; FROM: 0; assume(x <= 0); TO: 1;";

/// The same, and it goes round for ever then.
const FALLING_ROUND: &str =
    "START: 0; FROM: 0; assume(x > 0); x := x + y; y := y - 1; TO: 0; FROM: 0; assume(x <= 0); TO: 1; FROM: 1; TO: 1;";

/// It rises under a flag, and falls then, and goes round for ever at 0.
const FLAGGED_ROUND: &str =
    "START: 0; FROM: 0; f := 0; TO: 1; FROM: 1; assume(f == 0 && x < 10); x := x + 1; TO: 1; FROM: 1; assume(f == 0 && x >= 10); f := 1; TO: 1; FROM: 1; assume(f == 1 && x > 0); x := x - 1; TO: 1; FROM: 1; assume(f == 1 && x <= 0); TO: 1;";

/// The same, with a number drawn in each turn.
const FALLING_DRAWN: &str =
    "START: 0; FROM: 0; assume(x > 0); x := x + y; y := y - 1; TO: 2; FROM: 2; d := nondet(); assume(d > x); TO: 0; FROM: 0; assume(x <= 0); TO: 1; FROM: 1; TO: 1;";

/// A program, a property of it, and what is said.
const ROWS: &[(&str, &str, Outcome)] = &[
    (FALLING_ON, "[AF](x <= 0)", Outcome::Proved),
    (FALLING_ON, "[AF](at(1))", Outcome::Proved),
    (
        FALLING_ON,
        "[AF](at(1) && x <= 0) || false",
        Outcome::Proved,
    ),
    (FALLING_ON, "[AF](!at(0) || x < 1) && true", Outcome::Proved),
    (FALLING_ON, "[AF](x <= 0 || [AX](false))", Outcome::Proved),
    (FALLING_ON, "[AF]([AX](false) && true)", Outcome::Proved),
    (FALLING_ON, "[AF](at(1) && [AX](false))", Outcome::Proved),
    (FALLING_ON, "[AF](x > 0)", Outcome::Nothing),
    (FALLING_ON, "[AF](at(0) && [AX](false))", Outcome::Nothing),
    (FALLING_ROUND, "[AF](x <= 0)", Outcome::Proved),
    (FALLING_ROUND, "[AF](at(1))", Outcome::Proved),
    (FALLING_ROUND, "[AF]([AX](false))", Outcome::Nothing),
    (FALLING_ROUND, "term", Outcome::Nothing),
    (FALLING_DRAWN, "[AF](x <= 0)", Outcome::Proved),
    (FLAGGED_ROUND, "[AF](f == 1 && x <= 0)", Outcome::Proved),
    (RISING, "[AF](x <= 0)", Outcome::Nothing),
];

#[test]
fn more_phases_than_splits_come_nowhere(rt: HostRuntime) -> Result<(), Fail> {
    let other = first_other(rt.alloc(), &[FIVE_PHASES], "[AF](x <= 0)", Outcome::Nothing)?;
    assert_eq!(rt; other, None, "proved");
    Ok(())
}

#[test]
fn runs_come_to_where_a_formula_holds(rt: HostRuntime) -> Result<(), Fail> {
    for (program, property, wanted) in ROWS {
        let answer = answer_by_splits(rt.alloc(), program, property)?;
        assert_eq!(rt; answer, *wanted, "{property} {program}");
    }
    Ok(())
}
