use std::alloc::Global;
use std::test::Fail;
use tv_cases::{Cases, cases};
use tv_program::Program;
use tv_reader::read_program;

/// No step, and no variable.
pub(crate) const EMPTY: &str = "START: 0;";

/// Counts down to 0 and stops.
pub(crate) const LOOP: &str = "START: 0; FROM: 0; assume(x > 0); x := x - 1; TO: 0;";

/// Counts down where x is not 0, and has no ranking where it is below.
pub(crate) const BOTH_WAYS: &str = "START: 0; FROM: 0; assume(x != 0); x := x - 1; TO: 0;";

/// Goes on by steps of 1 for ever.
pub(crate) const CLIMBER: &str = "START: 0; FROM: 0; assume(x > 0); x := x + 1; TO: 0;";

/// Counts down beside numbers that stay.
pub(crate) const BESIDE: &str =
    "START: 0; FROM: 0; assume(x > 0); x := x - 1; y := y; z := z; w := w; TO: 0;";

/// Counts down for ever, beside a number that stays.
pub(crate) const FALLING: &str = "START: 0; FROM: 0; x := x - 1; y := y; TO: 0;";

/// Counts down for ever, or goes from 10 or more to where it idles for ever.
pub(crate) const RESTING: &str =
    "START: 0; FROM: 0; x := x - 1; TO: 0; FROM: 0; assume(x >= 10); TO: 1; FROM: 1; x := x; TO: 1;";

/// One step that changes nothing.
pub(crate) const STEP: &str = "START: 0; FROM: 0; x := x; TO: 1;";

/// Two steps at most, the second of them only where x is above 0.
pub(crate) const CHAIN: &str =
    "START: 0; FROM: 0; TO: 1; FROM: 1; assume(x > 0); x := x - 1; TO: 2;";

/// Draws a number and counts down from it.
pub(crate) const DRAWN: &str =
    "START: 0; FROM: 0; x := nondet(); TO: 1; FROM: 1; assume(x > 0); x := x - 1; TO: 1;";

/// Draws half of a number, if there is one.
pub(crate) const HALF: &str = "START: 0; FROM: 0; y := nondet(); assume(2*y == x); TO: 1;";

/// Draws a number beside one that stays, and then counts another one down.
pub(crate) const DRAWN_BESIDE: &str =
    "START: 0; FROM: 0; y := y; x := nondet(); TO: 1; FROM: 1; assume(z > 0); z := z - 1; TO: 1;";

/// Idles for ever.
pub(crate) const IDLE: &str = "START: 0; FROM: 0; x := x; TO: 0;";

/// Idles, or goes to where nothing steps.
pub(crate) const LEAVING: &str = "START: 0; FROM: 0; x := x; TO: 0; FROM: 0; TO: 1;";

/// Draws half of a number as long as there is one, which is for ever or never.
pub(crate) const HALVES: &str = "START: 0; FROM: 0; y := nondet(); assume(2*y == x); TO: 0;";

/// Draws a number and goes on for ever where it is above 0.
pub(crate) const DRAWS: &str =
    "START: 0; FROM: 0; x := nondet(); TO: 1; FROM: 1; assume(x > 0); TO: 1;";

/// The program in the text.
pub(crate) fn program_of(alloc: Global, text: &str) -> Result<Program, Fail> {
    if text.len() > 65536 {
        return Err(Fail::from("a long program"));
    }
    let program = read_program(alloc, text.as_bytes())?;
    Ok(program)
}

/// The cases of the program in the text.
pub(crate) fn about_of(alloc: Global, text: &str) -> Result<Cases, Fail> {
    let program = program_of(alloc, text)?;
    match cases(alloc, &program) {
        Ok(about) => Ok(about),
        Err(_) => Err(Fail::from("no cases")),
    }
}
