// Programs, and rows at their locations.

ghost use Rattle.std.specs.Prelude.{◌^◌, ◌-◌, ◌<◌, length};

use std::alloc::Global;
use std::test::Fail;
use tv_candidates::Candidate;
use tv_cases::{Cases, cases};
use tv_linear::Row;
use tv_reader::read_program;

/// Counts from 0 to 5, and is never above.
pub(crate) const COUNTER: &str =
    "START: 0; FROM: 0; x := 0; TO: 1; FROM: 1; assume(x < 5); x := x + 1; TO: 1; FROM: 1; assume(x > 5); TO: 2;";

/// Draws a number above 3 while `x < y`.
pub(crate) const DRAWN: &str =
    "START: 0; FROM: 0; assume(x < y); x := nondet(); assume(x > 3); TO: 0;";

/// A location and a row by its coefficients and its constant.
pub(crate) type Placed = (u32, &'static [i128], i128);

/// The cases of the program in the text.
pub(crate) fn about(alloc: Global, text: &str) -> Result<Cases, Fail> {
    if text.len() > 65536 {
        return Err(Fail::from("a long program"));
    }
    let program = read_program(alloc, text.as_bytes())?;
    match cases(alloc, &program) {
        Ok(about) => Ok(about),
        Err(_) => Err(Fail::from("no cases")),
    }
}

fn candidate(alloc: Global, placed: &Placed) -> Result<Candidate, Fail> {
    if placed.1.len() > 2 {
        return Err(Fail::from("more than two columns"));
    }
    let row = Row::new(alloc, placed.1, placed.2)?.ok_or("wide")?;
    Ok(Candidate {
        location: placed.0,
        row,
    })
}

pub(crate) fn candidates(alloc: Global, list: &[Placed]) -> Result<Vec<Candidate>, Fail> {
    let mut candidates = Vec::new(alloc);
    for placed in list {
        candidates.push(candidate(alloc, placed)?)?;
    }
    Ok(candidates)
}

fn is_placed(candidate: &Candidate, placed: &Placed) -> bool {
    let numbers = candidate.row.coefficients();
    candidate.location == placed.0
        && numbers.len() == placed.1.len()
        && numbers
            .iter()
            .zip(placed.1)
            .all(|(number, wanted)| i128::from(*number) == *wanted)
        && candidate.row.constant() == placed.2
}

/// Whether the candidates are these, in order.
pub(crate) fn are_placed(candidates: &[Candidate], wanted: &[Placed]) -> bool {
    candidates.len() == wanted.len()
        && candidates
            .iter()
            .zip(wanted)
            .all(|(candidate, placed)| is_placed(candidate, placed))
}
