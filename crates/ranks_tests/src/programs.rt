use std::alloc::{AllocError, Global};
use std::test::Fail;
use tv_cases::{Cases, cases};
use tv_program::Program;
use tv_reader::read_program;

pub(crate) const COUNTDOWN: &str =
    "START: 0; FROM: 0; TO: 1; FROM: 1; assume(x > 0); x := x - 1; TO: 1;";

pub(crate) const EMPTY: &str = "START: 0;";

pub(crate) const DRAWN_COUNTDOWN: &str =
    "START: 0; FROM: 0; x := nondet(); TO: 1; FROM: 1; assume(x > 0); x := x - 1; TO: 1;";

pub(crate) const DRAWN_FALL: &str =
    "START: 0; FROM: 0; assume(x > 0); y := nondet(); assume(y < x); x := y; TO: 0;";

pub(crate) const NESTED: &str =
    "START: 0; FROM: 0; assume(x > 0); x := x - 1; y := nondet(); TO: 0; FROM: 0; assume(y > 0); y := y - 1; TO: 0;";

pub(crate) const CLIMBER: &str =
    "START: 0; FROM: 0; TO: 1; FROM: 1; assume(x > 0); x := x + 1; TO: 1;";

pub(crate) const IDLE: &str = "START: 0; FROM: 0; TO: 0;";

pub(crate) const FALLING_SUM: &str =
    "START: 0; FROM: 0; assume(x > 0); x := x + y; y := y - 1; TO: 0;";

/// With a product of 2^41.
pub(crate) const WIDE: &str =
    "START: 0; FROM: 0; assume(x > 0); assume(2199023255552*x > y); x := x - 1; TO: 0;";

/// Nested loops, a branch and a countdown, as a translator of programs writes them; its lines end with LF here.
pub(crate) const FILE: &str = "// nested loops, a branch and a countdown
START: 0;
CUTPOINT: 1;
FROM: 0;
AT(0, \"demo.c:3\")
n := nondet();
i := 0;
TO: 1;
FROM: 1;
AT(1, \"demo.c:4\");
assume(i < n);
TO: 2;
FROM: 2; j := 0; TO: 3;
FROM: 3; assume(j < i); TO: 4;
FROM: 4; j := j + 1; TO: 5;
FROM: 5; TO: 3;
FROM: 3; assume(j >= i); TO: 6;
FROM: 6; c := nondet(); assume(c > 0); i := i + 1; TO: 7;
FROM: 6; /* the other branch */ i := i + 2; TO: 8;
FROM: 7; TO: 1;
FROM: 8; TO: 1;
FROM: 1; assume(i >= n); TO: 9;
FROM: 9; k := n; TO: 10;
FROM: 10; assume(k > 0); TO: 11;
FROM: 11; k := k - 1; TO: 10;
FROM: 10; assume(k <= 0); TO: 12;
FROM: 12; TO: 13;
ERROR: 99;
";

/// The text with CR and LF at the end of each line.
fn with_cr(alloc: Global, text: &str) -> Result<Vec<u8>, AllocError> {
    let mut bytes = Vec::new(alloc);
    for byte in text.as_bytes() {
        if *byte == b'\n' {
            bytes.push(b'\r')?;
        }
        bytes.push(*byte)?;
    }
    Ok(bytes)
}

/// The program in the text, whose lines end with CR and LF.
pub(crate) fn program_of(alloc: Global, text: &str) -> Result<Program, Fail> {
    let bytes = with_cr(alloc, text)?;
    let bytes: &[u8] = &bytes;
    if bytes.len() > 1048576 {
        return Err(Fail::from("a long program"));
    }
    let program = read_program(alloc, bytes)?;
    Ok(program)
}

/// The cases of the program in the text.
pub(crate) fn about_of(alloc: Global, text: &str) -> Result<Cases, Fail> {
    let program = program_of(alloc, text)?;
    match cases(alloc, &program) {
        Ok(about) => Ok(about),
        Err(_) => Err(Fail::from("no cases")),
    }
}
