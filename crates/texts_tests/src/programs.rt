use crate::texts::read;
use std::alloc::{AllocError, Global};
use tv_program::Program;
use tv_reader::{ReadFault, What};

fn fault_of(alloc: Global, text: &[u8]) -> Option<ReadFault> {
    match read(alloc, text) {
        Ok(_) => None,
        Err(fault) => Some(fault),
    }
}

/// A number in three letters.
fn letters(number: u32) -> [u8; 3] {
    [
        b'a' + (number / 26 / 26 % 26) as u8,
        b'a' + (number / 26 % 26) as u8,
        b'a' + (number % 26) as u8,
    ]
}

/// Adds a part, with its number in letters for `#`.
fn append_part(text: &mut Vec<u8>, part: &[u8], number: u32) -> Result<(), AllocError> {
    for byte in part {
        if *byte == b'#' {
            text.extend_from_slice(letters(number).as_slice())?;
        } else {
            text.push(*byte)?;
        }
    }
    Ok(())
}

/// A front, the part `times` times, and an end.
pub(crate) fn text_of(
    alloc: Global,
    front: &str,
    part: &str,
    times: u32,
    end: &str,
) -> Result<Vec<u8>, AllocError> {
    let mut text = Vec::from_slice(alloc, front.as_bytes())?;
    for number in 0..times {
        append_part(&mut text, part.as_bytes(), number)?;
    }
    text.extend_from_slice(end.as_bytes())?;
    Ok(text)
}

const FILE: &str = "// nested loops, a branch and a countdown\r
START: 0;\r
CUTPOINT: 1;\r
FROM: 0;\r
AT(0, \"demo.c:3\")\r
n := nondet();\r
i := 0;\r
TO: 1;\r
FROM: 1;\r
AT(1, \"demo.c:4\");\r
assume(i < n);\r
TO: 2;\r
FROM: 2; j := 0; TO: 3;\r
FROM: 3; assume(j < i); TO: 4;\r
FROM: 4; j := j + 1; TO: 5;\r
FROM: 5; TO: 3;\r
FROM: 3; assume(j >= i); TO: 6;\r
FROM: 6; c := nondet(); assume(c > 0); i := i + 1; TO: 7;\r
FROM: 6; /* the other branch */ i := i + 2; TO: 8;\r
FROM: 7; TO: 1;\r
FROM: 8; TO: 1;\r
FROM: 1; assume(i >= n); TO: 9;\r
FROM: 9; k := n; TO: 10;\r
FROM: 10; assume(k > 0); TO: 11;\r
FROM: 11; k := k - 1; TO: 10;\r
FROM: 10; assume(k <= 0); TO: 12;\r
FROM: 12; TO: 13;\r
ERROR: 99;\r
";

fn has_variables(program: &Program) -> bool {
    for (name, number) in [("n", 0), ("i", 1), ("j", 2), ("c", 3), ("k", 4)] {
        if program.variables().find(name.as_bytes()) != Some(number) {
            return false;
        }
    }
    program.variables().len() == 5
}

fn has_locations(program: &Program) -> bool {
    let is_last = program.locations().find(b"13") == Some(13);
    is_last && program.start() == 0 && program.locations().len() == 14
}

fn has_draws(program: &Program) -> bool {
    for (number, draws) in [(0, 1), (1, 0), (7, 1), (16, 0)] {
        match program.edges().get(number) {
            Some(edge) if edge.draws == draws => {}
            _ => return false,
        }
    }
    program.edges().len() == 17
}

fn is_of_the_file(program: &Program) -> bool {
    has_variables(program) && has_locations(program) && has_draws(program)
}

fn is_file_read(alloc: Global) -> bool {
    match read(alloc, FILE.as_bytes()) {
        Ok(program) => is_of_the_file(&program),
        Err(_) => false,
    }
}

#[test]
fn reads_a_file(rt: HostRuntime) {
    assert!(rt; is_file_read(rt.alloc()));
}

fn has_labels(program: &Program) -> bool {
    for (label, number) in [("c", 0), ("a", 1), ("b", 2)] {
        if program.locations().find(label.as_bytes()) != Some(number) {
            return false;
        }
    }
    true
}

fn goes_around(program: &Program) -> bool {
    match program.edges() {
        [first, second] => {
            (first.from, first.to) == (1, 2) && (second.from, second.to) == (2, 0)
        }
        _ => false,
    }
}

fn is_start_first(alloc: Global) -> bool {
    let text = b"FROM: a; x := 1; TO: b; FROM: b; TO: c; START: c;".as_slice();
    match read(alloc, text) {
        Ok(program) => has_labels(&program) && goes_around(&program),
        Err(_) => false,
    }
}

// START stands last, and its label is number 0.
#[test]
fn numbers_the_start_first(rt: HostRuntime) {
    assert!(rt; is_start_first(rt.alloc()));
}

// A text and its first fault.
const FAULTS: &[(&str, Option<ReadFault>)] = &[
    ("START: 0;", None),
    (
        "START: 0; START: 0",
        Some(ReadFault::TwoStarts {
            line: 1,
            column: 11,
        }),
    ),
    ("START 0;", Some(ReadFault::Syntax { line: 1, column: 7 })),
    ("", Some(ReadFault::NoStart)),
    ("FROM: 0; TO: 0;", Some(ReadFault::NoStart)),
    (
        "START: 0; FROM: 0; assume(x",
        Some(ReadFault::Syntax {
            line: 1,
            column: 28,
        }),
    ),
    (
        "START: 0; FROM: 0; TO: 1; FROM: 1; assume(x > 0); x := x * y; TO: 1;",
        Some(ReadFault::NotLinear {
            line: 1,
            column: 60,
        }),
    ),
    (
        "START: 0; FROM: 0; assume(x > 4611686018427387904); TO: 0;",
        Some(ReadFault::Wide {
            line: 1,
            column: 31,
        }),
    ),
    (
        "START: 4611686018427387904;",
        Some(ReadFault::Wide { line: 1, column: 8 }),
    ),
    (
        "START 4611686018427387904;",
        Some(ReadFault::Syntax { line: 1, column: 7 }),
    ),
    (
        "START: 0;\nSTART: 0;",
        Some(ReadFault::TwoStarts { line: 2, column: 1 }),
    ),
    (
        "START: 0;\r\nFROM 0; ?",
        Some(ReadFault::Syntax { line: 2, column: 6 }),
    ),
    (
        "START: 0; ; ",
        Some(ReadFault::Syntax {
            line: 1,
            column: 11,
        }),
    ),
    ("START: 0; AT(1); ERROR: ; AT(2)", None),
    (
        "START: 0; /* open",
        Some(ReadFault::Syntax {
            line: 1,
            column: 11,
        }),
    ),
    (
        "START: 0; FROM: 0; x := 1; TO: 1",
        Some(ReadFault::Syntax {
            line: 1,
            column: 33,
        }),
    ),
    (
        "START: 0; FROM: 0; TO: 1; TO: 2;",
        Some(ReadFault::Syntax {
            line: 1,
            column: 27,
        }),
    ),
    ("START: TO;", Some(ReadFault::Syntax { line: 1, column: 8 })),
    (
        "START: 0; FROM: 0; true := 1; TO: 1;",
        Some(ReadFault::Syntax {
            line: 1,
            column: 20,
        }),
    ),
];

#[test]
fn tells_the_first_fault(rt: HostRuntime) {
    for (text, fault) in FAULTS {
        assert!(rt; fault_of(rt.alloc(), text.as_bytes()) == *fault, "{text:?}");
    }
}

/// The fault of a text with the part `times` times.
fn fault_at(
    alloc: Global,
    front: &str,
    part: &str,
    times: u32,
    end: &str,
) -> Result<Option<ReadFault>, AllocError> {
    let text = text_of(alloc, front, part, times, end)?;
    Ok(fault_of(alloc, &text))
}

// A front, what is repeated and how often at most, an end, and the fault of one more.
const LIMITS: [(&str, &str, u32, &str, What, u32); 4] = [
    (
        "START: 0; FROM: 0; ",
        "#:=0;",
        512,
        "TO: 0;",
        What::Variables,
        20 + 512 * 7,
    ),
    (
        "",
        "FROM:#;TO:0;",
        1022,
        "START: z; ",
        What::Locations,
        8 + 1023 * 14,
    ),
    (
        "START: 0; ",
        "FROM:0;TO:0;",
        4096,
        "",
        What::Edges,
        11 + 4096 * 12,
    ),
    (
        "START: 0; FROM: 0; ",
        "x:=nondet();",
        64,
        "TO: 0;",
        What::Draws,
        23 + 64 * 12,
    ),
];

#[test]
fn keeps_the_limits(rt: HostRuntime) {
    for (front, part, most, end, _, _) in LIMITS {
        let fault = fault_at(rt.alloc(), front, part, most, end);
        assert!(rt; fault == Ok(None), "{front} {part}");
    }
}

#[test]
fn tells_where_a_limit_is_passed(rt: HostRuntime) {
    for (front, part, most, end, what, column) in LIMITS {
        let line = 1;
        let wanted = ReadFault::TooMany { what, line, column };
        let fault = fault_at(rt.alloc(), front, part, most + 1, end);
        assert!(rt; fault == Ok(Some(wanted)), "{front} {part}");
    }
}

fn begins_no_token(byte: u8) -> bool {
    !byte.is_ascii_alphanumeric() && !b" \t\r\n\x0c_:;()[]+-*<>!".contains(&byte)
}

/// The fault of a text with this byte after a START.
fn fault_behind(alloc: Global, byte: u8) -> Result<Option<ReadFault>, AllocError> {
    let mut text = b"START: 0;\n ".as_slice().to_vec(alloc)?;
    text.push(byte)?;
    Ok(fault_of(alloc, &text))
}

// Each byte that no token can hold, after a START.
#[test]
fn refuses_bytes_that_no_token_holds(rt: HostRuntime) {
    for byte in 0..=255u8 {
        if begins_no_token(byte) {
            let fault = ReadFault::Syntax { line: 2, column: 2 };
            assert!(rt; fault_behind(rt.alloc(), byte) == Ok(Some(fault)), "{byte}");
        }
    }
}
