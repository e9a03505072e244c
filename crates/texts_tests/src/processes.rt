use crate::programs::text_of;
use std::alloc::{AllocError, Global};
use tv_interleave::{InterFault, Processes, has_process, product, read_processes};
use tv_language::{Token, scan};
use tv_program::{Names, Program};
use tv_reader::{ReadFault, What};

fn tokens_of(alloc: Global, text: &[u8]) -> Result<Vec<Token>, InterFault> {
    if text.len() >= 4294967295 {
        return Err(InterFault::Memory);
    }
    match scan(alloc, text) {
        Ok(list) => Ok(list),
        Err(_) => Err(InterFault::Memory),
    }
}

fn processes_of(alloc: Global, text: &[u8]) -> Result<Processes, InterFault> {
    if text.len() >= 4294967295 {
        return Err(InterFault::Memory);
    }
    match scan(alloc, text) {
        Ok(list) => read_processes(alloc, text, &list),
        Err(_) => Err(InterFault::Memory),
    }
}

fn product_of(alloc: Global, text: &[u8]) -> Result<Program, InterFault> {
    match processes_of(alloc, text) {
        Ok(processes) => product(alloc, &processes),
        Err(fault) => Err(fault),
    }
}

fn fault_of(alloc: Global, text: &[u8]) -> Option<InterFault> {
    match product_of(alloc, text) {
        Ok(_) => None,
        Err(fault) => Some(fault),
    }
}

fn finds_processes(alloc: Global, text: &str) -> bool {
    match tokens_of(alloc, text.as_bytes()) {
        Ok(list) => has_process(&list),
        Err(_) => false,
    }
}

#[test]
fn knows_texts_of_processes(rt: HostRuntime) {
    let alloc = rt.alloc();
    assert!(rt; finds_processes(alloc, "PROCESS: a; START: 0;"));
    assert!(rt; finds_processes(alloc, "START: 0; PROCESS"));
    assert!(rt;
        !finds_processes(
            alloc,
            "START: 0; // PROCESS: a;\nFROM: 0; PROCESSES := 1; TO: 0;"
        )
    );
    assert!(rt; !finds_processes(alloc, ""));
}

/// Whether the names are these, in this order.
fn are(names: &Names, wanted: &[&str]) -> bool {
    for number in 0..names.len() {
        match wanted.get(number as usize) {
            Some(word) if names.text(number) == word.as_bytes() => {}
            _ => return false,
        }
    }
    names.len() as usize == wanted.len()
}

// Two that read a number, and then write one more: t := x, x := t + 1 beside u := x, x := u + 1.
const UPDATES: &str = "PROCESS: a; START: 0; FROM: 0; t := x; TO: 1; FROM: 1; x := t + 1; TO: 2;
PROCESS: b; START: 0; FROM: 0; u := x; TO: 1; FROM: 1; x := u + 1; TO: 2;";

fn has_parts(alloc: Global) -> bool {
    match processes_of(alloc, UPDATES.as_bytes()) {
        Ok(processes) => match processes.programs() {
            [first, second] => {
                are(first.variables(), &["t", "x"]) && are(second.variables(), &["u", "x"])
            }
            _ => false,
        },
        Err(_) => false,
    }
}

#[test]
fn reads_each_process(rt: HostRuntime) {
    assert!(rt; has_parts(rt.alloc()));
}

const TUPLES: [&str; 9] = [
    "_0.0", "_0.1", "_0.2", "_1.0", "_1.1", "_1.2", "_2.0", "_2.1", "_2.2",
];

// The first edge of a leaves 0 beside each location of b, then the second edge does; the edges of b follow.
const ENDS: [(u32, u32); 12] = [
    (0, 3),
    (1, 4),
    (2, 5),
    (3, 6),
    (4, 7),
    (5, 8),
    (0, 1),
    (3, 4),
    (6, 7),
    (1, 2),
    (4, 5),
    (7, 8),
];

fn has_ends(program: &Program) -> bool {
    for number in 0..ENDS.len() {
        let (from, to) = ENDS[number];
        match program.edges().get(number) {
            Some(edge) if edge.from == from && edge.to == to => {}
            _ => return false,
        }
    }
    program.edges().len() == ENDS.len()
}

fn is_multiplied(alloc: Global) -> bool {
    match product_of(alloc, UPDATES.as_bytes()) {
        Ok(program) => {
            let is_named = are(program.variables(), &["t", "x", "u"]);
            let is_placed = are(program.locations(), &TUPLES);
            is_named && is_placed && program.start() == 0 && has_ends(&program)
        }
        Err(_) => false,
    }
}

#[test]
fn multiplies_two_processes(rt: HostRuntime) {
    assert!(rt; is_multiplied(rt.alloc()));
}

// A text and its first fault.
const FAULTS: &[(&str, Option<InterFault>)] = &[
    ("PROCESS: a; START: 0;", None),
    // The label of a heading may have a dot, and two may be the same.
    ("PROCESS: a.b; START: 0; PROCESS: a.b; START: 0;", None),
    ("START: 0;", Some(InterFault::Syntax { line: 1, column: 1 })),
    (
        "START: 0;\nPROCESS: a; START: 0;",
        Some(InterFault::Syntax { line: 1, column: 1 }),
    ),
    ("", Some(InterFault::Syntax { line: 1, column: 1 })),
    (
        "PROCESS: a; START: 0;\nPROCESS b; START: 0;",
        Some(InterFault::Syntax { line: 2, column: 9 }),
    ),
    (
        "PROCESS: a; START: 0; PROCESS: b",
        Some(InterFault::Syntax {
            line: 1,
            column: 33,
        }),
    ),
    (
        "PROCESS: TO; START: 0;",
        Some(InterFault::Syntax {
            line: 1,
            column: 10,
        }),
    ),
    // All headings come before the count of them, and that before each part.
    (
        "PROCESS: a; PROCESS: a; PROCESS: a; PROCESS: a; PROCESS: a; PROCESS: a; PROCESS: a; PROCESS: a; PROCESS: a;",
        Some(InterFault::Processes { count: 9 }),
    ),
    (
        "PROCESS: a; PROCESS: b; START: 0;",
        Some(InterFault::Part {
            part: 0,
            fault: ReadFault::NoStart,
        }),
    ),
    (
        "PROCESS: a; START: p.q;\nPROCESS: b; START: 0; START: 0;",
        Some(InterFault::Part {
            part: 1,
            fault: ReadFault::TwoStarts {
                line: 2,
                column: 23,
            },
        }),
    ),
    // A part that ends too early has its fault at the end of the whole text.
    (
        "PROCESS: a; START: 0; FROM: 0; PROCESS: b; START: 0;",
        Some(InterFault::Part {
            part: 0,
            fault: ReadFault::Syntax {
                line: 1,
                column: 53,
            },
        }),
    ),
    (
        "PROCESS: p; START: a.b;",
        Some(InterFault::Label {
            line: 1,
            column: 20,
        }),
    ),
    (
        "PROCESS: p; START: a;\nPROCESS: q; START: a; FROM: a; x.y := 1; TO: .b;",
        Some(InterFault::Part {
            part: 1,
            fault: ReadFault::Syntax {
                line: 2,
                column: 46,
            },
        }),
    ),
    (
        "PROCESS: p; START: a;\nPROCESS: q; START: a; FROM: a; x.y := 1; TO: b.c;",
        Some(InterFault::Label {
            line: 2,
            column: 46,
        }),
    ),
];

#[test]
fn tells_the_first_fault(rt: HostRuntime) {
    for (text, fault) in FAULTS {
        assert!(rt; fault_of(rt.alloc(), text.as_bytes()) == *fault, "{text:?}");
    }
}

/// The fault of a front, the part `times` times, and an end; `None` where there is none.
fn fault_of_many(
    alloc: Global,
    front: &str,
    part: &str,
    times: u32,
    end: &str,
) -> Result<Option<InterFault>, AllocError> {
    let text = text_of(alloc, front, part, times, end)?;
    Ok(fault_of(alloc, &text))
}

// 33 locations of one process, in the order START a, then FROM and TO.
const TO_33: &str =
    "PROCESS: a; START: 0; FROM: 0; TO: 1; FROM: 2; TO: 3; FROM: 4; TO: 5; FROM: 6; TO: 7; FROM: 8; TO: 9;
FROM: 10; TO: 11; FROM: 12; TO: 13; FROM: 14; TO: 15; FROM: 16; TO: 17; FROM: 18; TO: 19; FROM: 20; TO: 21; FROM: 22; TO: 23;
FROM: 24; TO: 25; FROM: 26; TO: 27; FROM: 28; TO: 29; FROM: 30; TO: 31; FROM: 31; TO: 32; ";

#[test]
fn tells_how_large_a_product_is(rt: HostRuntime) {
    let alloc = rt.alloc();
    let locations = fault_of_many(alloc, "", TO_33, 2, "");
    assert!(rt; locations == Ok(Some(InterFault::Locations { count: 1089 })));
    let three =
        "PROCESS: a; START: 0; FROM: 0; TO: 1; FROM: 1; TO: 2; FROM: 3; TO: 4; FROM: 5; TO: 6; FROM: 7; TO: 8; FROM: 9; TO: 10; ";
    let locations = fault_of_many(alloc, "", three, 3, "");
    assert!(rt; locations == Ok(Some(InterFault::Locations { count: 1331 })));
    let beside = "PROCESS: b; START: 0; FROM: 0; TO: 1;";
    let edges = fault_of_many(
        alloc,
        "PROCESS: a; START: 0; ",
        "FROM: 0; TO: 0; ",
        3000,
        beside,
    );
    // 3,000 beside each of two locations, and one edge more.
    assert!(rt; edges == Ok(Some(InterFault::Edges { count: 6001 })));
    let edges = fault_of_many(
        alloc,
        "PROCESS: a; START: 0; ",
        "FROM: 0; TO: 0; ",
        2047,
        beside,
    );
    assert!(rt; edges == Ok(None));
    let edges = fault_of_many(
        alloc,
        "PROCESS: a; START: 0; ",
        "FROM: 0; TO: 0; ",
        4097,
        beside,
    );
    let what = What::Edges;
    let fault = ReadFault::TooMany {
        what,
        line: 1,
        column: 23 + 4096 * 16,
    };
    assert!(rt; edges == Ok(Some(InterFault::Part { part: 0, fault })));
}

#[test]
fn counts_the_variables_of_all(rt: HostRuntime) {
    let alloc = rt.alloc();
    let end = "TO: 0; PROCESS: b; START: 0; FROM: 0; other := 1; TO: 0;";
    let front = "PROCESS: a; START: 0; FROM: 0; ";
    assert!(rt; fault_of_many(alloc, front, "#:=0;", 511, end) == Ok(None));
    let many = fault_of_many(alloc, front, "#:=0;", 512, end);
    assert!(rt; many == Ok(Some(InterFault::Variables { count: 513 })));
}
