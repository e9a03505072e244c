use crate::texts::repeated;
use std::alloc::{AllocError, Global};
use tv_cases::{Case, CaseFault, Cases, cases};
use tv_linear::{Row, Update};
use tv_reader::read_program;

/// A row by its coefficients and its constant.
type Numbers = (&'static [i64], i128);

/// What a case is to be: its draws, its guards, and its updates, each with its variable.
type Wanted = (u32, &'static [Numbers], &'static [(u32, Numbers)]);

/// The commands of an edge, and its cases. The columns are the variables by their first places, and then the draws.
type Example = (&'static str, &'static [Wanted]);

/// The cases of the program in the text; `None` where that is no program.
fn cases_of(alloc: Global, text: &[u8]) -> Option<Result<Cases, CaseFault>> {
    if text.len() > 1048576 {
        return None;
    }
    match read_program(alloc, text) {
        Ok(program) => Some(cases(alloc, &program)),
        Err(_) => None,
    }
}

fn is_row(row: &Row, numbers: &Numbers) -> bool {
    row.coefficients() == numbers.0 && row.constant() == numbers.1
}

fn are_rows(rows: &[Row], wanted: &[Numbers]) -> bool {
    rows.len() == wanted.len()
        && rows
            .iter()
            .zip(wanted)
            .all(|(row, numbers)| is_row(row, numbers))
}

fn are_updates(updates: &[Update], wanted: &[(u32, Numbers)]) -> bool {
    updates.len() == wanted.len()
        && updates.iter().zip(wanted).all(|(update, (variable, numbers))| {
            update.variable == *variable && is_row(&update.term, numbers)
        })
}

fn is_case(case: &Case, wanted: &Wanted) -> bool {
    case.draws == wanted.0
        && are_rows(&case.guards.rows, wanted.1)
        && are_updates(&case.updates, wanted.2)
}

const EITHER: Example = (
    "assume(x != 3 || y > 0);",
    &[
        (0, &[(&[1, 0], -2)], &[]),
        (0, &[(&[-1, 0], 4)], &[]),
        (0, &[(&[0, -1], 1)], &[]),
    ],
);

const LOWERED: Example = (
    "assume(x > 0); y := nondet(); assume(y < x); x := y;",
    &[(
        1,
        &[(&[-1, 0, 0], 1), (&[-1, 0, 1], 1)],
        &[(0, (&[0, 0, 1], 0)), (1, (&[0, 0, 1], 0))],
    )],
);

const HALF: Example = ("assume(2*x == 1);", &[(0, &[(&[1], 0), (&[-1], 1)], &[])]);

/// -3x + 6y is at most 5, and so -x + 2y at most 1.
const TIGHTENED: Example = (
    "assume(3*x >= 2*y + 4*y - 5); y := x;",
    &[(0, &[(&[-1, 2], -1)], &[(1, (&[1, 0], 0))])],
);

/// x > y, or x >= 2.
const DENIED: Example = (
    "assume(!(x <= y && x < 2));",
    &[(0, &[(&[-1, 1], 1)], &[]), (0, &[(&[-1, 0], 2)], &[])],
);

/// The four pairs of x < 1 or x > 1 with y < 2 or y > 2, the first varying slowest.
const PAIRS: &[Wanted] = &[
    (0, &[(&[1, 0], 0), (&[0, 1], -1)], &[]),
    (0, &[(&[1, 0], 0), (&[0, -1], 3)], &[]),
    (0, &[(&[-1, 0], 2), (&[0, 1], -1)], &[]),
    (0, &[(&[-1, 0], 2), (&[0, -1], 3)], &[]),
];

const BOTH: Example = ("assume(x != 1 && y != 2);", PAIRS);

const ONE_AFTER_ANOTHER: Example = ("assume(x != 1); assume(y != 2);", PAIRS);

const NONE: Example = ("assume(x > 0 && !true);", &[]);

const FREE: Example = ("assume(false || true);", &[(0, &[], &[])]);

const TESTED_BETWEEN: Example = (
    "x := x + 1; assume(x < 5); x := 2*x;",
    &[(0, &[(&[1], -3)], &[(0, (&[2], 2))])],
);

const LATER_FIRST: Example = (
    "assume(x >= y); y := 3; x := y + 1;",
    &[(0, &[(&[-1, 1], 0)], &[(0, (&[0, 0], 4)), (1, (&[0, 0], 3))])],
);

const TWO_DRAWS: Example = (
    "x := nondet(); y := x - nondet();",
    &[(2, &[], &[(0, (&[0, 0, 1, 0], 0)), (1, (&[0, 0, 1, -1], 0))])],
);

/// Whether the cases are the wanted ones, in order.
fn are_wanted(list: &[Case], wanted: &'static [Wanted]) -> bool {
    if list.len() != wanted.len() {
        return false;
    }
    for (case, numbers) in list.iter().zip(wanted) {
        if !is_case(case, numbers) {
            return false;
        }
    }
    true
}

/// Whether the edges with these commands have the wanted cases.
fn are_cases(alloc: Global, commands: &str, wanted: &'static [Wanted]) -> Result<bool, AllocError> {
    let text = repeated(alloc, "START: 0; FROM: 0; ", commands, 1, " TO: 0;")?;
    match cases_of(alloc, &text) {
        Some(Ok(cases)) => Ok(are_wanted(cases.list(), wanted)),
        _ => Ok(false),
    }
}

const EXAMPLES: &[Example] = &[
    EITHER,
    LOWERED,
    HALF,
    TIGHTENED,
    DENIED,
    BOTH,
    ONE_AFTER_ANOTHER,
    NONE,
    FREE,
    TESTED_BETWEEN,
    LATER_FIRST,
    TWO_DRAWS,
];

#[test]
fn cases_are_those_of_the_commands(rt: HostRuntime) {
    for (commands, wanted) in EXAMPLES {
        assert!(rt;
            are_cases(rt.alloc(), commands, wanted) == Ok(true),
            "{commands}"
        );
    }
}

/// A location, which of the cases from there is asked for, and where it leads.
const LEAVING: [(u32, usize, Option<u32>); 5] = [
    (0, 0, Some(1)),
    (0, 1, Some(1)),
    (0, 2, None),
    (1, 0, Some(2)),
    (2, 0, None),
];

fn leave_so(cases: &Cases) -> bool {
    LEAVING.iter().all(|(location, k, to)| cases.leaving(*location, *k).map(|case| case.to) == *to)
}

fn lead_so(cases: &Cases, wanted: &[(u32, u32)]) -> bool {
    let list = cases.list();
    list.len() == wanted.len()
        && list
            .iter()
            .zip(wanted)
            .all(|(case, (from, to))| case.from == *from && case.to == *to)
}

/// Whether there are two cases of the first edge, and one of the second.
fn follow_the_edges(cases: &Cases) -> bool {
    cases.variables() == 1
        && cases.locations() == 3
        && cases.start() == 0
        && lead_so(cases, &[(0, 1), (0, 1), (1, 2)])
        && leave_so(cases)
}

fn are_of_two_edges(alloc: Global) -> bool {
    let text = "START: 0; FROM: 0; assume(x != 0); TO: 1; FROM: 1; TO: 2;";
    match cases_of(alloc, text.as_bytes()) {
        Some(Ok(cases)) => follow_the_edges(&cases),
        _ => false,
    }
}

#[test]
fn cases_follow_the_edges(rt: HostRuntime) {
    assert!(rt; are_of_two_edges(rt.alloc()));
}

/// How often a test stands on an edge, what follows it, and how many cases there are, or why there are none.
type Limit = (u32, &'static str, Result<usize, CaseFault>);

const LIMITS: &[Limit] = &[
    (13, "TO: 0;", Ok(8192)),
    (14, "TO: 0;", Err(CaseFault::TooMany { edge: 0 })),
    (14, "assume(false); TO: 0;", Ok(0)),
    (200, "assume(false); TO: 0;", Ok(0)),
    (13, "TO: 0; FROM: 0; assume(false); TO: 0;", Ok(8192)),
    (
        13,
        "TO: 0; FROM: 0; TO: 0;",
        Err(CaseFault::TooMany { edge: 1 }),
    ),
    (
        14,
        "x := 4611686018427387903 * 2; TO: 0;",
        Err(CaseFault::Wide { edge: 0 }),
    ),
    (
        14,
        "TO: 0; FROM: 0; x := 4611686018427387903 * 2; TO: 0;",
        Err(CaseFault::TooMany { edge: 0 }),
    ),
    (0, "x := 4611686018427387903 * 2 * 0; TO: 0;", Ok(1)),
    (
        0,
        "x := (4611686018427387903 * 2) * 0; TO: 0;",
        Err(CaseFault::Wide { edge: 0 }),
    ),
];

/// Whether there are as many cases as wanted, or none because of the wanted fault.
fn are_so_many(found: &Result<Cases, CaseFault>, wanted: &Result<usize, CaseFault>) -> bool {
    match (found, wanted) {
        (Ok(cases), Ok(count)) => cases.list().len() == *count,
        (Err(found), Err(fault)) => found == fault,
        _ => false,
    }
}

/// Whether the cases are as many as the limit wants, or are refused as it wants.
fn is_kept(alloc: Global, limit: &Limit) -> Result<bool, AllocError> {
    let (times, end, wanted) = limit;
    let text = repeated(alloc, "START: 0; FROM: 0; ", "assume(x != 0);", *times, end)?;
    match cases_of(alloc, &text) {
        Some(found) => Ok(are_so_many(&found, wanted)),
        None => Ok(false),
    }
}

#[test]
fn limits_of_cases_are_kept(rt: HostRuntime) {
    for limit in LIMITS {
        assert!(rt; is_kept(rt.alloc(), limit) == Ok(true), "{limit:?}");
    }
}
