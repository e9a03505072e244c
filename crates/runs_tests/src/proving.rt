use crate::safety::COUNTER;
use crate::texts::{Asked, add_proposers, expect_said, expect_shown, joined, says_under};
use crate::words::COUNTDOWN;
use std::alloc::Global;
use std::test::Fail;
use tv_candidates::Candidate;
use tv_linear::Row;
use tv_propose::{Proposer, Scripted};
use tv_top::Status;

const SAFETY_2: &[&str] = &["--safety", "2"];

const PROVED: &str = "Proved\n";

/// Comes to location 2 after seven steps.
const PASSES: &str =
    "START: 0; FROM: 0; x := 0; TO: 1; FROM: 1; assume(x < 5); x := x + 1; TO: 1; FROM: 1; assume(x > 4); TO: 2;";

/// Comes to location 2 where 7 is drawn.
const DRAWS: &str =
    "START: 0; FROM: 0; y := nondet(); TO: 1; FROM: 1; assume(y == 7); assume(x > 2); TO: 2;";

/// Comes to location 2 after ten steps alone, more than the first search tries.
const FAR: &str =
    "START: 0; FROM: 0; x := 0; TO: 1; FROM: 1; x := x + 1; TO: 1; FROM: 1; assume(x == 9); TO: 2;";

/// The second number is always twice the first, which no bound and no difference of the two says.
pub(crate) const TWICE: &str =
    "START: 0; FROM: 0; x := 0; y := 0; TO: 1; FROM: 1; x := x + 1; y := y + 2; TO: 1; FROM: 1; assume(x == 3); assume(y != 6); TO: 2;";

/// Two ways to each step, over even numbers.
const BRANCHES: &str =
    "START: 0; FROM: 0; x := 0; TO: 1; FROM: 1; x := x + 2; TO: 1; FROM: 1; x := x - 2; TO: 1; FROM: 1; assume(x == 3); TO: 2;";

/// Comes to location 2 with a value of more than 62 bits.
const DOUBLED: &str =
    "START: 0; FROM: 0; x := 4000000000000000000; TO: 1; FROM: 1; x := x + x; TO: 2;";

/// Words, a program, and the lines of the verdict.
pub(crate) const SETTLED: &[Asked] = &[
    (SAFETY_2, &[COUNTER], PROVED, Status::Proved),
    (
        &["--ctl", "[AG](!at(2))"],
        &[COUNTER],
        PROVED,
        Status::Proved,
    ),
    (SAFETY_2, &[PASSES], "Disproved\nx = 1\n", Status::Disproved),
    (
        SAFETY_2,
        &[DRAWS],
        "Disproved\ny = 7\nx = 7\n",
        Status::Disproved,
    ),
    (
        &["--safety", "0"],
        &[COUNTDOWN],
        "Disproved\nx = 1\n",
        Status::Disproved,
    ),
    (SAFETY_2, &[FAR], "Disproved\nx = 0\n", Status::Disproved),
    (
        SAFETY_2,
        &[DOUBLED],
        "Disproved\nx = 1\n",
        Status::Disproved,
    ),
];

/// The verdict is written, and the certificate that is written after it is accepted.
#[test]
fn whether_runs_come_to_a_location_is_settled(rt: HostRuntime) {
    expect_said(&rt, rt.alloc(), SETTLED);
    expect_shown(&rt, rt.alloc(), SETTLED);
}

/// Words, a program, and the cause that it is not known.
const OPEN: &[Asked] = &[
    (
        SAFETY_2,
        &[TWICE],
        "Unknown invariant\nlocation 2 at 3 3\n",
        Status::Unknown,
    ),
    (
        &["--safety", "2", "--disjuncts", "1"],
        &[BRANCHES],
        "Unknown disjuncts\nlocation 2 count 2\n",
        Status::Unknown,
    ),
];

#[test]
fn why_it_is_not_settled_is_told(rt: HostRuntime) {
    expect_said(&rt, rt.alloc(), OPEN);
}

/// A location, and a row by its coefficients and its constant.
pub(crate) type Placed = (u32, &'static [i128], i128);

fn candidate(alloc: Global, placed: &Placed) -> Result<Candidate, Fail> {
    if placed.1.len() > 3 {
        return Err(Fail::from("more than three columns"));
    }
    let row = Row::new(alloc, placed.1, placed.2)?.ok_or("wide")?;
    Ok(Candidate {
        location: placed.0,
        row,
    })
}

/// Puts the row at the end `times` times.
fn push_times(
    alloc: Global,
    candidates: &mut Vec<Candidate>,
    placed: &Placed,
    times: u32,
) -> Result<(), Fail> {
    for _ in 0..times {
        candidates.push(candidate(alloc, placed)?)?;
    }
    Ok(())
}

/// These rows, each `times` times.
fn candidates(alloc: Global, list: &[Placed], times: u32) -> Result<Vec<Candidate>, Fail> {
    let mut candidates = Vec::new(alloc);
    for placed in list {
        push_times(alloc, &mut candidates, placed, times)?;
    }
    Ok(candidates)
}

/// A proposer of these rows, each `times` times, after the others.
pub(crate) fn push_offering(
    alloc: Global,
    proposers: &mut Vec<Box<dyn Proposer>>,
    list: &[Placed],
    times: u32,
) -> Result<(), Fail> {
    let candidates = candidates(alloc, list, times)?;
    proposers.push(Box::new(alloc, Scripted::new(candidates))?)?;
    Ok(())
}

/// The second number is at most twice the first, and at least.
pub(crate) const BOTH_WAYS: &[Placed] = &[(1, &[-2, 1], 0), (1, &[2, -1], 0)];

/// A program, and what is offered alone.
type Offer = (&'static str, &'static [Placed]);

/// Rows that do not hold, or that are about no location, do no harm.
const OFFERED: &[Offer] = &[
    (COUNTER, &[]),
    (
        COUNTER,
        &[(1, &[1], 0), (2, &[0], 1), (0, &[0], 1), (7, &[0], 1)],
    ),
    (
        COUNTER,
        &[(1, &[1], 0), (9, &[1], -5), (1, &[1], -5), (2, &[0], 1)],
    ),
    (TWICE, BOTH_WAYS),
];

/// A proposer of these rows alone.
fn offering(alloc: Global, list: &[Placed]) -> Result<Vec<Box<dyn Proposer>>, Fail> {
    let mut proposers = Vec::new(alloc);
    push_offering(alloc, &mut proposers, list, 1)?;
    Ok(proposers)
}

/// Whether it is proved under what is offered that no run comes to location 2.
fn is_proved_under(alloc: Global, offered: &Offer) -> Result<bool, Fail> {
    let proposers = offering(alloc, offered.1)?;
    let text = joined(alloc, &[offered.0])?;
    Ok(says_under(alloc, SAFETY_2, text, proposers, PROVED, Status::Proved)?)
}

#[test]
fn rows_that_are_offered_are_looked_at(rt: HostRuntime) -> Result<(), Fail> {
    for offered in OFFERED {
        assert!(rt; is_proved_under(rt.alloc(), offered)?, "{offered:?}");
    }
    Ok(())
}

/// Rows that do not hold, are about no location or have another number of columns.
pub(crate) const USELESS: &[Placed] = &[
    (1, &[1], 0),
    (0, &[0], 1),
    (9, &[1], -5),
    (1, &[1, 0, 0], -5),
    (2, &[], 1),
];

/// A row that does not hold, though it does at first.
pub(crate) const ONE_ROW: &[Placed] = &[(1, &[1], -5)];

/// Proposers of what is of no use, again and again, and those of rows of each kind.
fn useless(alloc: Global) -> Result<Vec<Box<dyn Proposer>>, Fail> {
    let mut proposers = Vec::new(alloc);
    push_offering(alloc, &mut proposers, USELESS, 50)?;
    push_offering(alloc, &mut proposers, ONE_ROW, 1000)?;
    add_proposers(alloc, &mut proposers)?;
    Ok(proposers)
}

fn is_said_beside_useless(alloc: Global, asked: &Asked) -> Result<bool, Fail> {
    let (words, texts, lines, status) = asked;
    let proposers = useless(alloc)?;
    let text = joined(alloc, texts)?;
    Ok(says_under(alloc, words, text, proposers, lines, *status)?)
}

/// What is of no use changes no answer.
#[test]
fn useless_rows_change_no_answer(rt: HostRuntime) -> Result<(), Fail> {
    for asked in SETTLED {
        assert!(rt; is_said_beside_useless(rt.alloc(), asked)?, "{asked:?}");
    }
    Ok(())
}
