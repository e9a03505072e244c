use crate::known::{HALF, Rows, found};
use crate::programs::{COUNTDOWN, DRAWN_COUNTDOWN, EMPTY, NESTED, about_of};
use std::alloc::Global;
use std::test::Fail;
use tv_farkas::Budget;
use tv_lexrank::{CaseShown, Ranked, first_attempt, under_more};

/// A loop whose guards contradict each other.
const NEVER: &str = "START: 0; FROM: 0; assume(x > 1); assume(x < 0); x := x + 1; TO: 0;";

/// What is to show a case: the number of a fall, and how many lists of multipliers it has, or how many multipliers refute its guards.
#[derive(Drop)]
enum Wanted {
    Falls(u32, usize),
    Untaken(usize),
}

fn is_wanted(wanted: &Wanted, shown: &CaseShown) -> bool {
    match (wanted, shown) {
        (Wanted::Falls(number, lines), CaseShown::Falls(fall)) => {
            fall.number == *number && fall.lines.len() == *lines
        }
        (Wanted::Untaken(count), CaseShown::Untaken(multipliers)) => multipliers.len() == *count,
        _ => false,
    }
}

/// Whether each case is shown as is wanted.
fn are_wanted(wanted: &[Wanted], shown: &[CaseShown]) -> bool {
    if wanted.len() != shown.len() {
        return false;
    }
    for (wanted, shown) in wanted.iter().zip(shown.iter()) {
        if !is_wanted(wanted, shown) {
            return false;
        }
    }
    true
}

/// What shows each case of the program in the text.
fn shown_of(alloc: Global, text: &str) -> Result<Vec<CaseShown>, Fail> {
    let about = about_of(alloc, text)?;
    match first_attempt(alloc, &about, 1000) {
        Ok(Ranked::Node { shown, .. }) => Ok(shown),
        _ => Err(Fail::from("no node")),
    }
}

const EXAMPLES: &[(&str, &[Wanted])] = &[
    (EMPTY, &[]),
    (COUNTDOWN, &[Wanted::Falls(1, 2), Wanted::Falls(2, 3)]),
    (DRAWN_COUNTDOWN, &[Wanted::Falls(1, 2), Wanted::Falls(2, 3)]),
    (NESTED, &[Wanted::Falls(2, 3), Wanted::Falls(3, 4)]),
    (NEVER, &[Wanted::Untaken(2)]),
];

#[test]
fn each_case_is_shown(rt: HostRuntime) -> Result<(), Fail> {
    for (text, wanted) in EXAMPLES {
        let shown = shown_of(rt.alloc(), text)?;
        assert!(rt; are_wanted(*wanted, &shown), "{text}");
    }
    Ok(())
}

/// What shows each case of the program in the text under rows that are known.
fn shown_under(alloc: Global, text: &str, known: Rows) -> Result<Vec<CaseShown>, Fail> {
    let budget = Budget {
        pivots: 1000,
        splits: 64,
        disjuncts: 256,
    };
    match found(alloc, text, known, &budget)? {
        Ok(Ranked::Node { shown, .. }) => Ok(shown),
        _ => Err(Fail::from("no node")),
    }
}

/// At the second location nothing is met: 0 is at least 1.
const NONE_THERE: Rows = &[&[], &[(&[1], 0), (&[-1], 1), (&[0], 1)]];

#[test]
fn known_rows_show_that_a_case_is_never_taken(rt: HostRuntime) -> Result<(), Fail> {
    let shown = shown_under(rt.alloc(), HALF, NONE_THERE)?;
    assert!(rt;
        are_wanted(&[Wanted::Falls(1, 2), Wanted::Untaken(3)], &shown),
        "{HALF}"
    );
    Ok(())
}

/// Whether the multipliers of the guards stand after `many` zeros.
fn is_padded(many: usize, old: &[i64], new: &[i64]) -> bool {
    if new.len() != old.len().saturating_add(many) {
        return false;
    }
    let (zeros, back) = new.split_at(new.len().saturating_sub(old.len()));
    zeros.iter().all(|zero| *zero == 0) && back == old
}

fn are_padded(many: usize, old: &CaseShown, new: &CaseShown) -> bool {
    match (old, new) {
        (CaseShown::Untaken(old), CaseShown::Untaken(new)) => is_padded(many, old, new),
        (CaseShown::Falls(old), CaseShown::Falls(new)) => {
            old.number == new.number
                && old
                    .lines
                    .iter()
                    .zip(new.lines.iter())
                    .all(|(old, new)| is_padded(many, old, new))
        }
        _ => false,
    }
}

#[test]
fn more_rows_have_zeros(rt: HostRuntime) -> Result<(), Fail> {
    for text in [COUNTDOWN, NEVER] {
        let shown = shown_of(rt.alloc(), text)?;
        for old in &shown {
            let new = under_more(rt.alloc(), old, 0, 3)?;
            assert!(rt; are_padded(3, old, &new), "{text}");
        }
    }
    Ok(())
}
