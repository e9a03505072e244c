use crate::given::{MOST, one_row, row};
use std::alloc::Global;
use std::test::Fail;
use tv_linear::{Row, RowView, Rows, Update};
use tv_refute::{Built, Change, Frames, Terms, meets, number_of, shows};

/// A counter of at most 5 that grows by 1 where it is at most 4.
#[derive(Drop)]
struct Counter {
    piece: Vec<Row>,
    guards: Vec<Row>,
    updates: Vec<Update>,
}

fn one_more(alloc: Global) -> Result<Vec<Update>, Fail> {
    let mut updates = Vec::new(alloc);
    updates.push(Update {
        variable: 0,
        term: row(alloc, &[1], 1)?,
    })?;
    Ok(updates)
}

fn small_counter(alloc: Global) -> Result<Counter, Fail> {
    Ok(Counter {
        piece: one_row(alloc, 1, -5)?,
        guards: one_row(alloc, 1, -4)?,
        updates: one_more(alloc)?,
    })
}

/// Whether the multipliers show a row after the step.
fn is_shown(counter: &Counter, row: &Row, multipliers: &[i64]) -> bool {
    let end = Frames::End;
    let piece = Frames::Rows {
        rows: Rows::Each(&counter.piece),
        above: &end,
    };
    let guards = Frames::Rows {
        rows: Rows::Each(&counter.guards),
        above: &piece,
    };
    let terms = Terms::After {
        columns: 1,
        updates: &counter.updates,
    };
    shows(
        1,
        &guards,
        &Change::Once(&terms),
        RowView::of(row),
        multipliers,
    )
}

/// Some multipliers, and whether they show that the counter stays at most 5.
const SHOWN: [(&[i64], bool); 6] = [
    (&[0, 1, 1], true),
    (&[1, 0, 1], false),
    (&[0, 2, 1], false),
    (&[-1, 2, 1], false),
    (&[0, 0, 0], false),
    (&[1, 1], false),
];

fn are_told_apart(counter: &Counter, row: &Row) -> bool {
    SHOWN.iter().all(|(multipliers, shown)| is_shown(counter, row, multipliers) == *shown)
}

#[test]
fn the_counter_stays_at_most_five(rt: HostRuntime) -> Result<(), Fail> {
    let counter = small_counter(rt.alloc())?;
    let at_most_five = row(rt.alloc(), &[1], -5)?;
    assert!(rt; are_told_apart(&counter, &at_most_five));
    Ok(())
}

fn less_by(number: i128) -> Option<i128> {
    let zero = Built::Zero;
    number_of(&Built::Less(&zero, &zero, number), None)
}

fn denied_zero() -> Option<i128> {
    number_of(&Built::Denied(&Built::Zero), None)
}

#[test]
fn numbers_stay_below_the_bound(rt: HostRuntime) {
    assert!(rt; less_by(i128::MIN).is_none());
    assert!(rt; less_by(i128::MIN + 1) == Some(i128::MIN + 1));
    assert!(rt; denied_zero() == Some(1));
}

fn are_met(row: &Row, values: &[i128]) -> bool {
    row.columns() as usize == values.len() && meets(values, RowView::of(row))
}

#[test]
fn values_have_no_bound(rt: HostRuntime) -> Result<(), Fail> {
    for (coefficients, values, met) in [
        ([MOST; 9].as_slice(), [MOST; 9].as_slice(), false),
        (&[MOST; 9], &[-MOST; 9], true),
        (&[MOST, -MOST], &[i128::MAX, i128::MAX], true),
        (&[MOST, -MOST], &[i128::MAX, i128::MAX - 1], false),
        (&[MOST, -MOST], &[i128::MIN, i128::MAX], true),
    ] {
        let row = row(rt.alloc(), coefficients, 0)?;
        assert!(rt; are_met(&row, values) == met);
    }
    Ok(())
}
