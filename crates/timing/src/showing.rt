//! A row that terms are put in for, once or twice, which is shown, and a plain scan of the same rows.
//!
//! The text is how many columns there are, how many rows are known and the rows, the row to be shown, how many variables are updated,
//! each with its term, and the multipliers of the known rows and of the denial. A row is its columns and its constant. The scan takes one
//! product and one sum for each number of the known rows and of the row.

use crate::words::{Fault, next_count, next_row, next_rows};
use std::alloc::Global;
use std::str::SplitWhitespace;
use tv_linear::held::add_product;
use tv_linear::{Row, RowView, Rows, Update};
use tv_refute::{Change, Frames, Terms, shows};

/// What is done with the rows.
#[derive(Clone, Copy)]
pub(crate) enum Way {
    Once,
    Twice,
    Scan,
}

/// What is shown, and from what.
#[derive(Drop)]
struct Showing {
    columns: u32,
    known: Vec<Row>,
    shown: Row,
    updates: Vec<Update>,
    multipliers: Vec<i64>,
}

/// The next `count` multipliers in the text.
fn next_multipliers(
    alloc: Global,
    words: &mut SplitWhitespace<'_>,
    count: u32,
) -> Result<Vec<i64>, Fault> {
    let mut multipliers = Vec::new(alloc);
    for _ in 0..count {
        let word = words.next().ok_or(Fault::Form)?;
        multipliers.push(word.parse::<i64>().map_err(|_| Fault::Form)?)?;
    }
    Ok(multipliers)
}

/// The next `count` variables in the text, with their terms.
fn next_updates(
    alloc: Global,
    words: &mut SplitWhitespace<'_>,
    count: u32,
    columns: u32,
) -> Result<Vec<Update>, Fault> {
    let mut updates = Vec::new(alloc);
    for _ in 0..count {
        let variable = next_count(words)?;
        let term = next_row(alloc, words, columns)?;
        updates.push(Update { variable, term })?;
    }
    Ok(updates)
}

fn showing_of(alloc: Global, words: &mut SplitWhitespace<'_>) -> Result<Showing, Fault> {
    let columns = next_count(words)?;
    let count = next_count(words)?;
    let known = next_rows(alloc, words, count, columns)?;
    let shown = next_row(alloc, words, columns)?;
    let assigned = next_count(words)?;
    let updates = next_updates(alloc, words, assigned, columns)?;
    let multipliers = next_multipliers(alloc, words, count.saturating_add(1))?;
    Ok(Showing {
        columns,
        known,
        shown,
        updates,
        multipliers,
    })
}

/// The sum of the products of a factor and the numbers of a row, one after the other.
fn scanned(total: i128, factor: i128, row: &Row) -> Option<i128> {
    let mut sum = total;
    for number in row.coefficients() {
        match add_product(sum, factor, i128::from(*number)) {
            None => return None,
            Some(next) => sum = next,
        }
    }
    add_product(sum, factor, row.constant())
}

/// The same, of several rows, with 1 as the factor.
fn scanned_rows(start: i128, rows: &[Row]) -> Option<i128> {
    let mut sum = start;
    for row in rows {
        match scanned(sum, 1, row) {
            None => return None,
            Some(next) => sum = next,
        }
    }
    Some(sum)
}

fn is_done(way: Way, showing: &Showing, time: u64) -> bool {
    let end = Frames::End;
    let known = Frames::Rows {
        rows: Rows::Each(&showing.known),
        above: &end,
    };
    let terms = Terms::After {
        columns: showing.columns,
        updates: &showing.updates,
    };
    let change = match way {
        Way::Once => Change::Once(&terms),
        Way::Twice => Change::Twice(&terms, &terms),
        Way::Scan => {
            return match scanned_rows(time as i128, &showing.known) {
                None => false,
                Some(sum) => scanned(sum, -1, &showing.shown).is_some(),
            };
        }
    };
    shows(
        showing.columns as usize,
        &known,
        &change,
        RowView::of(&showing.shown),
        &showing.multipliers,
    )
}

/// Whether the row in the text is shown. It is tried `times` times.
pub(crate) fn shown(alloc: Global, text: &str, way: Way, times: u64) -> Result<String, Fault> {
    let showing = showing_of(alloc, &mut text.split_whitespace())?;
    let mut done = true;
    for time in 0..times {
        done = is_done(way, &showing, time) && done;
    }
    let told = if done {
        format!(in alloc; "shown")
    } else {
        format!(in alloc; "not shown")
    };
    Ok(told?)
}
