//! Copies of rows and of lists, and rows with more columns.

use crate::given::{is, one_row, row};
use std::test::Fail;
use tv_linear::{
    Row, all_padded, copies, copies_of_lists, copy_row, joined, push_copies, push_item,
};

fn are_both(rows: &[Row]) -> bool {
    match rows {
        [first, second] => is(first, &[1], -5) && is(second, &[-1], 6),
        _ => false,
    }
}

#[test]
fn rows_are_copied_and_joined(rt: HostRuntime) -> Result<(), Fail> {
    let alloc = rt.alloc();
    let first = one_row(alloc, 1, -5)?;
    let second = one_row(alloc, -1, 6)?;
    let mut list = copies(alloc, &first)?;
    push_copies(alloc, &second, &mut list)?;
    if !are_both(&list) {
        return Err(Fail::from("copied"));
    }
    if !are_both(&joined(alloc, &first, &second)?) {
        return Err(Fail::from("joined"));
    }
    Ok(())
}

#[test]
fn one_row_is_copied(rt: HostRuntime) -> Result<(), Fail> {
    let alloc = rt.alloc();
    if !is(&copy_row(alloc, &row(alloc, &[2], 7)?)?, &[2], 7) {
        return Err(Fail::from("copied"));
    }
    Ok(())
}

#[test]
fn lists_are_copied(rt: HostRuntime) -> Result<(), Fail> {
    let alloc = rt.alloc();
    let mut lists = Vec::new(alloc);
    push_item(&mut lists, Vec::from_slice(alloc, &[1, -2])?)?;
    let copied = copies_of_lists(alloc, &lists)?;
    let is_same = match copied.as_slice() {
        [only] => only.as_slice() == [1, -2].as_slice(),
        _ => false,
    };
    if !is_same {
        return Err(Fail::from("copied"));
    }
    Ok(())
}

#[test]
fn new_columns_have_zeros(rt: HostRuntime) -> Result<(), Fail> {
    let alloc = rt.alloc();
    let three = row(alloc, &[3], -5)?;
    if !is(&three.padded(alloc, 2)?, &[3, 0, 0], -5) {
        return Err(Fail::from("one"));
    }
    let rows = one_row(alloc, 3, -5)?;
    let is_padded = match all_padded(alloc, &rows, 1)?.as_slice() {
        [only] => is(only, &[3, 0], -5),
        _ => false,
    };
    if !is_padded {
        return Err(Fail::from("all"));
    }
    Ok(())
}
