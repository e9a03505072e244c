use crate::given::row;
use std::alloc::Global;
use std::test::Fail;
use tv_linear::{PackedRows, Row, RowView, Rows, append_rows, have_columns};

fn is(row: RowView, coefficients: &[i64], constant: i128) -> bool {
    row.coefficients() == coefficients && row.constant() == constant
}

/// `x - 2y + 3` and `5y - 7`.
fn two_rows(alloc: Global) -> Result<Vec<Row>, Fail> {
    let mut rows = Vec::new(alloc);
    rows.push(row(alloc, &[1, -2], 3)?)?;
    rows.push(row(alloc, &[0, 5], -7)?)?;
    Ok(rows)
}

fn are_two(rows: Rows) -> bool {
    rows.len() == 2 && is(rows.row(0), &[1, -2], 3) && is(rows.row(1), &[0, 5], -7)
}

fn is_second_alone(rows: Rows) -> bool {
    match rows.split_first() {
        Some((row, none)) => {
            is(row, &[0, 5], -7) && none.is_empty() && none.split_first().is_none()
        }
        None => false,
    }
}

fn begin_with_the_first(rows: Rows) -> bool {
    match rows.split_first() {
        Some((row, rest)) => { is(row, &[1, -2], 3) && row.columns() == 2 && is_second_alone(rest) }
        None => false,
    }
}

fn are_lent(rows: Rows) -> bool {
    !rows.is_empty() && are_two(rows) && begin_with_the_first(rows)
}

#[test]
fn rows_with_memory_of_their_own_are_lent(rt: HostRuntime) -> Result<(), Fail> {
    let rows = two_rows(rt.alloc())?;
    assert!(rt; are_lent(Rows::Each(&rows)));
    assert!(rt; have_columns(&rows, 2));
    Ok(())
}

#[test]
fn packed_rows_are_lent(rt: HostRuntime) {
    let numbers = [1, -2, 3, 0, 5, -7];
    assert!(rt; are_lent(Rows::Packed(PackedRows::new(2, 2, &numbers))));
}

#[test]
fn rows_are_packed(rt: HostRuntime) -> Result<(), Fail> {
    let rows = two_rows(rt.alloc())?;
    let mut numbers = Vec::new(rt.alloc());
    append_rows(&mut numbers, &rows)?;
    assert!(rt; numbers.as_slice() == [1i64, -2, 3, 0, 5, -7].as_slice());
    Ok(())
}

fn are_two_numbers(rows: PackedRows) -> bool {
    rows.len() == 2 && is(rows.row(0), &[], 4) && is(rows.row(1), &[], -4)
}

#[test]
fn rows_without_columns_are_lent(rt: HostRuntime) {
    let numbers = [4, -4];
    assert!(rt; are_two_numbers(PackedRows::new(0, 2, &numbers)));
    assert!(rt; Rows::Packed(PackedRows::new(3, 0, &[])).is_empty());
}
