use crate::given::{MOST, is};
use std::test::Fail;
use tv_linear::{Row, are_narrow, is_narrow, shortened, widened};

fn are_told_narrow() -> bool {
    is_narrow(MOST) && !is_narrow(MOST + 1) && are_narrow(&[3, -4]) && !are_narrow(&[0, -MOST - 1])
}

#[test]
fn narrow_numbers_are_told(rt: HostRuntime) {
    assert!(rt; are_told_narrow());
}

#[test]
fn lists_are_widened(rt: HostRuntime) -> Result<(), Fail> {
    let wide = widened(rt.alloc(), &[3, -4])?;
    assert!(rt; wide.as_slice() == [3i128, -4].as_slice());
    Ok(())
}

#[test]
fn lists_are_shortened(rt: HostRuntime) -> Result<(), Fail> {
    let short = shortened(rt.alloc(), &[3, -4])?;
    assert!(rt; short.as_slice() == [3i64, -4].as_slice());
    Ok(())
}

#[test]
fn a_wide_number_makes_no_row(rt: HostRuntime) -> Result<(), Fail> {
    let row = Row::new(rt.alloc(), &[1], MOST + 1)?;
    assert!(rt; row.is_none());
    Ok(())
}

#[test]
fn a_number_is_a_row(rt: HostRuntime) -> Result<(), Fail> {
    let zero = Row::zero(rt.alloc(), 2)?;
    let number = Row::number(rt.alloc(), 2, -7)?;
    assert!(rt; is(&zero, &[0, 0], 0) && is(&number, &[0, 0], -7));
    Ok(())
}

#[test]
fn a_list_of_narrow_numbers_is_a_row(rt: HostRuntime) -> Result<(), Fail> {
    let row = Row::from_narrow(vec![in rt.alloc(); 1]?, -5);
    assert!(rt; is(&row, &[1], -5));
    Ok(())
}

fn is_second_of_two(row: &Row) -> bool {
    is(row, &[0, 1], 0) && row.columns() == 2 && row.coefficient(1) == 1
}

#[test]
fn a_column_is_a_row(rt: HostRuntime) -> Result<(), Fail> {
    assert!(rt; is_second_of_two(&Row::column(rt.alloc(), 2, 1)?));
    Ok(())
}
