ghost use Rattle.std.specs.Prelude.{◌≡◌};
ghost use Rattle.tv_linear.specs.Linear.{columns};

use crate::given::{MOST, is, row};
use std::alloc::Global;
use std::test::Fail;
use tv_linear::{Row, RowFault, Total};

/// What is made of one row.
#[derive(Clone, Copy)]
enum Way {
    Copied,
    Denied,
    Opposite,
    WithConstant7,
    Tightened,
}

fn made(alloc: Global, row: &Row, way: Way) -> Result<Row, RowFault> {
    match way {
        Way::Copied => Ok(row.copy(alloc)?),
        Way::Denied => row.deny(alloc),
        Way::Opposite => Ok(row.opposite(alloc)?),
        Way::WithConstant7 => Ok(row.with_constant(alloc, 7)?),
        Way::Tightened => Ok(row.tighten(alloc)?),
    }
}

#[test]
fn rows_are_made_of_one(rt: HostRuntime) -> Result<(), Fail> {
    for (coefficients, constant, way, numbers, number) in [
        ([1].as_slice(), -5, Way::Copied, [1].as_slice(), -5),
        (&[1], -5, Way::Denied, &[-1], 6),
        (&[1], -5, Way::Opposite, &[-1], 5),
        (&[1], -5, Way::WithConstant7, &[1], 7),
        (&[2], -1, Way::Tightened, &[1], 0),
        (&[-2], 1, Way::Tightened, &[-1], 1),
        (&[6, -4], -5, Way::Tightened, &[3, -2], -2),
        (&[0], 7, Way::Tightened, &[0], 7),
    ] {
        let given = row(rt.alloc(), coefficients, constant)?;
        let row = made(rt.alloc(), &given, way)?;
        assert!(rt; is(&row, numbers, number));
    }
    Ok(())
}

/// `x - 5` and `6 - x`.
#[test]
fn rows_are_made_of_two(rt: HostRuntime) -> Result<(), Fail> {
    let five = row(rt.alloc(), &[1], -5)?;
    let six = row(rt.alloc(), &[-1], 6)?;
    assert!(rt; is(&five.add(rt.alloc(), &six)?, &[0], 1));
    assert!(rt; is(&Row::at_most(rt.alloc(), 0, &five, &six)?, &[1], -5));
    Ok(())
}

fn composed(alloc: Global, outer: &Row, term: Row) -> Result<Row, RowFault>
    requires { columns outer.now ≡ 1 }
{
    let mut terms = Vec::new(alloc);
    terms.push(term)?;
    outer.compose(alloc, &terms)
}

#[test]
fn terms_are_put_in(rt: HostRuntime) -> Result<(), Fail> {
    let five = row(rt.alloc(), &[1], -5)?;
    let next = row(rt.alloc(), &[1], 1)?;
    assert!(rt; is(&composed(rt.alloc(), &five, next)?, &[1], -4));
    Ok(())
}

/// The sum of the first row twice and the second.
fn total_of(alloc: Global, first: &Row, second: &Row) -> Result<Option<Row>, Fail>
    requires first { columns first.now ≡ 2 }
    requires second { columns second.now ≡ 2 }
{
    let mut total = Total::new(alloc, 2)?;
    total.add(first);
    total.add(first);
    total.add(second);
    Ok(total.into_row(alloc)?)
}

fn is_some(row: &Option<Row>, coefficients: &[i64], constant: i128) -> bool {
    match row {
        Some(row) => is(row, coefficients, constant),
        None => false,
    }
}

#[test]
fn a_total_may_be_wide_on_the_way(rt: HostRuntime) -> Result<(), Fail> {
    let most = row(rt.alloc(), &[MOST, 1], 2)?;
    let other = row(rt.alloc(), &[-MOST, 1], 3)?;
    let sum = total_of(rt.alloc(), &most, &other)?;
    assert!(rt; is_some(&sum, &[MOST as i64, 3], 7));
    Ok(())
}

fn holds(row: &Row, values: &[i128]) -> Option<bool> {
    if row.columns() as usize == values.len() {
        row.holds(values)
    } else {
        None
    }
}

#[test]
fn values_are_tested(rt: HostRuntime) -> Result<(), Fail> {
    for (coefficients, constant, values, met) in [
        ([1].as_slice(), -5, [5].as_slice(), Some(true)),
        (&[1], -5, &[6], Some(false)),
        (&[MOST; 8], 0, &[MOST; 8], Some(false)),
        (&[MOST; 9], 0, &[MOST; 9], None),
    ] {
        let row = row(rt.alloc(), coefficients, constant)?;
        assert!(rt; holds(&row, values) == met);
    }
    Ok(())
}

fn is_wide_at(made: &Result<Row, RowFault>, place: u32) -> bool {
    matches!(made, Err(RowFault::Wide { column }) if *column == place)
}

#[test]
fn the_first_wide_column_is_named(rt: HostRuntime) -> Result<(), Fail> {
    let most = row(rt.alloc(), &[1, MOST], -MOST)?;
    let more = row(rt.alloc(), &[1, 1], -1)?;
    assert!(rt; is_wide_at(&most.deny(rt.alloc()), 2));
    assert!(rt; is_wide_at(&most.add(rt.alloc(), &more), 1));
    assert!(rt; is_wide_at(&Row::number(rt.alloc(), 3, MOST + 1), 3));
    Ok(())
}

#[test]
fn a_composed_row_may_be_wide(rt: HostRuntime) -> Result<(), Fail> {
    let double = row(rt.alloc(), &[2], 0)?;
    let term = row(rt.alloc(), &[1, MOST], MOST)?;
    assert!(rt; is_wide_at(&composed(rt.alloc(), &double, term), 1));
    Ok(())
}
