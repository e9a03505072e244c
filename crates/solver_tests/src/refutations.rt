use crate::tables::{CORNER, HALF, LARGE, MINUS_HALF, Numbers, PARITY, are_even, rows_of};
use std::test::Fail;
use tv_farkas::{Refuted, refute};
use tv_linear::Row;
use tv_simplex::SolveFault;

/// What `refute` is to give.
#[derive(Drop)]
enum Wanted {
    Multipliers(&'static [i128]),
    Point(&'static [i128], i128),
    Width(u32, u32),
    Pivots(u64),
}

fn is_refuted(wanted: &Wanted, found: &Result<Refuted, SolveFault>) -> bool {
    match (wanted, found) {
        (Wanted::Multipliers(numbers), Ok(Refuted::Empty { multipliers })) => {
            multipliers.as_slice() == *numbers
        }
        (Wanted::Point(numbers, over), Ok(Refuted::Point { values, scale })) => {
            values.as_slice() == *numbers && scale == over
        }
        (Wanted::Width(i, j), Err(SolveFault::Width { row, column, .. })) => row == i
            && column == j,
        (Wanted::Pivots(count), Err(SolveFault::Pivots { bases })) => bases == count,
        _ => false,
    }
}

#[test]
fn rows_are_refuted(rt: HostRuntime) -> Result<(), Fail> {
    let cases: [(u32, &[Numbers], u64, Wanted); 10] = [
        (1, HALF, 99, Wanted::Point(&[1], 2)),
        (1, HALF, 1, Wanted::Pivots(1)),
        (1, MINUS_HALF, 99, Wanted::Point(&[-1], 2)),
        (
            1,
            &[(&[1], 0), (&[-1], 1)],
            99,
            Wanted::Multipliers(&[1, 1]),
        ),
        (2, CORNER, 99, Wanted::Point(&[3, 3], 1)),
        (3, PARITY, 99, Wanted::Point(&[1, 2, 0], 2)),
        (2, &[], 99, Wanted::Point(&[1, 1], 1)),
        (0, &[(&[], 3)], 99, Wanted::Multipliers(&[1])),
        (0, &[], 99, Wanted::Point(&[], 1)),
        (1, LARGE, 99, Wanted::Width(0, 0)),
    ];
    for (columns, table, pivots, wanted) in &cases {
        let rows = rows_of(&rt, rt.alloc(), table)?;
        assert!(rt; are_even(&rows, *columns));
        assert!(rt; *columns < 2000);
        assert!(rt; is_refuted(wanted, &refute(rt.alloc(), &rows, *columns, *pivots)));
    }
    Ok(())
}

#[test]
fn large_systems_are_refused(rt: HostRuntime) -> Result<(), Fail> {
    let mut rows = Vec::new(rt.alloc());
    for _ in 0..2001 {
        rows.push(Row::zero(rt.alloc(), 1999)?)?;
    }
    assert!(rt; are_even(&rows, 1999));
    assert!(rt;
        matches!(
            refute(rt.alloc(), &rows, 1999, 99),
            Err(SolveFault::Size {
                rows: 2000,
                columns: 2001
            })
        )
    );
    Ok(())
}
