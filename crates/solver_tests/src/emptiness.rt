use crate::tables::{
    CORNER, HALF, LARGE, MINUS_HALF, Numbers, PARITY, are_even, is_leaf, is_row, rows_of,
};
use std::test::Fail;
use tv_cover::{Emptied, empty};
use tv_farkas::{Branch, Budget, CoverFault};
use tv_linear::CoverTree;
use tv_simplex::SolveFault;

/// What `empty` is to give.
#[derive(Drop)]
enum Found {
    Leaf(&'static [i64]),
    /// A split at a row, with the multipliers of each side.
    Sides(Numbers, &'static [i64], &'static [i64]),
    Whole(&'static [i128]),
    Splits(&'static [Numbers]),
    Solve(usize),
}

fn is_path(path: &[Branch], rows: &[Numbers]) -> bool {
    path.len() == rows.len()
        && path.iter().zip(rows).all(|(branch, row)| branch.point.is_some()
            && is_row(&branch.row, row))
}

fn is_found(wanted: &Found, found: &Result<Emptied, CoverFault>) -> bool {
    match (wanted, found) {
        (Found::Leaf(numbers), Ok(Emptied::Tree(cover))) => is_leaf(cover.tree(), numbers),
        (Found::Sides(at, low, high), Ok(Emptied::Tree(cover))) => match cover.tree() {
            CoverTree::Split(row, holds, fails) => {
                is_row(row, at) && is_leaf(holds, low) && is_leaf(fails, high)
            }
            _ => false,
        },
        (Found::Whole(numbers), Ok(Emptied::Whole(values))) => values.as_slice() == *numbers,
        (Found::Splits(rows), Err(CoverFault::Splits { path })) => is_path(path, rows),
        (Found::Solve(count), Err(CoverFault::Solve { rows, fault })) => {
            rows.len() == *count && matches!(fault, SolveFault::Width { .. })
        }
        _ => false,
    }
}

const REPEATED: &[Numbers] = &[(&[1], 0), (&[1], 0), (&[-1], 1)];

const UPPER: &[Numbers] = &[(&[-3, -3], -3), (&[-2, 0], 3)];

#[test]
fn whole_points_are_found(rt: HostRuntime) -> Result<(), Fail> {
    let cases: [(u32, &[Numbers], u32, Found); 9] = [
        (1, HALF, 4, Found::Sides((&[1], 0), &[0, 1, 2], &[1, 0, 2])),
        (1, HALF, 0, Found::Splits(&[])),
        (
            1,
            MINUS_HALF,
            4,
            Found::Sides((&[1], 1), &[0, 1, 2], &[1, 0, 2]),
        ),
        (1, REPEATED, 1, Found::Leaf(&[1, 0, 1])),
        (2, CORNER, 4, Found::Whole(&[3, 3])),
        (2, UPPER, 4, Found::Whole(&[2, 2])),
        (
            3,
            PARITY,
            3,
            Found::Splits(&[(&[1, 0, 0], 0), (&[0, 0, 1], 1), (&[1, 0, 0], 1)]),
        ),
        (2, &[], 1, Found::Whole(&[1, 1])),
        (1, LARGE, 3, Found::Solve(1)),
    ];
    for (columns, table, splits, wanted) in &cases {
        let rows = rows_of(&rt, rt.alloc(), table)?;
        assert!(rt; are_even(&rows, *columns));
        assert!(rt; *columns < 2000 && *splits <= 128);
        let budget = Budget {
            pivots: 99,
            splits: *splits,
            disjuncts: 1,
        };
        assert!(rt; is_found(wanted, &empty(rt.alloc(), &rows, *columns, &budget)));
    }
    Ok(())
}
