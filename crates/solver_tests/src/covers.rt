use crate::tables::{HALF, LARGE, Numbers, PARITY, is_leaf, is_row, rows_of};
use std::alloc::Global;
use std::process::Abort;
use std::test::Fail;
use tv_cover::{Covered, are_even, cover, cover_one, is_even};
use tv_farkas::{Branch, Budget, CoverFault};
use tv_linear::{CoverTree, Poly};
use tv_simplex::SolveFault;

/// What `cover` is to give.
#[derive(Drop)]
enum Wanted {
    Empty(&'static [i64]),
    /// The target, and the multipliers of its one row.
    Into(u32, &'static [i64]),
    /// The target, which has no rows.
    IntoAll(u32),
    /// A split at a row, with the target of each side.
    Split(Numbers, u32, u32),
    Hole(&'static [i128]),
    /// A tree with this many splits on its longest path.
    Depth(u32),
    /// The rows of the path, without points.
    Splits(&'static [Numbers]),
    /// The rows of the path, each with its point.
    Coordinates(&'static [Numbers]),
    Solve(usize),
    Wide(u32),
}

fn is_into(tree: &CoverTree, number: u32) -> bool {
    match tree {
        CoverTree::Into { target, fall, .. } => *target == number && *fall == 0,
        _ => false,
    }
}

/// The splits on the longest path.
fn depth(tree: &CoverTree) -> u32 {
    match tree {
        CoverTree::Split(_, holds, fails) => depth(holds).max(depth(fails)).saturating_add(1),
        _ => 0,
    }
}

fn is_tree(wanted: &Wanted, tree: &CoverTree) -> bool {
    match (wanted, tree) {
        (Wanted::Empty(numbers), _) => is_leaf(tree, numbers),
        (Wanted::Depth(wanted), _) => depth(tree) == *wanted,
        (
            Wanted::Into(number, numbers),
            CoverTree::Into {
                target,
                fall: 0,
                refutations,
            },
        ) => target == number && refutations.len() == 1 && refutations[0].as_slice() == *numbers,
        (
            Wanted::IntoAll(number),
            CoverTree::Into {
                target,
                fall: 0,
                refutations,
            },
        ) => target == number && refutations.is_empty(),
        (Wanted::Split(at, first, second), CoverTree::Split(row, holds, fails)) => {
            is_row(row, at) && is_into(holds, *first) && is_into(fails, *second)
        }
        _ => false,
    }
}

fn is_path(path: &[Branch], rows: &[Numbers], kept: bool) -> bool {
    path.len() == rows.len()
        && path.iter().zip(rows).all(|(branch, row)| branch.point.is_some() == kept
            && is_row(&branch.row, row))
}

fn is_wanted(wanted: &Wanted, found: &Result<Covered, CoverFault>) -> bool {
    match (wanted, found) {
        (Wanted::Hole(numbers), Ok(Covered::Hole(values))) => values.as_slice() == *numbers,
        (Wanted::Splits(rows), Err(CoverFault::Splits { path })) => is_path(path, rows, false),
        (Wanted::Coordinates(rows), Err(CoverFault::Splits { path })) => is_path(path, rows, true),
        (Wanted::Solve(count), Err(CoverFault::Solve { rows, fault })) => {
            rows.len() == *count && matches!(fault, SolveFault::Width { .. })
        }
        (Wanted::Wide(wide), Err(CoverFault::Wide { column })) => column == wide,
        (_, Ok(Covered::Tree(cover))) => is_tree(wanted, cover.tree()),
        _ => false,
    }
}

/// A question: how many columns, the rows, the targets, how many splits, and what is to come.
type Question = (
    u32,
    &'static [Numbers],
    &'static [&'static [Numbers]],
    u32,
    Wanted,
);

const UP_TO_0: &[Numbers] = &[(&[1], 0)];

const FROM_1: &[Numbers] = &[(&[-1], 1)];

const FROM_2: &[Numbers] = &[(&[-1], 2)];

const CORNER: &[Numbers] = &[(&[-1, 0], 0), (&[0, -1], 0)];

const ABOVE_LINE: &[Numbers] = &[(&[-1, -1], 0)];

const SMALL_X: &[Numbers] = &[(&[1, 0], -3)];

const SMALL_Y: &[Numbers] = &[(&[0, 1], -3)];

const WIDE: &[Numbers] = &[(&[1], -4611686018427387903)];

const NONE: &[Numbers] = &[];

const NOWHERE: &[Numbers] = &[(&[1], 0), (&[-1], 1)];

const TWICE: &[Numbers] = &[(&[1], 0), (&[1], 0), (&[-1], -5)];

const NO_TARGETS: &[&[Numbers]] = &[];

const NEXT_TO: &[&[Numbers]] = &[UP_TO_0, FROM_1];

const APART: &[&[Numbers]] = &[UP_TO_0, FROM_2];

const TURNED: &[&[Numbers]] = &[FROM_2, UP_TO_0];

const ALL: &[&[Numbers]] = &[NONE];

const LINE: &[&[Numbers]] = &[ABOVE_LINE];

const SMALL: &[&[Numbers]] = &[SMALL_X, SMALL_Y];

const TO_WIDE: &[&[Numbers]] = &[WIDE];

const TO_0: &[&[Numbers]] = &[UP_TO_0];

const TO_LARGE: &[&[Numbers]] = &[LARGE];

const PAIR: &[Numbers] = &[(&[2, -2], -1), (&[-2, 2], 1)];

const BOUNDED: &[Numbers] = &[
    (&[2, -1, 0], 0),
    (&[-2, 1, 0], 0),
    (&[0, -1, 2], 1),
    (&[0, 1, -2], -1),
    (&[-1, 0, 0], 0),
    (&[1, 0, 0], -1),
];

fn poly(rt: &impl Abort, alloc: Global, columns: u32, table: &[Numbers]) -> Result<Poly, Fail> {
    let rows = rows_of(rt, alloc, table)?;
    Ok(Poly { columns, rows })
}

fn polys(
    rt: &impl Abort,
    alloc: Global,
    columns: u32,
    tables: &[&'static [Numbers]],
) -> Result<Vec<Poly>, Fail> {
    let mut polys = Vec::new(alloc);
    for table in tables {
        polys.push(poly(rt, alloc, columns, table)?)?;
    }
    Ok(polys)
}

fn is_met(
    rt: &impl Abort,
    alloc: Global,
    ambient: &Poly,
    targets: &[Poly],
    question: &Question,
) -> bool {
    assert!(rt; is_even(&ambient.rows, ambient.columns));
    assert!(rt; are_even(targets, ambient.columns));
    assert!(rt; ambient.columns < 2000 && question.3 <= 128 && targets.len() < 2000);
    let budget = Budget {
        pivots: 99,
        splits: question.3,
        disjuncts: 1,
    };
    is_wanted(&question.4, &cover(alloc, ambient, targets, &budget))
}

fn holds(rt: &impl Abort, alloc: Global, question: &Question) -> Result<bool, Fail> {
    let ambient = poly(rt, alloc, question.0, question.1)?;
    let targets = polys(rt, alloc, question.0, question.2)?;
    Ok(is_met(rt, alloc, &ambient, &targets, question))
}

#[test]
fn rows_are_covered(rt: HostRuntime) -> Result<(), Fail> {
    let cases: [Question; 23] = [
        // One column without rows, into `x <= 0` and `x >= 1`.
        (1, NONE, NEXT_TO, 4, Wanted::Split((&[-1], 1), 1, 0)),
        (1, NONE, NEXT_TO, 1, Wanted::Split((&[-1], 1), 1, 0)),
        (1, NONE, NEXT_TO, 128, Wanted::Split((&[-1], 1), 1, 0)),
        (1, NONE, NEXT_TO, 0, Wanted::Splits(&[])),
        // Into `x <= 0` and `x >= 2`.
        (1, NONE, APART, 4, Wanted::Hole(&[1])),
        (1, NONE, APART, 128, Wanted::Hole(&[1])),
        (1, NONE, APART, 1, Wanted::Splits(&[(&[-1], 1)])),
        (1, FROM_1, NEXT_TO, 4, Wanted::Into(1, &[1, 1])),
        // No target.
        (1, NOWHERE, NO_TARGETS, 4, Wanted::Empty(&[1, 1])),
        (1, NOWHERE, NO_TARGETS, 0, Wanted::Empty(&[1, 1])),
        (1, FROM_2, NO_TARGETS, 4, Wanted::Hole(&[2])),
        // Rows that repeat.
        (1, TWICE, TO_0, 4, Wanted::Into(0, &[1, 0, 0, 1])),
        (1, HALF, TURNED, 4, Wanted::Into(1, &[1, 0, 2])),
        // A target without rows.
        (2, NONE, ALL, 4, Wanted::IntoAll(0)),
        (2, CORNER, LINE, 4, Wanted::Into(0, &[1, 1, 1])),
        (2, CORNER, SMALL, 4, Wanted::Hole(&[4, 4])),
        // A row that is wide when it is denied.
        (1, NONE, TO_WIDE, 4, Wanted::Wide(1)),
        (1, NOWHERE, TO_WIDE, 4, Wanted::Empty(&[1, 1])),
        (1, LARGE, TO_0, 4, Wanted::Solve(1)),
        (1, NONE, TO_LARGE, 4, Wanted::Solve(1)),
        // An even number is no odd one.
        (
            2,
            PAIR,
            NO_TARGETS,
            2,
            Wanted::Coordinates(&[(&[0, 1], 0), (&[1, 0], 0)]),
        ),
        (
            3,
            PARITY,
            NO_TARGETS,
            3,
            Wanted::Coordinates(&[(&[1, 0, 0], 0), (&[0, 0, 1], 1), (&[1, 0, 0], 1)]),
        ),
        (3, BOUNDED, NO_TARGETS, 8, Wanted::Depth(2)),
    ];
    for (place, question) in cases.iter().enumerate() {
        assert!(rt; holds(&rt, rt.alloc(), question)?, "case {place}");
    }
    Ok(())
}

/// Whether the rows over one column are covered by those of one target.
fn is_covered(
    rt: &impl Abort,
    alloc: Global,
    rows: &'static [Numbers],
    target: &'static [Numbers],
) -> Result<bool, Fail> {
    let ambient = poly(rt, alloc, 1, rows)?;
    let target = rows_of(rt, alloc, target)?;
    assert!(rt; is_even(&ambient.rows, ambient.columns) && is_even(&target, ambient.columns));
    assert!(rt; ambient.columns < 2000);
    let budget = Budget {
        pivots: 99,
        splits: 4,
        disjuncts: 1,
    };
    match cover_one(alloc, &ambient, target, &budget) {
        Ok(Covered::Tree(_)) => Ok(true),
        Ok(Covered::Hole(_)) => Ok(false),
        Err(_) => Err(Fail::from("refused")),
    }
}

#[test]
fn rows_are_covered_by_one_target(rt: HostRuntime) -> Result<(), Fail> {
    assert!(rt; is_covered(&rt, rt.alloc(), FROM_2, FROM_1)?);
    assert!(rt; !is_covered(&rt, rt.alloc(), FROM_1, FROM_2)?);
    Ok(())
}
