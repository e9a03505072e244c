use crate::questions::{Question, is_answered};
use crate::wanted::Wanted;
use std::test::Fail;

/// Down to 0.
const DOWN: &str = "START: 0; FROM: 0; assume(x > 0); x := x - 1; TO: 0;";

/// Up or down.
const BRANCH: &str =
    "START: 0; FROM: 0; assume(x > 0); x := x + 1; TO: 0; FROM: 0; assume(x <= 0); x := x - 1; TO: 0;";

/// Half of `x`, where it is even.
const HALF: &str = "START: 0; FROM: 0; d := nondet(); assume(2*d == x); TO: 1;";

/// Three times `x`.
const TRIPLE: &str = "START: 0; FROM: 0; x := 3*x; TO: 0;";

/// 2^62 - 1.
const MOST: i128 = 4611686018427387903;

const SPLITS_ARE_COUNTED: &[Question] = &[
    Question {
        text: BRANCH,
        ambient: &[],
        into: &[(0, &[])],
        stop: false,
        splits: 0,
        pivots: 999,
        wanted: Wanted::Splits(0),
    },
    Question {
        text: BRANCH,
        ambient: &[],
        into: &[(0, &[])],
        stop: false,
        splits: 1,
        pivots: 999,
        wanted: Wanted::Depth(1),
    },
    Question {
        text: BRANCH,
        ambient: &[],
        into: &[(0, &[])],
        stop: false,
        splits: 128,
        pivots: 999,
        wanted: Wanted::Depth(1),
    },
    Question {
        text: DOWN,
        ambient: &[(&[-1], 0)],
        into: &[(0, &[(&[-1], 0)])],
        stop: true,
        splits: 0,
        pivots: 999,
        wanted: Wanted::Splits(0),
    },
    Question {
        text: HALF,
        ambient: &[(&[0, 1], -7), (&[0, -1], 7)],
        into: &[(1, &[])],
        stop: false,
        splits: 0,
        pivots: 999,
        wanted: Wanted::Splits(0),
    },
];

#[test]
fn splits_are_counted(rt: HostRuntime) -> Result<(), Fail> {
    for question in SPLITS_ARE_COUNTED {
        assert!(rt; is_answered(rt.alloc(), question)?);
    }
    Ok(())
}

const NO_PIVOT_IS_MADE: &[Question] = &[Question {
    text: DOWN,
    ambient: &[(&[-1], 0), (&[-1], 0), (&[1], -9)],
    into: &[(0, &[])],
    stop: false,
    splits: 4,
    pivots: 0,
    wanted: Wanted::Solve(2),
}];

#[test]
fn no_pivot_is_made(rt: HostRuntime) -> Result<(), Fail> {
    for question in NO_PIVOT_IS_MADE {
        assert!(rt; is_answered(rt.alloc(), question)?);
    }
    Ok(())
}

const A_ROW_IS_TOO_WIDE: &[Question] = &[
    Question {
        text: TRIPLE,
        ambient: &[],
        into: &[(0, &[(&[MOST], 0)])],
        stop: false,
        splits: 4,
        pivots: 999,
        wanted: Wanted::Wide(0),
    },
    Question {
        text: TRIPLE,
        ambient: &[],
        into: &[(0, &[(&[1], -MOST)])],
        stop: false,
        splits: 4,
        pivots: 999,
        wanted: Wanted::Wide(1),
    },
];

#[test]
fn a_row_is_too_wide(rt: HostRuntime) -> Result<(), Fail> {
    for question in A_ROW_IS_TOO_WIDE {
        assert!(rt; is_answered(rt.alloc(), question)?);
    }
    Ok(())
}
