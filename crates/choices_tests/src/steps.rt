use crate::questions::{Question, is_answered};
use crate::wanted::Wanted;
use std::test::Fail;

/// `x` stays, and any `y`.
const ANY: &str = "START: 0; FROM: 0; x := x; y := nondet(); TO: 1;";

/// Half of `x`, where it is even.
const HALF: &str = "START: 0; FROM: 0; d := nondet(); assume(2*d == x); TO: 1;";

/// Up or down.
const BRANCH: &str =
    "START: 0; FROM: 0; assume(x > 0); x := x + 1; TO: 0; FROM: 0; assume(x <= 0); x := x - 1; TO: 0;";

/// Down to 0.
const DOWN: &str = "START: 0; FROM: 0; assume(x > 0); x := x - 1; TO: 0;";

/// Two draws.
const TWO: &str = "START: 0; FROM: 0; x := nondet(); y := nondet(); assume(y > x); TO: 1;";

/// `x` stays, and any `y` and `z`.
const THREE: &str = "START: 0; FROM: 0; x := x; y := nondet(); z := nondet(); TO: 1;";

/// No step from location 0.
const NONE: &str = "START: 0; FROM: 1; x := x; TO: 0;";

const A_DRAW_IS_A_TERM: &[Question] = &[Question {
    text: ANY,
    ambient: &[],
    into: &[(1, &[(&[-1, 1], -5), (&[1, -1], 5)])],
    stop: false,
    splits: 4,
    pivots: 999,
    wanted: Wanted::Take(0, 0, &[(&[1, 0], 5)]),
}];

#[test]
fn a_draw_is_a_term(rt: HostRuntime) -> Result<(), Fail> {
    for question in A_DRAW_IS_A_TERM {
        assert!(rt; is_answered(rt.alloc(), question)?);
    }
    Ok(())
}

const A_DRAW_IS_NOT_ROUNDED: &[Question] = &[
    Question {
        text: HALF,
        ambient: &[(&[1, 0], 0), (&[-1, 0], 0), (&[0, 1], -7), (&[0, -1], 7)],
        into: &[(1, &[])],
        stop: false,
        splits: 16,
        pivots: 999,
        wanted: Wanted::Hole(&[0, 7]),
    },
    Question {
        text: HALF,
        ambient: &[(&[0, 1], -4), (&[0, -1], 4)],
        into: &[(1, &[])],
        stop: false,
        splits: 8,
        pivots: 999,
        wanted: Wanted::Take(0, 0, &[(&[0, 0], 2)]),
    },
];

#[test]
fn a_draw_is_not_rounded(rt: HostRuntime) -> Result<(), Fail> {
    for question in A_DRAW_IS_NOT_ROUNDED {
        assert!(rt; is_answered(rt.alloc(), question)?);
    }
    Ok(())
}

const TWO_DRAWS_ARE_TERMS: &[Question] = &[
    Question {
        text: TWO,
        ambient: &[],
        into: &[(1, &[(&[-1, 0], 3), (&[0, 1], -4)])],
        stop: false,
        splits: 8,
        pivots: 999,
        wanted: Wanted::Take(0, 0, &[(&[0, 0], 3), (&[0, 0], 4)]),
    },
    Question {
        text: THREE,
        ambient: &[],
        into: &[(
            1,
            &[
                (&[-1, 1, 0], -5),
                (&[1, -1, 0], 5),
                (&[-1, 0, 1], 2),
                (&[1, 0, -1], -2),
            ],
        )],
        stop: false,
        splits: 0,
        pivots: 999,
        wanted: Wanted::Take(0, 0, &[(&[1, 0, 0], 5), (&[1, 0, 0], -2)]),
    },
];

#[test]
fn two_draws_are_terms(rt: HostRuntime) -> Result<(), Fail> {
    for question in TWO_DRAWS_ARE_TERMS {
        assert!(rt; is_answered(rt.alloc(), question)?);
    }
    Ok(())
}

const EACH_CASE_SERVES_A_PART: &[Question] = &[
    Question {
        text: BRANCH,
        ambient: &[],
        into: &[(0, &[(&[-1], 2)]), (0, &[(&[1], 1)])],
        stop: false,
        splits: 4,
        pivots: 999,
        wanted: Wanted::Sides((&[1], 0), 1, 0),
    },
    Question {
        text: BRANCH,
        ambient: &[(&[-1], 1)],
        into: &[(0, &[(&[1], 0)]), (0, &[(&[-1], 1)])],
        stop: false,
        splits: 4,
        pivots: 999,
        wanted: Wanted::Take(0, 1, &[]),
    },
    Question {
        text: BRANCH,
        ambient: &[],
        into: &[(0, &[(&[-1], 2)])],
        stop: false,
        splits: 4,
        pivots: 999,
        wanted: Wanted::Hole(&[0]),
    },
];

#[test]
fn each_case_serves_a_part(rt: HostRuntime) -> Result<(), Fail> {
    for question in EACH_CASE_SERVES_A_PART {
        assert!(rt; is_answered(rt.alloc(), question)?);
    }
    Ok(())
}

const A_STATE_MAY_STOP_OR_NOT: &[Question] = &[
    Question {
        text: DOWN,
        ambient: &[],
        into: &[(0, &[])],
        stop: true,
        splits: 4,
        pivots: 999,
        wanted: Wanted::StopOrSide((&[1], 0), 0),
    },
    Question {
        text: DOWN,
        ambient: &[(&[-1], 0)],
        into: &[(0, &[])],
        stop: false,
        splits: 4,
        pivots: 999,
        wanted: Wanted::Hole(&[0]),
    },
    Question {
        text: DOWN,
        ambient: &[(&[-1], 0)],
        into: &[(0, &[(&[-1], 1)])],
        stop: true,
        splits: 4,
        pivots: 999,
        wanted: Wanted::Hole(&[1]),
    },
];

#[test]
fn a_state_may_stop_or_not(rt: HostRuntime) -> Result<(), Fail> {
    for question in A_STATE_MAY_STOP_OR_NOT {
        assert!(rt; is_answered(rt.alloc(), question)?);
    }
    Ok(())
}

const THERE_MAY_BE_NO_CASE_OR_NO_PIECE: &[Question] = &[
    Question {
        text: NONE,
        ambient: &[(&[1], -5), (&[-1], 5)],
        into: &[(0, &[])],
        stop: true,
        splits: 0,
        pivots: 999,
        wanted: Wanted::NoStep(0),
    },
    Question {
        text: NONE,
        ambient: &[(&[1], -5), (&[-1], 5)],
        into: &[(0, &[])],
        stop: false,
        splits: 0,
        pivots: 999,
        wanted: Wanted::Hole(&[5]),
    },
    Question {
        text: DOWN,
        ambient: &[(&[1], -5), (&[-1], 5)],
        into: &[],
        stop: false,
        splits: 0,
        pivots: 999,
        wanted: Wanted::Hole(&[5]),
    },
    Question {
        text: DOWN,
        ambient: &[(&[1], 5)],
        into: &[],
        stop: true,
        splits: 0,
        pivots: 999,
        wanted: Wanted::NoStep(1),
    },
];

#[test]
fn there_may_be_no_case_or_no_piece(rt: HostRuntime) -> Result<(), Fail> {
    for question in THERE_MAY_BE_NO_CASE_OR_NO_PIECE {
        assert!(rt; is_answered(rt.alloc(), question)?);
    }
    Ok(())
}

const AN_EMPTY_PIECE_HAS_A_LEAF: &[Question] = &[Question {
    text: DOWN,
    ambient: &[(&[1], 0), (&[-1], 1), (&[1], 0)],
    into: &[],
    stop: false,
    splits: 0,
    pivots: 999,
    wanted: Wanted::Empty,
}];

#[test]
fn an_empty_piece_has_a_leaf(rt: HostRuntime) -> Result<(), Fail> {
    for question in AN_EMPTY_PIECE_HAS_A_LEAF {
        assert!(rt; is_answered(rt.alloc(), question)?);
    }
    Ok(())
}
