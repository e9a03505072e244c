//! What is proved of formulas, or why nothing is.

use crate::claims::{Asks, is_said_of_texts};
use crate::programs::{
    BESIDE, BOTH_WAYS, CHAIN, CLIMBER, DRAWN, DRAWN_BESIDE, DRAWS, EMPTY, FALLING, HALF, HALVES,
    IDLE, LEAVING, LOOP, RESTING, STEP,
};
use std::test::Fail;
use tv_cert::{Claim, Verdict};
use tv_farkas::{Budget, CoverFault};
use tv_pre::{Gap, PreFault, Setting, Unproved, prove};
use tv_rank::Name;
use tv_region::RegionFault;
use tv_shape::Certificate;
use tv_simplex::SolveFault;

const AMPLE: Budget = Budget {
    pivots: 1000,
    splits: 64,
    disjuncts: 256,
};

/// For one piece at a location.
const ONE: Budget = Budget {
    pivots: 1000,
    splits: 64,
    disjuncts: 1,
};

/// Without a split.
const UNSPLIT: Budget = Budget {
    pivots: 1000,
    splits: 0,
    disjuncts: 256,
};

/// Enough for a question, and not for ranks.
const HASTY: Budget = Budget {
    pivots: 4,
    splits: 64,
    disjuncts: 256,
};

/// What is to come of a formula.
#[derive(Clone, Copy)]
enum Wanted {
    Proved,
    Disproved,
    /// Going back is not exact.
    Inexact,
    /// The subformula with this number is left open.
    Open(u32),
    /// The comparison with this number has no rows.
    Wide(u32),
    /// This location has this many pieces, more than is allowed.
    Pieces(u32, u64),
    /// A question takes more splits than are allowed.
    Splits,
    /// A system of the search for ranks is not settled by this many bases.
    Ranks(u64),
}

/// Whether it is left as is wanted.
fn is_left(wanted: &Wanted, why: &Unproved) -> bool {
    match (wanted, why) {
        (Wanted::Inexact, Unproved::Left(Gap::Inexact)) => true,
        (Wanted::Open(number), Unproved::Left(Gap::Open { place })) => number == place,
        (Wanted::Wide(number), Unproved::Wide { place }) => number == place,
        _ => false,
    }
}

/// Whether it is refused as is wanted.
fn is_refused(wanted: &Wanted, fault: &PreFault) -> bool {
    match (wanted, fault) {
        (
            Wanted::Pieces(there, many),
            PreFault::Region {
                fault: RegionFault::Disjuncts { location, count },
            },
        ) => there == location && many == count,
        (
            Wanted::Splits,
            PreFault::Cover {
                fault: CoverFault::Splits { .. },
            },
        ) => true,
        (
            Wanted::Ranks(many),
            PreFault::Rank {
                system: Name::Rank { .. },
                fault: SolveFault::Pivots { bases },
            },
        ) => many == bases,
        _ => false,
    }
}

/// Whether the certificate says what is wanted.
fn is_settled(wanted: &Wanted, certificate: &Certificate) -> bool {
    match (wanted, certificate.verdict()) {
        (Wanted::Proved, Verdict::Proved(_)) => true,
        (Wanted::Disproved, Verdict::Disproved { .. }) => true,
        _ => false,
    }
}

impl Asks for Wanted {
    fn is_answered(&self, setting: &Setting, claim: &Claim) -> bool {
        match prove(setting, claim) {
            Ok(certificate) => is_settled(self, &certificate),
            Err(Unproved::Refused(fault)) => is_refused(self, &fault),
            Err(why) => is_left(self, &why),
        }
    }
}

/// A program, a formula, and what is to come of it.
type Example = (&'static str, &'static str, Wanted);

/// Atoms, what is made of them, and the next states.
const STATES: &[Example] = &[
    (EMPTY, "at(0)", Wanted::Proved),
    (EMPTY, "!at(0)", Wanted::Disproved),
    (LOOP, "x > 0 || x <= 0", Wanted::Proved),
    (LOOP, "at(0) && x > 0", Wanted::Disproved),
    (STEP, "[AX](at(1))", Wanted::Proved),
    (STEP, "[EX](x == 1 || x == 3)", Wanted::Disproved),
    (EMPTY, "[AX](false)", Wanted::Proved),
    (EMPTY, "[EX](true)", Wanted::Disproved),
    (DRAWN, "[EX](x == 7)", Wanted::Proved),
];

/// Fixed points, by rounds and by ranks.
const PATHS: &[Example] = &[
    (LOOP, "[AF](x <= 0)", Wanted::Proved),
    (LOOP, "[AF](x < 0)", Wanted::Disproved),
    (LOOP, "[EU](x > 3)(x <= 0)", Wanted::Disproved),
    (LOOP, "[AG](x >= 0)", Wanted::Disproved),
    (LOOP, "[EG](true)", Wanted::Proved),
    (CLIMBER, "[AG](x >= 0)", Wanted::Disproved),
    (CLIMBER, "[EG](x > 0)", Wanted::Disproved),
    (CLIMBER, "x <= 0 || [EG](x > 0)", Wanted::Proved),
    (CHAIN, "[AF](at(1))", Wanted::Proved),
    (CHAIN, "[EF](at(2))", Wanted::Disproved),
    (CHAIN, "x <= 0 || [AF](at(2))", Wanted::Proved),
    (DRAWN, "[EF](x == 7)", Wanted::Proved),
    (DRAWN, "[AF](x < 0)", Wanted::Disproved),
];

/// Weak untils that the last round leaves open. By itself, or in an until, one has the states at its end, and so it has in a weak until that
/// settles with them. In another weak until it has none, so that the outer one settles: with the states from 10 on its rounds would go on
/// shrinking.
const OPEN_INSIDE: &[Example] = &[
    (FALLING, "x < 10 || [AW](x > 0)(x >= 10)", Wanted::Proved),
    (
        FALLING,
        "x < 10 || [AF]([AW](x > 0)(x >= 10))",
        Wanted::Proved,
    ),
    (
        FALLING,
        "y <= 0 || [AG](y > 0 || [AW](x > 0)(x >= 10))",
        Wanted::Proved,
    ),
    (
        FALLING,
        "[AG](y > 0 || [AW](x > 0)(x >= 10))",
        Wanted::Disproved,
    ),
    (
        RESTING,
        "[AG](at(0) || [AW](x > 0)(x >= 10))",
        Wanted::Proved,
    ),
];

/// Termination inside formulas, by ranks.
const TERMINATION: &[Example] = &[
    (LOOP, "[AX](term)", Wanted::Proved),
    (LOOP, "[EX](!term)", Wanted::Disproved),
    (CHAIN, "[AX](term)", Wanted::Proved),
    (BOTH_WAYS, "[EX](!term)", Wanted::Disproved),
];

/// Termination inside formulas of programs without a ranking, by rounds.
const ENDLESS: &[Example] = &[
    (LEAVING, "[EF](term)", Wanted::Proved),
    (LEAVING, "[AX](term)", Wanted::Disproved),
    (LEAVING, "[EG](!term)", Wanted::Proved),
    (LEAVING, "[AG](!term)", Wanted::Disproved),
    (IDLE, "[AX](!term)", Wanted::Proved),
    (IDLE, "[EG](!term)", Wanted::Proved),
    (IDLE, "[EF](term)", Wanted::Disproved),
    (CLIMBER, "x <= 0 || [AX](!term)", Wanted::Proved),
    (CLIMBER, "x > 0 || (term && [AG](term))", Wanted::Proved),
    (CLIMBER, "[EF](!term)", Wanted::Disproved),
    (DRAWS, "[EX](term)", Wanted::Proved),
    (DRAWS, "[EX](!term)", Wanted::Proved),
    (DRAWS, "[AX](term)", Wanted::Disproved),
];

/// Arguments that are equal: the second is a copy of the first.
const EQUAL: &[Example] = &[
    (LOOP, "[AF](x <= 0) && [AF](x <= 0)", Wanted::Proved),
    (LOOP, "[AF](x < 0) || [AF](x < 0)", Wanted::Disproved),
    (
        LOOP,
        "[AU](x <= 0 || [AX](term))(x <= 0 || [AX](term))",
        Wanted::Proved,
    ),
    (
        CLIMBER,
        "[EU](x > 0 && [EX](x > 1))(x > 0 && [EX](x > 1))",
        Wanted::Disproved,
    ),
    (LOOP, "term && term", Wanted::Proved),
    (
        BOTH_WAYS,
        "[AF](x == 100) || [AF](x == 100)",
        Wanted::Open(1),
    ),
];

/// Ends on every run of a ranked program, where no state is neither at the end nor on the way: the rows of such states have a rational point,
/// and no whole one. In the last example that takes more splits than there are, and the rounds are open.
const RANKED: &[Example] = &[
    (
        BESIDE,
        "[AF](x <= 0 && (y != z || y + z != 1))",
        Wanted::Proved,
    ),
    (
        BESIDE,
        "[AU](x > 0 || y != z)(x <= 0 && (y != z || y + z != 1))",
        Wanted::Proved,
    ),
    (
        BESIDE,
        "[AF](x <= 0 && (2*y != z || 2*w + 1 != z))",
        Wanted::Splits,
    ),
];

/// Where ranks are not settled by so few bases. In the first three the rounds are open too; in the others the formula is settled without
/// ranks, or its negation is.
const UNRANKED: &[Example] = &[
    (LOOP, "[AF](x <= 0)", Wanted::Ranks(4)),
    (LOOP, "[AX](term)", Wanted::Ranks(4)),
    (LOOP, "[EX](!term)", Wanted::Ranks(4)),
    (LOOP, "[AF](x < 0)", Wanted::Disproved),
    (CLIMBER, "x <= 0 || [AX](!term)", Wanted::Proved),
    (CLIMBER, "x > 0 || (term && [AG](term))", Wanted::Proved),
    (CHAIN, "[AF](at(1))", Wanted::Proved),
    (CHAIN, "[AX](term)", Wanted::Proved),
];

/// What is left open. In the last one some state is neither at the end nor on the way.
const LEFT: &[Example] = &[
    (BOTH_WAYS, "[AF](x == 100)", Wanted::Open(0)),
    (BOTH_WAYS, "x == 100 || [EF](x == 90)", Wanted::Open(2)),
    (CLIMBER, "x <= 0 || [AF](x > 100)", Wanted::Open(2)),
    (HALF, "[EX](at(1))", Wanted::Inexact),
    (LOOP, "[AX](x < 4611686018427387903 + 1)", Wanted::Wide(1)),
    (BOTH_WAYS, "[AX](term)", Wanted::Open(1)),
    (BOTH_WAYS, "x >= 0 || [EX](!term)", Wanted::Open(3)),
    (HALVES, "[AX](term)", Wanted::Inexact),
    (HALVES, "[EX](!term)", Wanted::Inexact),
    (BESIDE, "x <= 0 || [AF](x <= 0 && y != z)", Wanted::Open(2)),
];

/// Where going back over the draw is not exact, that is the cause, whichever part stands first.
const DRAWN_LEFT: &[Example] = &[
    (
        DRAWN_BESIDE,
        "[EG](z > 5) || [EX](3*x >= y && 3*x <= y + 2)",
        Wanted::Inexact,
    ),
    (
        DRAWN_BESIDE,
        "[EX](3*x >= y && 3*x <= y + 2) || [EG](z > 5)",
        Wanted::Inexact,
    ),
];

#[test]
fn states_are_told(rt: HostRuntime) -> Result<(), Fail> {
    for (program, property, wanted) in STATES {
        assert!(rt;
            is_said_of_texts(rt.alloc(), program, property, &AMPLE, wanted)?,
            "{property}"
        );
    }
    Ok(())
}

#[test]
fn paths_are_told(rt: HostRuntime) -> Result<(), Fail> {
    for (program, property, wanted) in PATHS {
        assert!(rt;
            is_said_of_texts(rt.alloc(), program, property, &AMPLE, wanted)?,
            "{property}"
        );
    }
    Ok(())
}

#[test]
fn open_arguments_are_told(rt: HostRuntime) -> Result<(), Fail> {
    for (program, property, wanted) in OPEN_INSIDE {
        assert!(rt;
            is_said_of_texts(rt.alloc(), program, property, &AMPLE, wanted)?,
            "{property}"
        );
    }
    Ok(())
}

#[test]
fn termination_is_told(rt: HostRuntime) -> Result<(), Fail> {
    for (program, property, wanted) in TERMINATION {
        assert!(rt;
            is_said_of_texts(rt.alloc(), program, property, &AMPLE, wanted)?,
            "{property}"
        );
    }
    Ok(())
}

#[test]
fn endless_runs_are_told(rt: HostRuntime) -> Result<(), Fail> {
    for (program, property, wanted) in ENDLESS {
        assert!(rt;
            is_said_of_texts(rt.alloc(), program, property, &AMPLE, wanted)?,
            "{property}"
        );
    }
    Ok(())
}

#[test]
fn equal_arguments_are_told(rt: HostRuntime) -> Result<(), Fail> {
    for (program, property, wanted) in EQUAL {
        assert!(rt;
            is_said_of_texts(rt.alloc(), program, property, &AMPLE, wanted)?,
            "{property}"
        );
    }
    Ok(())
}

#[test]
fn ends_of_ranked_programs_are_told(rt: HostRuntime) -> Result<(), Fail> {
    for (program, property, wanted) in RANKED {
        assert!(rt;
            is_said_of_texts(rt.alloc(), program, property, &AMPLE, wanted)?,
            "{property}"
        );
    }
    Ok(())
}

#[test]
fn what_is_left_has_its_cause(rt: HostRuntime) -> Result<(), Fail> {
    for (program, property, wanted) in LEFT {
        assert!(rt;
            is_said_of_texts(rt.alloc(), program, property, &AMPLE, wanted)?,
            "{property}"
        );
    }
    Ok(())
}

#[test]
fn a_draw_is_told_before_what_is_open(rt: HostRuntime) -> Result<(), Fail> {
    for (program, property, wanted) in DRAWN_LEFT {
        assert!(rt;
            is_said_of_texts(rt.alloc(), program, property, &AMPLE, wanted)?,
            "{property}"
        );
    }
    Ok(())
}

#[test]
fn the_pieces_of_a_region_are_counted(rt: HostRuntime) -> Result<(), Fail> {
    let wanted = Wanted::Pieces(0, 2);
    assert!(rt; is_said_of_texts(rt.alloc(), STEP, "[EX](x == 1 || x == 3)", &ONE, &wanted)?);
    Ok(())
}

#[test]
fn the_splits_of_a_question_are_counted(rt: HostRuntime) -> Result<(), Fail> {
    let property = "x <= 0 || x > 0";
    assert!(rt; is_said_of_texts(rt.alloc(), LOOP, property, &UNSPLIT, &Wanted::Splits)?);
    Ok(())
}

#[test]
fn refused_ranks_are_told(rt: HostRuntime) -> Result<(), Fail> {
    for (program, property, wanted) in UNRANKED {
        assert!(rt;
            is_said_of_texts(rt.alloc(), program, property, &HASTY, wanted)?,
            "{property}"
        );
    }
    Ok(())
}
