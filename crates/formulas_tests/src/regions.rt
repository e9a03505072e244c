//! Where a formula is found to hold.

use crate::claims::{Asks, is_said_of_texts};
use crate::programs::{CHAIN, CLIMBER, HALF, LOOP};
use std::test::Fail;
use tv_cert::Claim;
use tv_farkas::Budget;
use tv_linear::{Region, Row};
use tv_pre::{Gap, Setting, found};

const AMPLE: Budget = Budget {
    pivots: 1000,
    splits: 64,
    disjuncts: 256,
};

/// The values that are tried of the one variable, at location 0.
const TRIED: &[i128] = &[-4, -3, -2, -1, 0, 1, 2, 3, 4];

fn meets(rows: &[Row], x: i128) -> bool {
    for row in rows {
        if row.columns() != 1 || row.holds(&[x]) != Some(true) {
            return false;
        }
    }
    true
}

fn has(region: &Region, x: i128) -> bool {
    for piece in &region.pieces {
        if piece.location == 0 && meets(&piece.poly.rows, x) {
            return true;
        }
    }
    false
}

/// Whether the region has of the values that are tried these alone.
fn has_just(region: &Region, values: &[i128]) -> bool {
    for x in TRIED {
        if has(region, *x) != values.contains(x) {
            return false;
        }
    }
    true
}

/// Of a formula: the values where it is found to hold, how many subformulas it has, and whether its region may lack states.
#[derive(Clone, Copy)]
struct Wanted {
    values: &'static [i128],
    size: u32,
    gap: Option<Gap>,
}

fn is_gap(wanted: &Option<Gap>, gap: &Option<Gap>) -> bool {
    match (wanted, gap) {
        (None, None) => true,
        (Some(Gap::Inexact), Some(Gap::Inexact)) => true,
        (Some(Gap::Open { place: wanted }), Some(Gap::Open { place })) => wanted == place,
        _ => false,
    }
}

impl Asks for Wanted {
    fn is_answered(&self, setting: &Setting, claim: &Claim) -> bool {
        match found(setting, claim.proved_aim()) {
            Ok(found) => {
                has_just(&found.part.region, self.values)
                    && found.size == self.size
                    && is_gap(&self.gap, &found.gap)
            }
            Err(_) => false,
        }
    }
}

/// A program of one variable, a formula, and what is to be found of it.
const EXAMPLES: &[(&str, &str, Wanted)] = &[
    (
        LOOP,
        "[AX](x > 1)",
        Wanted {
            values: &[-4, -3, -2, -1, 0, 3, 4],
            size: 2,
            gap: None,
        },
    ),
    (
        LOOP,
        "[AF](x == 0)",
        Wanted {
            values: &[0, 1, 2, 3, 4],
            size: 3,
            gap: Some(Gap::Open { place: 0 }),
        },
    ),
    (
        LOOP,
        "[AF](x <= 0)",
        Wanted {
            values: TRIED,
            size: 3,
            gap: None,
        },
    ),
    (
        CLIMBER,
        "[EG](x > 0) && x < 3",
        Wanted {
            values: &[1, 2],
            size: 5,
            gap: None,
        },
    ),
    (
        CHAIN,
        "[EF](at(2))",
        Wanted {
            values: &[1, 2, 3, 4],
            size: 3,
            gap: None,
        },
    ),
];

#[test]
fn regions_are_found(rt: HostRuntime) -> Result<(), Fail> {
    for (program, property, wanted) in EXAMPLES {
        assert!(rt;
            is_said_of_texts(rt.alloc(), program, property, &AMPLE, wanted)?,
            "{property}"
        );
    }
    Ok(())
}

#[test]
fn a_step_back_may_not_be_exact(rt: HostRuntime) -> Result<(), Fail> {
    let wanted = Wanted {
        values: &[],
        size: 2,
        gap: Some(Gap::Inexact),
    };
    assert!(rt; is_said_of_texts(rt.alloc(), HALF, "[EX](at(1))", &AMPLE, &wanted)?);
    Ok(())
}
