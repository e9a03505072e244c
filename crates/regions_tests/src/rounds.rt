ghost use Rattle.std.specs.Prelude.{◌≤◌};

use crate::sample::{
    ABOVE_ZERO, ALL, AMPLE, AT_MOST_ZERO, BELOW_ZERO, FOUR, Lists, NOT_BELOW_ZERO, NOWHERE, ONE,
    ONE_OR_THREE, UNSPLIT, is, region_of,
};
use std::alloc::Global;
use std::test::Fail;
use tv_cases::{Cases, cases};
use tv_farkas::{Budget, CoverFault};
use tv_formula::{Path, Shape};
use tv_linear::Region;
use tv_reader::read_program;
use tv_region::{RegionFault, fits};
use tv_rounds::{FixedPoint, RoundFault, Rounds, has_no_draws, rounds};

/// A fixpoint over the cases of a program text of one variable and one location, and the last of its rounds that is asked for.
#[derive(Clone, Copy)]
struct Asked {
    text: &'static str,
    path: Path,
    shape: Shape,
    hold: Lists,
    end: Lists,
    most: u32,
}

const DOWN: &str = "START: 0; FROM: 0; assume(x > 0); x := x - 1; TO: 0;";

const UP_TO_FOUR: &str = "START: 0; FROM: 0; assume(x > 0 && x < 4); x := x + 1; TO: 0;";

/// The cases of the program in the text.
fn cases_of(alloc: Global, text: &str) -> Result<Cases, Fail> {
    if text.len() > 1048576 {
        return Err(Fail::from("too long"));
    }
    let program = read_program(alloc, text.as_bytes())?;
    Ok(cases(alloc, &program)?)
}

/// The rounds of a fixpoint with these sides.
fn rounds_of(
    alloc: Global,
    asked: &Asked,
    hold: &Region,
    end: &Region,
    budget: &Budget,
) -> Result<Result<Rounds, RoundFault>, Fail>
    requires { budget.now.splits ≤ 128 }
{
    let about = cases_of(alloc, asked.text)?;
    if !has_no_draws(&about)
        || !fits(hold, about.variables(), about.locations())
        || !fits(end, about.variables(), about.locations())
    {
        return Err(Fail::from("the sides do not fit"));
    }
    let fix = FixedPoint {
        path: asked.path,
        shape: asked.shape,
        hold,
        end,
    };
    Ok(rounds(alloc, &about, &fix, asked.most, budget))
}

fn answered(
    alloc: Global,
    asked: &Asked,
    budget: &Budget,
) -> Result<Result<Rounds, RoundFault>, Fail>
    requires { budget.now.splits ≤ 128 }
{
    let hold = region_of(alloc, asked.hold)?;
    let end = region_of(alloc, asked.end)?;
    rounds_of(alloc, asked, &hold, &end, budget)
}

/// Whether the rounds are settled at this one, with `added` layers, `pieces` pieces, and of the values from -9 to 9 these alone.
fn is_settled(
    found: &Result<Rounds, RoundFault>,
    round: u32,
    added: usize,
    pieces: usize,
    values: &[i128],
) -> bool {
    match found {
        Ok(Rounds::Settled { region, at, layers }) => {
            *at == round && layers.len() == added && is(region, pieces, values)
        }
        _ => false,
    }
}

/// Whether the rounds are open, with `added` layers, `pieces` pieces, and of the values from -9 to 9 these alone.
fn is_open(
    found: &Result<Rounds, RoundFault>,
    added: usize,
    pieces: usize,
    values: &[i128],
) -> bool {
    match found {
        Ok(Rounds::Open { region, layers }) => {
            layers.len() == added && is(region, pieces, values)
        }
        _ => false,
    }
}

/// `[AF](x < 0)`: a run from a value above ends at 0.
const REACHES_BELOW_ZERO: Asked = Asked {
    text: DOWN,
    path: Path::Every,
    shape: Shape::Until,
    hold: ALL,
    end: BELOW_ZERO,
    most: 3,
};

/// `[EF](x == 4)`, or with the other path `[AF](x == 4)`.
const MAY_REACH_FOUR: Asked = Asked {
    text: UP_TO_FOUR,
    path: Path::Any,
    shape: Shape::Until,
    hold: ALL,
    end: FOUR,
    most: 5,
};

const REACHES_FOUR: Asked = Asked {
    text: UP_TO_FOUR,
    path: Path::Every,
    shape: Shape::Strong,
    hold: ALL,
    end: FOUR,
    most: 3,
};

const BELOW: &[i128] = &[-9, -8, -7, -6, -5, -4, -3, -2, -1];

#[test]
fn rounds_that_grow_are_settled(rt: HostRuntime) -> Result<(), Fail> {
    let alloc = rt.alloc();
    let found = answered(alloc, &REACHES_BELOW_ZERO, &AMPLE)?;
    assert!(rt; is_settled(&found, 0, 0, 1, BELOW));
    for asked in [MAY_REACH_FOUR, REACHES_FOUR] {
        let found = answered(alloc, &asked, &AMPLE)?;
        assert!(rt; is_settled(&found, 3, 3, 4, &[1, 2, 3, 4]));
    }
    Ok(())
}

/// `[AG](x >= 0)`, and with the other path `[EG](x >= 0)`: a run stops at 0.
const STAYS: Asked = Asked {
    text: DOWN,
    path: Path::Every,
    shape: Shape::Weak,
    hold: NOT_BELOW_ZERO,
    end: NOWHERE,
    most: 3,
};

const MAY_STAY: Asked = Asked {
    text: DOWN,
    path: Path::Any,
    shape: Shape::Release,
    hold: NOT_BELOW_ZERO,
    end: NOWHERE,
    most: 1,
};

#[test]
fn rounds_that_shrink_are_settled(rt: HostRuntime) -> Result<(), Fail> {
    for asked in [STAYS, MAY_STAY] {
        let found = answered(rt.alloc(), &asked, &AMPLE)?;
        assert!(rt; is_settled(&found, 0, 0, 1, &[0, 1, 2, 3, 4, 5, 6, 7, 8, 9]));
    }
    Ok(())
}

/// `[AF](x <= 0)`: each round adds one value.
const ENDS: Asked = Asked {
    text: DOWN,
    path: Path::Every,
    shape: Shape::Until,
    hold: ALL,
    end: AT_MOST_ZERO,
    most: 2,
};

/// `[EG](x > 0)`: each round loses one value.
const MAY_STAY_ABOVE: Asked = Asked {
    text: DOWN,
    path: Path::Any,
    shape: Shape::Weak,
    hold: ABOVE_ZERO,
    end: NOWHERE,
    most: 2,
};

#[test]
fn rounds_that_go_on_are_open(rt: HostRuntime) -> Result<(), Fail> {
    let alloc = rt.alloc();
    let found = answered(alloc, &ENDS, &AMPLE)?;
    assert!(rt; is_open(&found, 2, 3, &[-9, -8, -7, -6, -5, -4, -3, -2, -1, 0, 1, 2]));
    let found = answered(alloc, &MAY_STAY_ABOVE, &AMPLE)?;
    assert!(rt; is_open(&found, 0, 1, &[3, 4, 5, 6, 7, 8, 9]));
    Ok(())
}

/// Whether `pieces` pieces at location 0 were refused.
fn are_too_many(found: &Result<Rounds, RoundFault>, pieces: u64) -> bool {
    match found {
        Err(RoundFault::Region { fault }) => match fault {
            RegionFault::Disjuncts { location, count } => *location == 0 && *count == pieces,
            _ => false,
        },
        _ => false,
    }
}

/// Whether a comparison was refused for want of splits.
fn is_unsplit(found: &Result<Rounds, RoundFault>) -> bool {
    match found {
        Err(RoundFault::Cover { fault }) => match fault {
            CoverFault::Splits { path } => path.is_empty(),
            _ => false,
        },
        _ => false,
    }
}

const TWO_ENDS: Asked = Asked {
    text: DOWN,
    path: Path::Any,
    shape: Shape::Until,
    hold: ALL,
    end: ONE_OR_THREE,
    most: 1,
};

#[test]
fn refusals_of_rounds_are_kept(rt: HostRuntime) -> Result<(), Fail> {
    let alloc = rt.alloc();
    let found = answered(alloc, &TWO_ENDS, &ONE)?;
    assert!(rt; are_too_many(&found, 2));
    let found = answered(alloc, &STAYS, &UNSPLIT)?;
    assert!(rt; is_unsplit(&found));
    Ok(())
}
