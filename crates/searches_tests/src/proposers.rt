use crate::programs::{COUNTER, DRAWN, Placed, about, are_placed, candidates};
use std::alloc::Global;
use std::test::Fail;
use tv_candidates::Candidate;
use tv_cases::Cases;
use tv_propose::{Bounds, Differences, GuardRows, Proposer, Scripted};

/// The first candidates that a proposer gives, at most `most` of them.
fn first<P: Proposer>(
    alloc: Global,
    about: &Cases,
    proposer: &mut P,
    most: usize,
) -> Result<Vec<Candidate>, Fail> {
    let mut list = Vec::new(alloc);
    for _ in 0..most {
        match proposer.next(alloc, about)? {
            None => return Ok(list),
            Some(candidate) => list.push(candidate)?,
        }
    }
    Ok(list)
}

const GUARDS: &[Placed] = &[
    (0, &[1], -4),
    (0, &[-1], 5),
    (0, &[-1], 6),
    (0, &[1], -5),
    (1, &[1], -4),
    (1, &[-1], 5),
    (1, &[-1], 6),
    (1, &[1], -5),
    (2, &[1], -4),
    (2, &[-1], 5),
    (2, &[-1], 6),
    (2, &[1], -5),
];

/// The guard on the drawn number is left out.
const UNDRAWN: &[Placed] = &[(0, &[1, -1], 1), (0, &[-1, 1], 0)];

const BOUNDS: &[Placed] = &[
    (0, &[1], 6),
    (0, &[-1], -6),
    (0, &[1], 4),
    (0, &[-1], -4),
    (0, &[1], 1),
    (0, &[-1], -1),
    (0, &[1], 0),
    (0, &[-1], 0),
    (0, &[1], -1),
    (0, &[-1], 1),
    (0, &[1], -4),
    (0, &[-1], 4),
    (0, &[1], -6),
    (0, &[-1], 6),
    (1, &[1], 6),
];

const DIFFERENCES: &[Placed] = &[
    (0, &[1, -1], -1),
    (0, &[1, -1], 0),
    (0, &[1, -1], 1),
    (0, &[-1, 1], -1),
    (0, &[-1, 1], 0),
    (0, &[-1, 1], 1),
];

/// Whether a proposer with this limit gives the list, cut at the limit, and has nothing left then.
fn gives<P: Proposer>(
    alloc: Global,
    text: &str,
    proposer: &mut P,
    wanted: &[Placed],
) -> Result<bool, Fail> {
    let about = about(alloc, text)?;
    let given = first(alloc, &about, proposer, 100)?;
    Ok(are_placed(&given, wanted) && proposer.left() == 0)
}

#[test]
fn guards_are_offered_with_their_denials(rt: HostRuntime) -> Result<(), Fail> {
    let all = gives(rt.alloc(), COUNTER, &mut GuardRows::new(100), GUARDS)?;
    assert!(rt; all);
    let cut = gives(rt.alloc(), COUNTER, &mut GuardRows::new(5), &GUARDS[..5])?;
    assert!(rt; cut);
    Ok(())
}

#[test]
fn guards_on_draws_are_left_out(rt: HostRuntime) -> Result<(), Fail> {
    let given = gives(rt.alloc(), DRAWN, &mut GuardRows::new(100), UNDRAWN)?;
    assert!(rt; given);
    Ok(())
}

#[test]
fn bounds_are_those_of_the_constants(rt: HostRuntime) -> Result<(), Fail> {
    let given = gives(rt.alloc(), COUNTER, &mut Bounds::new(15), BOUNDS)?;
    assert!(rt; given);
    Ok(())
}

#[test]
fn differences_are_of_each_ordered_pair(rt: HostRuntime) -> Result<(), Fail> {
    let given = gives(rt.alloc(), DRAWN, &mut Differences::new(100), DIFFERENCES)?;
    assert!(rt; given);
    let none = gives(rt.alloc(), COUNTER, &mut Differences::new(100), &[])?;
    assert!(rt; none);
    Ok(())
}

#[test]
fn a_script_is_offered_as_it_is(rt: HostRuntime) -> Result<(), Fail> {
    let list = candidates(rt.alloc(), BOUNDS)?;
    let given = gives(rt.alloc(), COUNTER, &mut Scripted::new(list), BOUNDS)?;
    assert!(rt; given);
    Ok(())
}
