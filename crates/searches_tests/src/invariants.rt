use crate::hostile::Hostile;
use crate::programs::{COUNTER, Placed, about, are_placed, candidates};
use std::alloc::Global;
use std::test::Fail;
use tv_candidates::Candidate;
use tv_cases::Cases;
use tv_farkas::{Budget, CoverFault};
use tv_invariant::{largest_inductive, strengthen};
use tv_propose::{GuardRows, Proposer, Scripted};

const AMPLE: Budget = Budget {
    pivots: 1000,
    splits: 64,
    disjuncts: 256,
};

/// For no basis at all.
const IDLE: Budget = Budget {
    pivots: 0,
    splits: 64,
    disjuncts: 256,
};

/// `x <= 4` falls at the step to 5.
const LISTED: &[Placed] = &[(1, &[1], -5), (1, &[1], -4), (1, &[-1], 0), (0, &[-1], 0)];

const INDUCTIVE: &[Placed] = &[(1, &[1], -5), (1, &[-1], 0)];

/// Of the guards and the false rows: the counter is at most 5, and location 2 is never reached.
const STRENGTHENED: &[Placed] = &[
    (2, &[0], 1),
    (1, &[1], -5),
    (2, &[1], -4),
    (2, &[-1], 5),
    (2, &[-1], 6),
    (2, &[1], -5),
];

/// The greatest inductive part of the list over the program, or its refusal.
fn largest(
    alloc: Global,
    text: &str,
    list: &[Placed],
    budget: &Budget,
) -> Result<Result<Vec<Candidate>, CoverFault>, Fail> {
    let about = about(alloc, text)?;
    let list = candidates(alloc, list)?;
    if budget.splits > 128 || !list.iter().all(|c| c.row.columns() == about.variables()) {
        return Err(Fail::from("the list does not fit"));
    }
    Ok(largest_inductive(alloc, &about, list, budget))
}

fn is_part(part: &Result<Vec<Candidate>, CoverFault>, wanted: &[Placed]) -> bool {
    match part {
        Ok(part) => are_placed(part, wanted),
        Err(_) => false,
    }
}

fn is_unsolved(part: &Result<Vec<Candidate>, CoverFault>) -> bool {
    match part {
        Err(CoverFault::Solve { .. }) => true,
        _ => false,
    }
}

#[test]
fn the_greatest_inductive_part_is_found(rt: HostRuntime) -> Result<(), Fail> {
    let part = largest(rt.alloc(), COUNTER, LISTED, &AMPLE)?;
    assert!(rt; is_part(&part, INDUCTIVE));
    Ok(())
}

#[test]
fn a_budget_without_bases_refuses(rt: HostRuntime) -> Result<(), Fail> {
    let part = largest(rt.alloc(), COUNTER, LISTED, &IDLE)?;
    assert!(rt; is_unsolved(&part));
    Ok(())
}

/// What the proposers strengthen the counter to, and how many of them are left.
fn strengthened(
    alloc: Global,
    proposers: &mut Vec<Box<dyn Proposer>>,
    budget: &Budget,
) -> Result<Result<Vec<Candidate>, CoverFault>, Fail> {
    let about = about(alloc, COUNTER)?;
    if budget.splits > 128 {
        return Err(Fail::from("more than 128 splits"));
    }
    Ok(strengthen(alloc, &about, proposers, budget))
}

#[test]
fn guards_strengthen_the_counter(rt: HostRuntime) -> Result<(), Fail> {
    let mut proposers: Vec<Box<dyn Proposer>> = Vec::new(rt.alloc());
    proposers.push(Box::new(rt.alloc(), GuardRows::new(100))?)?;
    let part = strengthened(rt.alloc(), &mut proposers, &AMPLE)?;
    assert!(rt; is_part(&part, STRENGTHENED) && proposers.is_empty());
    Ok(())
}

/// A row that is offered again and again stays as often.
const REPEATED: &[Placed] = &[(1, &[0], 0), (1, &[0], 0), (1, &[0], 0)];

#[test]
fn rows_that_do_not_fit_are_left_out(rt: HostRuntime) -> Result<(), Fail> {
    let mut proposers: Vec<Box<dyn Proposer>> = Vec::new(rt.alloc());
    proposers.push(Box::new(
        rt.alloc(),
        Hostile {
            left: 9,
            less: 1,
            location: 3,
            columns: 1,
        },
    )?)?;
    proposers.push(Box::new(
        rt.alloc(),
        Hostile {
            left: 9,
            less: 1,
            location: 1,
            columns: 2,
        },
    )?)?;
    let part = strengthened(rt.alloc(), &mut proposers, &AMPLE)?;
    assert!(rt; is_part(&part, &[]) && proposers.is_empty());
    Ok(())
}

#[test]
fn repeated_rows_are_kept_as_often(rt: HostRuntime) -> Result<(), Fail> {
    let mut proposers: Vec<Box<dyn Proposer>> = Vec::new(rt.alloc());
    proposers.push(Box::new(
        rt.alloc(),
        Hostile {
            left: 1,
            less: 1,
            location: 1,
            columns: 1,
        },
    )?)?;
    proposers.push(Box::new(
        rt.alloc(),
        Hostile {
            left: 1000000,
            less: 500000,
            location: 1,
            columns: 1,
        },
    )?)?;
    let part = strengthened(rt.alloc(), &mut proposers, &AMPLE)?;
    assert!(rt; is_part(&part, REPEATED) && proposers.is_empty());
    Ok(())
}

#[test]
fn a_refusal_drops_the_proposers_that_were_asked(rt: HostRuntime) -> Result<(), Fail> {
    let mut proposers: Vec<Box<dyn Proposer>> = Vec::new(rt.alloc());
    let list = candidates(rt.alloc(), LISTED)?;
    proposers.push(Box::new(rt.alloc(), Scripted::new(list))?)?;
    let part = strengthened(rt.alloc(), &mut proposers, &IDLE)?;
    assert!(rt; is_unsolved(&part) && proposers.is_empty());
    Ok(())
}
