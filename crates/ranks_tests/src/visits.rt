use crate::programs::IDLE;
use crate::splits::{COUNTER, split_by};
use std::alloc::Global;
use std::test::Fail;
use tv_farkas::Budget;
use tv_finitely::{VisitFault, check_finitely, prove_finitely};
use tv_propose::{Bounds, Proposer};

/// The step is a variable, which is 1 from the first edge on.
const STEPS: &str = "START: 0; FROM: 0; y := 1; TO: 1; FROM: 1; x := x + y; TO: 1;";

const DRAWN: &str = "START: 0; FROM: 0; y := nondet(); TO: 0;";

/// The cases that are stuck, or none where visits are found and accepted. All proposers are asked before cases are stuck.
fn stuck_cases(alloc: Global, program: &str, property: &str) -> Result<Option<Vec<u32>>, Fail> {
    let about = split_by(alloc, program, property)?;
    let mut proposers: Vec<Box<dyn Proposer>> = Vec::new(alloc);
    proposers.push(Box::new(alloc, Bounds::new(100))?)?;
    let budget = Budget {
        pivots: 1000,
        splits: 64,
        disjuncts: 256,
    };
    match prove_finitely(alloc, &about, &mut proposers, &budget) {
        Ok(visits) => match check_finitely(&about, &visits) {
            Ok(()) => Ok(None),
            Err(_) => Err(Fail::from("visits that are not accepted")),
        },
        Err(VisitFault::Rank { set, barriers }) => {
            if proposers.is_empty() && barriers.len() == set.len() {
                Ok(Some(set))
            } else {
                Err(Fail::from("proposers or barriers"))
            }
        }
        Err(_) => Err(Fail::from("no answer")),
    }
}

/// Whether it is proved that the property holds only finitely often, by visits that are accepted.
fn is_proved(alloc: Global, program: &str, property: &str) -> Result<bool, Fail> {
    match stuck_cases(alloc, program, property)? {
        None => Ok(true),
        Some(_) => Ok(false),
    }
}

/// Whether just these cases are stuck.
fn is_stuck(alloc: Global, program: &str, property: &str, wanted: &[u32]) -> Result<bool, Fail> {
    match stuck_cases(alloc, program, property)? {
        None => Ok(false),
        Some(set) => {
            let set: &[u32] = &set;
            Ok(set == wanted)
        }
    }
}

// Below 10 the term `9 - x` falls; from 10 on it goes on falling, but then no step enters.
#[test]
fn a_counter_passes_each_number_finitely_often(rt: HostRuntime) -> Result<(), Fail> {
    assert!(rt; is_proved(rt.alloc(), COUNTER, "x < 10")?);
    assert!(rt; is_proved(rt.alloc(), COUNTER, "x == 10")?);
    assert!(rt; is_proved(rt.alloc(), IDLE, "false")?);
    Ok(())
}

// Without the row `y >= 1` the sum may stay as it is.
#[test]
fn visits_are_found_under_rows_that_are_offered(rt: HostRuntime) -> Result<(), Fail> {
    assert!(rt; is_proved(rt.alloc(), STEPS, "x < 10")?);
    Ok(())
}

#[test]
fn what_holds_without_end_is_stuck(rt: HostRuntime) -> Result<(), Fail> {
    assert!(rt; is_stuck(rt.alloc(), IDLE, "true", &[0])?);
    assert!(rt; is_stuck(rt.alloc(), DRAWN, "y > 5", &[0, 1])?);
    Ok(())
}
