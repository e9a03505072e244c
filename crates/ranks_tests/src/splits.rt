ghost use Rattle.std.specs.Prelude.{◌≡◌, length};
ghost use Rattle.tv_cases.specs.Systems.{cases_of};

use crate::programs::program_of;
use std::alloc::Global;
use std::test::Fail;
use tv_cases::Cases;
use tv_finitely::{Split, SplitFault, split};
use tv_formula::termination;
use tv_formula_reader::read_formula;

pub(crate) const COUNTER: &str = "START: 0; FROM: 0; x := x + 1; TO: 0;";

const TWO_PLACES: &str = "START: 0; FROM: 0; TO: 1; FROM: 1; x := x + 1; TO: 0;";

/// The program split by the property, both as texts.
pub(crate) fn split_by(alloc: Global, program: &str, property: &str) -> Result<Split, Fail> {
    if property.len() > 65536 {
        return Err(Fail::from("a long property"));
    }
    let program = program_of(alloc, program)?;
    let property = read_formula(alloc, property.as_bytes(), &program)?;
    match split(alloc, &program, &property) {
        Ok(parts) => Ok(parts),
        Err(_) => Err(Fail::from("no split program")),
    }
}

fn count_of(about: &Cases) -> u32
    ensures { result ≡ length (cases_of about.now).cases }
{
    about.list().len() as u32
}

/// Whether the split program has as many cases as marks are given, and just those with the mark enter.
fn enter(parts: &Split, wanted: &[bool]) -> bool {
    let count = count_of(parts.cases());
    if count as usize != wanted.len() {
        return false;
    }
    for number in 0..count {
        if parts.enters(number) != wanted[number as usize] {
            return false;
        }
    }
    true
}

// `x == 10` is one list of rows, and what is not equal is two.
#[test]
fn the_first_copy_of_each_edge_enters(rt: HostRuntime) -> Result<(), Fail> {
    let parts = split_by(rt.alloc(), COUNTER, "x == 10")?;
    assert!(rt; enter(&parts, &[true, false, false]));
    let parts = split_by(rt.alloc(), TWO_PLACES, "at(1)")?;
    assert!(rt; enter(&parts, &[true, false]));
    let parts = split_by(rt.alloc(), TWO_PLACES, "true")?;
    assert!(rt; enter(&parts, &[true, true]));
    Ok(())
}

#[test]
fn a_property_of_runs_splits_nothing(rt: HostRuntime) -> Result<(), Fail> {
    let program = program_of(rt.alloc(), COUNTER)?;
    let property = termination(rt.alloc(), &program)?;
    assert!(rt;
        matches!(
            split(rt.alloc(), &program, &property),
            Err(SplitFault::Temporal)
        )
    );
    Ok(())
}
