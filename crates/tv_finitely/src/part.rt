// The rounds of one component.

ghost use Rattle.std.specs.Prelude.{◌≡◌, length, IfOk};
ghost use Rattle.std.specs.Result.{IfErr};
ghost use Rattle.tv_cases.specs.Systems.{cases_of};
ghost use Rattle.tv_lexrank.specs.Parts.{AreGrouped};
ghost use Rattle.tv_finitely.specs.Parts.{IsPartedIn, RefusesPartIn};

use crate::rounds::{Rounds, rounds_over};
use std::alloc::Global;
use tv_lexrank::{Component, RankFault, Round, Sorted, sort_cases};

/// A component: its cases, and the rounds that take cases out until none that is left enters.
#[derive(Drop)]
pub struct Part {
    pub sorted: Sorted,
    pub rounds: Vec<Round>,
}

/// A component with its rounds, or a set of its cases that is stuck.
#[derive(Drop)]
pub enum Parted {
    Done(Part),
    Stuck {
        set: Vec<u32>,
        barriers: Vec<Vec<i128>>,
    },
}

/// Takes cases of a component out until none that is left enters.
pub fn part_of(alloc: Global, component: &Component, entering: &[bool]) -> Result<Parted, RankFault>
    requires marked { length entering.now ≡ length (cases_of component.now.about.now).cases }
    requires grouped { AreGrouped (cases_of component.now.about.now) component.now.numbers.now }
    ensures parted { IfOk result (IsPartedIn component.now entering.now) }
    ensures refusals { IfErr result (RefusesPartIn component.now entering.now) }
{
    let sorted = match sort_cases(alloc, component) {
        Ok(sorted) => sorted,
        Err(fault) => return Err(fault),
    };
    let set = match Vec::from_slice(alloc, &sorted.set) {
        Ok(set) => set,
        Err(_) => return Err(RankFault::Memory),
    };
    match rounds_over(alloc, component, entering, set) {
        Err(fault) => Err(fault),
        Ok(Rounds::Enough(rounds)) => Ok(Parted::Done(Part { sorted, rounds })),
        Ok(Rounds::Stuck { left, barriers }) => Ok(Parted::Stuck {
            set: left,
            barriers,
        }),
    }
}
