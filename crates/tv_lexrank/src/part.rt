// The ranks of one component.

ghost use Rattle.std.specs.Prelude.{IfOk};
ghost use Rattle.std.specs.Result.{IfErr};
ghost use Rattle.tv_cases.specs.Systems.{cases_of};
ghost use Rattle.tv_known.specs.Ranking.{HasLexicographicRanking};
ghost use Rattle.tv_lexrank.specs.Parts.{IsPartedIn, IsDone, AreGrouped, RefusesPartIn};

use crate::component::Component;
use crate::greedy::{Greedy, rounds_of};
use crate::sorting::{Sorted, sort_cases};
use crate::{RankFault, Round};
use std::alloc::Global;

/// A component: its cases, and the rounds that take out those with a rational point.
#[derive(Drop)]
pub struct Part {
    pub sorted: Sorted,
    pub rounds: Vec<Round>,
}

/// A component with its rounds, or a set of its cases that is stuck.
#[derive(Drop)]
pub enum Parted {
    Done(Part),
    Stuck {
        set: Vec<u32>,
        barriers: Vec<Vec<i128>>,
    },
}

/// Ranks the cases inside a component.
pub fn part_of(alloc: Global, component: &Component) -> Result<Parted, RankFault>
    requires grouped { AreGrouped (cases_of component.now.about.now) component.now.numbers.now }
    ensures parted { IfOk result (λ p. IsPartedIn component.now p) }
    ensures never_stuck { HasLexicographicRanking (cases_of component.now.about.now) → IfOk result IsDone }
    ensures refusals { IfErr result (λ e. RefusesPartIn component.now e) }
{
    let sorted = match sort_cases(alloc, component) {
        Ok(sorted) => sorted,
        Err(fault) => return Err(fault),
    };
    let set = match Vec::from_slice(alloc, &sorted.set) {
        Ok(set) => set,
        Err(_) => return Err(RankFault::Memory),
    };
    match rounds_of(alloc, component, set) {
        Err(fault) => Err(fault),
        Ok(Greedy::Emptied(rounds)) => Ok(Parted::Done(Part { sorted, rounds })),
        Ok(
            Greedy::Left {
                rounds: _rounds,
                left,
                barriers,
            },
        ) => Ok(Parted::Stuck {
            set: left,
            barriers,
        }),
    }
}
