// Rounds over the cases of a component, until none that is left enters.

ghost use Rattle.std.specs.Prelude.{◌≡◌, ◌<◌, ◌^◌, length, IfOk, MatchBool};
ghost use Rattle.std.specs.Result.{IfErr};
ghost use Rattle.tv_cases.specs.Systems.{cases_of};
ghost use Rattle.tv_rank.specs.Given.{AreNumbered};
ghost use Rattle.tv_lexrank.specs.Greedy.{PointsIn};
ghost use Rattle.tv_finitely.specs.Rounds.{SomeEnters, NoneEnters, AreRoundsIn, RefusesRoundsIn};

use std::alloc::Global;
use tv_lexrank::{Component, RankFault, Round, Turn, take_turn, without};
use tv_linear::push_item;

/// What the rounds give.
#[derive(Drop)]
pub enum Rounds {
    /// They take cases out until none that is left enters.
    Enough(Vec<Round>),
    /// Of what they leave some case enters, and no round takes a case out: a barrier for each case that is left.
    Stuck {
        left: Vec<u32>,
        barriers: Vec<Vec<i128>>,
    },
}

/// Whether some case of the set enters.
fn some_enters(entering: &[bool], set: &[u32]) -> bool
    requires { AreNumbered (length entering.now) set.now }
    ensures { MatchBool result (SomeEnters entering.now set.now) (NoneEnters entering.now set.now) }
{
    'places: for place in 0..set.len() {
        if entering[set[place] as usize] {
            return true;
        }
    }
    false
}

/// Takes cases out of the set round by round, until none that is left enters or the set is stuck.
pub fn rounds_over(
    alloc: Global,
    component: &Component,
    entering: &[bool],
    set: Vec<u32>,
) -> Result<Rounds, RankFault>
    requires marked { length entering.now ≡ length (cases_of component.now.about.now).cases }
    requires numbered { AreNumbered (length (cases_of component.now.about.now).cases) set.items }
    requires bounded { length set.items < 2 ^ 32 }
    requires points { PointsIn component.now set.items }
    ensures rounds { IfOk result (AreRoundsIn component.now entering.now set.items) }
    ensures refusals { IfErr result (RefusesRoundsIn component.now entering.now set.items) }
{
    let count = set.len();
    let mut rounds = Vec::new(alloc);
    let mut left = set;
    'rounds: for round in 0..count {
        if !some_enters(entering, &left) {
            return Ok(Rounds::Enough(rounds));
        }
        let turn = match take_turn(alloc, component, &left, round as u32) {
            Ok(turn) => turn,
            Err(fault) => return Err(fault),
        };
        match turn {
            Turn::Stuck(barriers) => return Ok(Rounds::Stuck { left, barriers }),
            Turn::Took(taken) => {
                left = without(alloc, &left, taken.place)?;
                push_item(&mut rounds, taken)?;
            }
        }
    }
    Ok(Rounds::Enough(rounds))
}
