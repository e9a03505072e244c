// The greedy rounds over the cases of a component.

ghost use Rattle.std.specs.Prelude.{◌≡◌, ◌<◌, ◌^◌, ◌++◌, length, IfOk};
ghost use Rattle.std.specs.Result.{IfErr};
ghost use Rattle.tv_cases.specs.Systems.{cases_of};
ghost use Rattle.tv_rank.specs.Given.{AreNumbered};
ghost use Rattle.tv_lexrank.specs.Greedy.{without as spec_without, IsNameIn, ForFirst, IsUnsolvedAt, PointsIn, IsTurnIn, IsGreedyIn, RefusesTurnIn, RefusesGreedyIn};

use crate::component::Component;
use crate::fault::refusal_of;
use crate::{RankFault, Round};
use std::alloc::{AllocError, Global};
use tv_linear::push_item;
use tv_rank::{Found, Name, rank_place};
use tv_simplex::SolveFault;

/// What a round gives: the round that takes a case out, or a barrier for each case that is left.
#[derive(Drop)]
pub enum Turn {
    Took(Round),
    Stuck(Vec<Vec<i128>>),
}

/// What the rounds give: they take every case out, or a set is left with barriers.
#[derive(Drop)]
pub enum Greedy {
    Emptied(Vec<Round>),
    /// The rounds that lead to the set that is left, and a barrier for each case of it.
    Left {
        rounds: Vec<Round>,
        left: Vec<u32>,
        barriers: Vec<Vec<i128>>,
    },
}

/// Puts more numbers at the end of a list.
fn append(numbers: &mut Vec<u32>, more: &[u32]) -> Result<(), AllocError>
    ensures { IfOk result (λ _. numbers.new.items ≡ numbers.old.items ++ more.now) }
{
    'more: for number in more {
        push_item(numbers, *number)?;
    }
    Ok(())
}

/// The list without the item at a place.
#[tactic(auto, using(crate::proofs::Removing::taken_apart))]
pub fn without(alloc: Global, set: &[u32], place: usize) -> Result<Vec<u32>, AllocError>
    requires { place < length set.now }
    ensures { IfOk result (λ v. v.items ≡ spec_without set.now place) }
{
    let (before, _) = set.split_at(place);
    let (_, behind) = set.split_at(place + 1);
    let mut rest = Vec::from_slice(alloc, before)?;
    append(&mut rest, behind)?;
    Ok(rest)
}

/// The name of the ranking system of a set in a round, where this case falls.
fn name_of(
    alloc: Global,
    component: &Component,
    set: &[u32],
    round: u32,
    falling: u32,
) -> Result<Name, AllocError>
    ensures { IfOk result (λ name. IsNameIn component.now set.now round falling name) }
{
    if component.is_bare() {
        return Ok(Name::Rank {
            component: component.number,
            round,
            falling,
        });
    }
    Ok(Name::Later {
        set: Vec::from_slice(alloc, set)?,
        falling,
    })
}

/// The refusal of the ranking system of a set in a round, where the case at a place falls.
fn refusal(
    alloc: Global,
    component: &Component,
    set: &[u32],
    round: u32,
    place: usize,
    fault: SolveFault,
) -> RankFault
    requires place { place < length set.now }
    requires first { ForFirst component.now set.now place }
    requires refused { IsUnsolvedAt component.now set.now place fault }
    ensures { RefusesTurnIn component.now set.now round result }
{
    match name_of(alloc, component, set, round, set[place]) {
        Ok(system) => refusal_of(system, fault),
        Err(_) => RankFault::Memory,
    }
}

/// One round over the set: the first case that a family of terms falls over is taken out.
pub fn take_turn(
    alloc: Global,
    component: &Component,
    set: &[u32],
    round: u32,
) -> Result<Turn, RankFault>
    requires numbered { AreNumbered (length (cases_of component.now.about.now).cases) set.now }
    requires points { PointsIn component.now set.now }
    ensures turn { IfOk result (λ t. IsTurnIn component.now set.now t) }
    ensures refusals { IfErr result (λ e. RefusesTurnIn component.now set.now round e) }
{
    let mut barriers = Vec::new(alloc);
    'places: for place in 0..set.len() {
        match rank_place(
            alloc,
            component.about,
            set,
            place,
            component.known,
            component.pivots,
        ) {
            Err(fault) => return Err(refusal(alloc, component, set, round, place, fault)),
            Ok(Found::None { barrier }) => push_item(&mut barriers, barrier)?,
            Ok(Found::Family { terms, multipliers }) => {
                return Ok(Turn::Took(Round {
                    set: Vec::from_slice(alloc, set)?,
                    place,
                    terms,
                    multipliers,
                }));
            }
        }
    }
    Ok(Turn::Stuck(barriers))
}

/// Takes cases out of the set round by round, until it is empty or stuck.
pub fn rounds_of(alloc: Global, component: &Component, set: Vec<u32>) -> Result<Greedy, RankFault>
    requires numbered { AreNumbered (length (cases_of component.now.about.now).cases) set.items }
    requires bounded { length set.items < 2 ^ 32 }
    requires points { PointsIn component.now set.items }
    ensures greedy { IfOk result (λ g. IsGreedyIn component.now set.items g) }
    ensures refusals { IfErr result (λ e. RefusesGreedyIn component.now set.items e) }
{
    let count = set.len();
    let mut rounds = Vec::new(alloc);
    let mut left = set;
    'rounds: for round in 0..count {
        let turn = match take_turn(alloc, component, &left, round as u32) {
            Ok(turn) => turn,
            Err(fault) => return Err(fault),
        };
        match turn {
            Turn::Stuck(barriers) => {
                return Ok(Greedy::Left {
                    rounds,
                    left,
                    barriers,
                });
            }
            Turn::Took(taken) => {
                left = without(alloc, &left, taken.place)?;
                push_item(&mut rounds, taken)?;
            }
        }
    }
    Ok(Greedy::Emptied(rounds))
}
