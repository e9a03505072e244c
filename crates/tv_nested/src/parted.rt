// The terms of one component.

ghost use Rattle.std.specs.Prelude.{◌≡◌, ◌∷◌, [], length, IfOk, pos};
ghost use Rattle.std.specs.Result.{IfErr};
ghost use Rattle.tv_cases.specs.Systems.{cases_of};
ghost use Rattle.tv_rank.specs.Given.{lists};
ghost use Rattle.tv_lexrank.specs.Known.{AreBare};
ghost use Rattle.tv_lexrank.specs.Sorting.{IsSortedIn};
ghost use Rattle.tv_lexrank.specs.declared.fault.RankFault.TheVariants.{Solve};
ghost use Rattle.tv_nested.specs.Parted.{IsPartedIn, IsLeftIn, RefusesPartedIn, IsBareName, IsBareFault, IsToldAs, refusal_of};
ghost use Rattle.tv_nested.specs.declared.fault.NestName.TheVariants.{Nest};

use crate::depths::nested_depths;
use crate::part::Part;
use crate::{DepthFault, Depths, Family, NestFault, NestName};
use std::alloc::{AllocError, Global};
use tv_lexrank::{Component, Greedy, RankFault, Round, Sorted, rounds_of, sort_cases};
use tv_linear::push_item;
use tv_rank::Name;
use tv_simplex::SolveFault;

/// A component with its terms, or the set that its rounds leave, over which no 2, 3 or 4 terms are nested, with a barrier for each depth.
#[derive(Drop)]
pub enum Parted {
    Done(Part),
    Stuck {
        set: Vec<u32>,
        barriers: Vec<Vec<i128>>,
    },
}

/// The refusal of a system that is solved on the way to rounds, where no rows are known.
fn told_system(system: Name, fault: SolveFault) -> NestFault
    requires { IsBareName system }
    ensures { IsToldAs (Solve system fault) result }
{
    match system {
        Name::Empty(case) => NestFault::Solve {
            system: NestName::Empty(case),
            fault,
        },
        Name::Rank {
            component,
            round,
            falling,
        } => NestFault::Solve {
            system: NestName::Rank {
                component,
                round,
                falling,
            },
            fault,
        },
        Name::Rows(_) => unreachable!(),
        Name::Later { .. } => unreachable!(),
    }
}

/// A refusal on the way to rounds, where no rows are known.
fn told(fault: RankFault) -> NestFault
    requires { IsBareFault fault }
    ensures { IsToldAs fault result }
{
    match fault {
        RankFault::Solve { system, fault } => told_system(system, fault),
        RankFault::Memory => NestFault::Memory,
        RankFault::Open { .. } => unreachable!(),
        RankFault::Cover { .. } => unreachable!(),
    }
}

/// The refusal of the nested system of a component. Want of memory is no fault of the system: it is reported as such.
fn refusal(component: u32, refused: DepthFault) -> NestFault
    ensures { result ≡ refusal_of (Nest component refused.depth) refused.fault }
{
    let system = NestName::Nest {
        component,
        depth: refused.depth,
    };
    match refused.fault {
        SolveFault::Memory => NestFault::Memory,
        fault => NestFault::Solve { system, fault },
    }
}

/// A component out of which the rounds take all cases with a rational point.
fn emptied(alloc: Global, sorted: Sorted, rounds: Vec<Round>) -> Part
    ensures sorted { result.sorted ≡ sorted }
    ensures rounds { result.rounds ≡ rounds }
    ensures left { result.left.items ≡ [] }
    ensures terms { result.family.terms.items ≡ [] }
    ensures lines { result.family.lines.items ≡ [] }
    ensures scale { result.family.scale ≡ pos 1 }
{
    let family = Family {
        terms: Vec::new(alloc),
        scale: 1,
        lines: Vec::new(alloc),
    };
    Part {
        sorted,
        rounds,
        left: Vec::new(alloc),
        family,
    }
}

/// The three lists in a list.
fn all_three(
    alloc: Global,
    two: Vec<i128>,
    three: Vec<i128>,
    four: Vec<i128>,
) -> Result<Vec<Vec<i128>>, AllocError>
    ensures { IfOk result (λ v. lists v.items ≡ two.items ∷ three.items ∷ four.items ∷ []) }
{
    let mut all = Vec::with_capacity(alloc, 3)?;
    push_item(&mut all, two)?;
    push_item(&mut all, three)?;
    push_item(&mut all, four)?;
    Ok(all)
}

/// The terms that are nested over what the rounds leave of a component.
fn nest_left(
    alloc: Global,
    component: &Component,
    sorted: Sorted,
    rounds: Vec<Round>,
    left: Vec<u32>,
) -> Result<Parted, NestFault>
    requires bare { AreBare component.now.known.now.pieces.items }
    requires sorted { IsSortedIn component.now (length (cases_of component.now.about.now).cases) sorted }
    requires left { IsLeftIn component.now sorted rounds.items left.items }
    ensures parted { IfOk result (IsPartedIn component.now) }
    ensures refusals { IfErr result (RefusesPartedIn component.now) }
{
    match nested_depths(
        alloc,
        component.about,
        &left,
        component.known,
        component.pivots,
    ) {
        Err(refused) => Err(refusal(component.number, refused)),
        Ok(
            Depths::Nested {
                depth: _depth,
                family,
            },
        ) => Ok(Parted::Done(Part {
            sorted,
            rounds,
            left,
            family,
        })),
        Ok(Depths::None { two, three, four }) => {
            let barriers = all_three(alloc, two, three, four)?;
            Ok(Parted::Stuck {
                set: left,
                barriers,
            })
        }
    }
}

/// The terms of a component where no rows are known: the rounds take cases out of those with a rational point, and over what they leave
/// terms are nested.
pub fn part_of(alloc: Global, component: &Component) -> Result<Parted, NestFault>
    requires bare { AreBare component.now.known.now.pieces.items }
    ensures parted { IfOk result (IsPartedIn component.now) }
    ensures refusals { IfErr result (RefusesPartedIn component.now) }
{
    let sorted = match sort_cases(alloc, component) {
        Ok(sorted) => sorted,
        Err(fault) => return Err(told(fault)),
    };
    let set = Vec::from_slice(alloc, &sorted.set)?;
    match rounds_of(alloc, component, set) {
        Err(fault) => Err(told(fault)),
        Ok(Greedy::Emptied(rounds)) => Ok(Parted::Done(emptied(alloc, sorted, rounds))),
        Ok(
            Greedy::Left {
                rounds,
                left,
                barriers: _barriers,
            },
        ) => match nest_left(alloc, component, sorted, rounds, left) {
            Ok(parted) => Ok(parted),
            Err(fault) => Err(fault),
        },
    }
}
