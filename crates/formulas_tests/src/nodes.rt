//! The node of each shape, made of small regions.

ghost use Rattle.std.specs.Prelude.{◌≡◌, ◌≤◌, ◌∷◌, [], true, IfOk};
ghost use Rattle.tv_formula.specs.declared.tree.Path.TheVariants.{Every};
ghost use Rattle.tv_formula.specs.declared.tree.Shape.TheVariants.{Release, Strong};
ghost use Rattle.tv_cases.specs.Systems.{cases_of};
ghost use Rattle.tv_region.specs.Regions.{IsRegion};
ghost use Rattle.tv_region.specs.StepRegions.{InState, IsBeforeAll};
ghost use Rattle.tv_rounds.specs.Calls.{IsNowhere};
ghost use Rattle.tv_lexrank.specs.Nodes.{IsRankedBy};
ghost use Rattle.tv_pre.specs.Along.{AreAtEnd};
ghost use Rattle.tv_pre.specs.Around.{two_ends};
ghost use Rattle.tv_pre.specs.Fixed.{AreOver};
ghost use Rattle.tv_pre.specs.Inclusions.{OfPieces};

use crate::programs::{EMPTY, STEP, about_of};
use std::alloc::Global;
use std::test::Fail;
use tv_cases::Cases;
use tv_cert::Node;
use tv_farkas::{Budget, CoverFault};
use tv_formula::{Path, Shape};
use tv_lexrank::{Ranked, first_attempt};
use tv_linear::Region;
use tv_pre::{
    Part, RankedCases, Setting, Sides, Test, atom, each_of, ends_by_rounds, ends_ranked,
    never_ends, next, one_of, ranked_until, until, weak,
};
use tv_region::{before_every, both};

const AMPLE: Budget = Budget {
    pivots: 1000,
    splits: 64,
    disjuncts: 256,
};

/// Whether the part has `pieces` pieces, `ranks` ranks and `proofs` proofs.
fn is(part: &Part, pieces: usize, ranks: u32, proofs: usize) -> bool {
    let node = &part.node;
    part.region.pieces.len() == pieces
        && node.pieces.list().len() == pieces
        && node.ranks == ranks
        && node.proofs.len() == proofs
}

/// The part, which is to be made.
fn made(part: Result<Part, CoverFault>) -> Result<Part, Fail> {
    match part {
        Ok(part) => Ok(part),
        Err(_) => Err(Fail::from("the node was refused")),
    }
}

/// No states.
fn nowhere(alloc: Global, about: &Cases) -> Region
    ensures { IsNowhere (cases_of about.now) result }
{
    Region {
        variables: about.variables(),
        locations: about.locations(),
        pieces: Vec::new(alloc),
    }
}

/// The states at a location.
fn here(alloc: Global, about: &Cases, location: u32) -> Result<Part, Fail>
    ensures { let system = cases_of about.now in
        IfOk result (λ part. IsRegion system.variables system.locations part.region) }
{
    let part = atom(alloc, about, &Test::Here(location))?;
    Ok(part)
}

/// The region once more.
fn again(alloc: Global, about: &Cases, region: &Region) -> Result<Region, Fail>
    requires over { IsRegion (cases_of about.now).variables (cases_of about.now).locations region.now }
    ensures over { let system = cases_of about.now in
        IfOk result (λ same. IsRegion system.variables system.locations same) }
    ensures inside { IfOk result (λ same. OfPieces (cases_of about.now) same.pieces.items (InState region.now)) }
{
    let _variables = about.variables();
    match both(alloc, region, region, &AMPLE) {
        Ok(same) => Ok(same),
        Err(_) => Err(Fail::from("the region was refused")),
    }
}

/// A list of one.
fn alone<T: Drop>(alloc: Global, item: T) -> Result<Vec<T>, Fail>
    ensures { IfOk result (λ v. v.items ≡ item ∷ []) }
{
    let mut list = Vec::new(alloc);
    list.push(item)?;
    Ok(list)
}

/// The conjunction of one argument.
fn each_of_one(setting: &Setting, part: Part) -> Result<Part, Fail>
    requires splits { setting.now.budget.now.splits ≤ 128 }
    requires over { IsRegion (cases_of setting.now.about.now).variables (cases_of setting.now.about.now).locations part.region }
{
    let region = again(setting.alloc, setting.about, &part.region)?;
    let regions = alone(setting.alloc, part.region)?;
    let children = alone(setting.alloc, part.node)?;
    Ok(made(each_of(setting, &regions, children, region))?)
}

/// The disjunction of one argument.
fn one_of_one(setting: &Setting, part: Part) -> Result<Part, Fail>
    requires splits { setting.now.budget.now.splits ≤ 128 }
    requires over { IsRegion (cases_of setting.now.about.now).variables (cases_of setting.now.about.now).locations part.region }
{
    let region = again(setting.alloc, setting.about, &part.region)?;
    let regions = alone(setting.alloc, part.region)?;
    let children = alone(setting.alloc, part.node)?;
    Ok(made(one_of(setting, &regions, children, region))?)
}

/// The states all of whose steps lead into the region.
fn before(alloc: Global, about: &Cases, region: &Region) -> Result<Region, Fail>
    requires over { IsRegion (cases_of about.now).variables (cases_of about.now).locations region.now }
    ensures before { IfOk result (λ back. IsBeforeAll (cases_of about.now) region.now back) }
{
    match before_every(alloc, about, region, &AMPLE) {
        Ok(back) => Ok(back),
        Err(_) => Err(Fail::from("the region was refused")),
    }
}

/// The formula on all next states.
fn next_all(setting: &Setting, part: Part) -> Result<Part, Fail>
    requires splits { setting.now.budget.now.splits ≤ 128 }
    requires over { IsRegion (cases_of setting.now.about.now).variables (cases_of setting.now.about.now).locations part.region }
{
    let region = before(setting.alloc, setting.about, &part.region)?;
    let children = alone(setting.alloc, part.node)?;
    Ok(made(next(setting, Path::Every, &part.region, children, region))?)
}

/// Termination at the states without a step.
fn ends_at_once(setting: &Setting) -> Result<Part, Fail>
    requires splits { setting.now.budget.now.splits ≤ 128 }
{
    let _variables = setting.about.variables();
    let none = nowhere(setting.alloc, setting.about);
    let stops = before(setting.alloc, setting.about, &none)?;
    let layers = alone(setting.alloc, stops)?;
    Ok(made(ends_by_rounds(setting, layers))?)
}

/// The states where both arguments hold.
fn both_of(setting: &Setting, sides: &Sides) -> Result<Region, Fail>
    requires sides { AreOver (cases_of setting.now.about.now) sides.now }
    requires shape { two_ends sides.now.shape ≡ true }
    ensures end { IfOk result (AreAtEnd (cases_of setting.now.about.now) sides.now) }
{
    let _variables = setting.about.variables();
    match both(setting.alloc, sides.first, sides.second, setting.budget) {
        Ok(end) => Ok(end),
        Err(_) => Err(Fail::from("the region was refused")),
    }
}

/// The nodes of both arguments.
fn two(alloc: Global, first: Node, second: Node) -> Result<Vec<Node>, Fail> {
    let mut nodes = alone(alloc, first)?;
    nodes.push(second)?;
    Ok(nodes)
}

/// The strong until of two arguments over every run, of the states at its end alone.
fn strong_of(setting: &Setting, first: Part, second: Part) -> Result<Part, Fail>
    requires splits { setting.now.budget.now.splits ≤ 128 }
    requires first { IsRegion (cases_of setting.now.about.now).variables (cases_of setting.now.about.now).locations first.region }
    requires second { IsRegion (cases_of setting.now.about.now).variables (cases_of setting.now.about.now).locations second.region }
{
    let alloc = setting.alloc;
    let children = two(alloc, first.node, second.node)?;
    let sides = Sides {
        path: Path::Every,
        shape: Shape::Strong,
        first: &first.region,
        second: &second.region,
    };
    let end = both_of(setting, &sides)?;
    Ok(made(until(setting, &sides, children, end, Vec::new(alloc)))?)
}

/// The release of two arguments over every run, of the states at its end alone.
fn release_of(setting: &Setting, first: Part, second: Part) -> Result<Part, Fail>
    requires splits { setting.now.budget.now.splits ≤ 128 }
    requires first { IsRegion (cases_of setting.now.about.now).variables (cases_of setting.now.about.now).locations first.region }
    requires second { IsRegion (cases_of setting.now.about.now).variables (cases_of setting.now.about.now).locations second.region }
{
    let alloc = setting.alloc;
    let children = two(alloc, first.node, second.node)?;
    let sides = Sides {
        path: Path::Every,
        shape: Shape::Release,
        first: &first.region,
        second: &second.region,
    };
    let end = both_of(setting, &sides)?;
    let none = nowhere(alloc, setting.about);
    Ok(made(weak(setting, &sides, children, end, none))?)
}

/// The strong until of two arguments by the ranks of the program, of the states at its end alone.
fn ranked_of(
    setting: &Setting,
    first: Part,
    second: Part,
    ranking: &RankedCases,
) -> Result<Part, Fail>
    requires splits { setting.now.budget.now.splits ≤ 128 }
    requires first { IsRegion (cases_of setting.now.about.now).variables (cases_of setting.now.about.now).locations first.region }
    requires second { IsRegion (cases_of setting.now.about.now).variables (cases_of setting.now.about.now).locations second.region }
    requires ranked { IsRankedBy (cases_of setting.now.about.now) [] ranking.now.node.now ranking.now.shown.now }
{
    let alloc = setting.alloc;
    let children = two(alloc, first.node, second.node)?;
    let sides = Sides {
        path: Path::Every,
        shape: Shape::Strong,
        first: &first.region,
        second: &second.region,
    };
    let end = both_of(setting, &sides)?;
    let none = nowhere(alloc, setting.about);
    Ok(made(ranked_until(setting, &sides, children, end, none, ranking))?)
}

/// The same by the ranks that are found of the program.
fn ranked_by_attempt(setting: &Setting, first: Part, second: Part) -> Result<Part, Fail>
    requires splits { setting.now.budget.now.splits ≤ 128 }
    requires first { IsRegion (cases_of setting.now.about.now).variables (cases_of setting.now.about.now).locations first.region }
    requires second { IsRegion (cases_of setting.now.about.now).variables (cases_of setting.now.about.now).locations second.region }
{
    match first_attempt(setting.alloc, setting.about, 1000) {
        Ok(Ranked::Node { node, shown }) => {
            let ranking = RankedCases {
                node: &node,
                shown: &shown,
            };
            Ok(ranked_of(setting, first, second, &ranking)?)
        }
        _ => Err(Fail::from("no ranks")),
    }
}

/// Termination by the ranks that are found of the program.
fn ends_by_attempt(alloc: Global, about: &Cases) -> Result<Part, Fail> {
    match first_attempt(alloc, about, 1000) {
        Ok(Ranked::Node { node, shown: _ }) => {
            let part = ends_ranked(alloc, about, node)?;
            Ok(part)
        }
        _ => Err(Fail::from("no ranks")),
    }
}

#[test]
fn an_atom_has_the_states_of_its_test(rt: HostRuntime) -> Result<(), Fail> {
    let about = about_of(rt.alloc(), STEP)?;
    let part = atom(rt.alloc(), &about, &Test::Elsewhere(0))?;
    assert!(rt; is(&part, 1, 0, 1));
    Ok(())
}

/// Which node is made.
#[derive(Clone, Copy)]
enum Shown {
    EachOf,
    OneOf,
    Next,
    EndsByRounds,
    NeverEnds,
}

/// The node over a program with a step from location 0 to location 1, of the states at location 1.
fn one_made(setting: &Setting, which: Shown) -> Result<Part, Fail>
    requires splits { setting.now.budget.now.splits ≤ 128 }
{
    let part = here(setting.alloc, setting.about, 1)?;
    match which {
        Shown::EachOf => Ok(each_of_one(setting, part)?),
        Shown::OneOf => Ok(one_of_one(setting, part)?),
        Shown::Next => Ok(next_all(setting, part)?),
        Shown::EndsByRounds => Ok(ends_at_once(setting)?),
        Shown::NeverEnds => {
            let none = nowhere(setting.alloc, setting.about);
            Ok(made(never_ends(setting, none))?)
        }
    }
}

/// Nodes, and how many pieces, ranks and proofs each has.
const MADE: &[(Shown, usize, u32, usize)] = &[
    (Shown::EachOf, 1, 0, 1),
    (Shown::OneOf, 1, 0, 1),
    (Shown::Next, 2, 0, 1),
    (Shown::EndsByRounds, 1, 1, 0),
    (Shown::NeverEnds, 0, 0, 0),
];

#[test]
fn nodes_of_one_argument_are_made(rt: HostRuntime) -> Result<(), Fail> {
    let about = about_of(rt.alloc(), STEP)?;
    let setting = Setting {
        alloc: rt.alloc(),
        about: &about,
        budget: &AMPLE,
    };
    for (which, pieces, ranks, proofs) in MADE {
        let part = one_made(&setting, *which)?;
        assert!(rt; is(&part, *pieces, *ranks, *proofs));
    }
    Ok(())
}

/// Which node of a fixpoint is made.
#[derive(Clone, Copy)]
enum Fixed {
    Until,
    Weak,
    RankedUntil,
}

/// The node over a program without steps, of arguments that hold at location 0.
fn two_made(setting: &Setting, which: Fixed) -> Result<Part, Fail>
    requires splits { setting.now.budget.now.splits ≤ 128 }
{
    let first = here(setting.alloc, setting.about, 0)?;
    let second = here(setting.alloc, setting.about, 0)?;
    match which {
        Fixed::Until => Ok(strong_of(setting, first, second)?),
        Fixed::Weak => Ok(release_of(setting, first, second)?),
        Fixed::RankedUntil => Ok(ranked_by_attempt(setting, first, second)?),
    }
}

/// Nodes of fixpoints, and how many pieces, ranks and proofs each has.
const FIXED: &[(Fixed, usize, u32, usize)] = &[
    (Fixed::Until, 1, 1, 2),
    (Fixed::Weak, 1, 0, 2),
    (Fixed::RankedUntil, 1, 1, 2),
];

#[test]
fn nodes_of_fixed_points_are_made(rt: HostRuntime) -> Result<(), Fail> {
    let about = about_of(rt.alloc(), EMPTY)?;
    let setting = Setting {
        alloc: rt.alloc(),
        about: &about,
        budget: &AMPLE,
    };
    for (which, pieces, ranks, proofs) in FIXED {
        let part = two_made(&setting, *which)?;
        assert!(rt; is(&part, *pieces, *ranks, *proofs));
    }
    Ok(())
}

#[test]
fn a_ranked_program_ends(rt: HostRuntime) -> Result<(), Fail> {
    let about = about_of(rt.alloc(), EMPTY)?;
    let part = ends_by_attempt(rt.alloc(), &about)?;
    assert!(rt; is(&part, 1, 1, 0));
    Ok(())
}
