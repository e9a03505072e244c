// The depths from 2 to 4, one after the other.

ghost use Rattle.std.specs.Prelude.{◌≡◌, ◌<◌, ◌≤◌, length, IfOk};
ghost use Rattle.std.specs.Result.{IfErr};
ghost use Rattle.tv_cases.specs.Systems.{cases_of};
ghost use Rattle.tv_rank.specs.Given.{AreNumbered};
ghost use Rattle.tv_rank.specs.Sets.{PointsOf};
ghost use Rattle.tv_nested.specs.Depths.{IsBarred, NoneBelow, AreAnswered, IsDepthFault};

use crate::solving::nested_terms;
use crate::{Family, Nesting};
use std::alloc::Global;
use tv_cases::Cases;
use tv_linear::Region;
use tv_simplex::SolveFault;

/// Whether terms of a depth from 2 to 4 are nested over a set of cases.
#[derive(Drop)]
pub enum Depths {
    /// Terms of the least such depth.
    Nested {
        depth: u32,
        family: Family,
    },
    /// A barrier for each depth: no tuple of 2, 3 or 4 terms is nested over the set.
    None {
        two: Vec<i128>,
        three: Vec<i128>,
        four: Vec<i128>,
    },
}

/// The refusal of the nested system of a depth.
#[derive(Drop)]
pub struct DepthFault {
    pub depth: u32,
    pub fault: SolveFault,
}

/// The barrier of the nested system of a depth, or what ends the search there.
fn barrier_at(
    alloc: Global,
    about: &Cases,
    set: &[u32],
    depth: u32,
    known: &Region,
    pivots: u64,
) -> Result<Vec<i128>, Result<Depths, DepthFault>>
    requires numbered { AreNumbered (length (cases_of about.now).cases) set.now }
    requires some { 0 < length set.now }
    requires deep { 2 ≤ depth }
    requires shallow { depth ≤ 4 }
    requires before { NoneBelow (cases_of about.now) known.now.pieces.items set.now depth }
    requires pieces { length known.now.pieces.items ≡ (cases_of about.now).locations }
    requires points { PointsOf (cases_of about.now) known.now.pieces.items set.now }
    ensures barrier { IfOk result (λ y. IsBarred (cases_of about.now) known.now.pieces.items set.now depth y.items) }
    ensures solved { IfErr result (λ r. IfOk r (λ a. AreAnswered (cases_of about.now) known.now.pieces.items set.now a)) }
    ensures refused { IfErr result (λ r. IfErr r (λ e. IsDepthFault (cases_of about.now) known.now.pieces.items set.now pivots e)) }
{
    match nested_terms(alloc, about, set, depth, known, pivots) {
        Err(fault) => Err(Err(DepthFault { depth, fault })),
        Ok(Nesting::Terms(family)) => Err(Ok(Depths::Nested { depth, family })),
        Ok(Nesting::None { barrier }) => Ok(barrier),
    }
}

/// Terms of the least depth from 2 to 4 that are nested over a set of cases, or a barrier for each depth: then no tuple of 2, 3 or 4
/// terms is nested over the set, over the rationals. A refusal names its depth: at no lesser one terms are nested.
pub fn nested_depths(
    alloc: Global,
    about: &Cases,
    set: &[u32],
    known: &Region,
    pivots: u64,
) -> Result<Depths, DepthFault>
    requires numbered { AreNumbered (length (cases_of about.now).cases) set.now }
    requires some { 0 < length set.now }
    requires pieces { length known.now.pieces.items ≡ (cases_of about.now).locations }
    requires points { PointsOf (cases_of about.now) known.now.pieces.items set.now }
    ensures answers { IfOk result (λ a. AreAnswered (cases_of about.now) known.now.pieces.items set.now a) }
    ensures refusals { IfErr result (λ e. IsDepthFault (cases_of about.now) known.now.pieces.items set.now pivots e) }
{
    let two = match barrier_at(alloc, about, set, 2, known, pivots) {
        Ok(two) => two,
        Err(end) => return end,
    };
    let three = match barrier_at(alloc, about, set, 3, known, pivots) {
        Ok(three) => three,
        Err(end) => return end,
    };
    let four = match barrier_at(alloc, about, set, 4, known, pivots) {
        Ok(four) => four,
        Err(end) => return end,
    };
    Ok(Depths::None { two, three, four })
}
