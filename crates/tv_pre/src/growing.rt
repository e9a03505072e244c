// The nodes of fixpoints that are to come to an end: until and strong until.

ghost use Rattle.std.specs.Prelude.{◌≡◌, ◌≤◌, ◌<◌, ◌-◌, ◌^◌, ◌⊎◌, ◌++◌, [], ◌∷◌, pos, true, IfOk};
ghost use Rattle.std.specs.Result.{IfErr};
ghost use Rattle.tv_formula.specs.Properties.{Property, fix, none, more};
ghost use Rattle.tv_linear.specs.Arithmetic.{constant_row};
ghost use Rattle.tv_cases.specs.Systems.{cases_of};
ghost use Rattle.tv_known.specs.Rounds.{must_end};
ghost use Rattle.tv_region.specs.Regions.{IsRegion};
ghost use Rattle.tv_pre.specs.Fixed.{AreOver, IsJoined, AtEnd, AsksEnds};
ghost use Rattle.tv_pre.specs.Growing.{IsEverywhere, IsNextLayer, AreNextLayers, AsksLayer, AsksLayers, IsGrown, HasLayer};
ghost use Rattle.tv_pre.specs.Inclusions.{OfPieces};
ghost use Rattle.tv_pre.specs.Parts.{IsPart, AreParts};
ghost use Rattle.tv_pre.specs.Questions.{IsRefusal};

use crate::coming::{Round, everywhere};
use crate::ends::{Ends, hold_of};
use crate::joining::joined;
use crate::marking::push_marked;
use crate::plain::part_of;
use crate::proving::prove_all;
use crate::{Part, Setting, Sides};
use std::alloc::{AllocError, Global};
use tv_cert::{Mark, Marked, Node, Proof};
use tv_farkas::CoverFault;
use tv_linear::{Piece, Region, Row};

/// A node as it grows: how many of its pieces are done, the number of the last round, its region, and its pieces and proofs up to there.
#[derive(Drop)]
pub(crate) struct Grown {
    pub count: usize,
    pub round: u32,
    pub region: Region,
    pub pieces: Vec<Marked>,
    pub proofs: Vec<Proof>,
}

/// The rank that is this number.
fn rank_row(alloc: Global, variables: u32, number: u32) -> Result<Row, AllocError>
    requires { variables < 2 ^ 32 - 1 }
    ensures { IfOk result (λ row. row ≡ constant_row variables (pos number)) }
{
    let zero = Row::zero(alloc, variables)?;
    let row = zero.with_constant(alloc, i128::from(number))?;
    Ok(row)
}

/// The node of the pieces that are done.
fn started(setting: &Setting, sides: &Sides, done: Region) -> Result<Grown, CoverFault>
    requires splits { setting.now.budget.now.splits ≤ 128 }
    requires sides { AreOver (cases_of setting.now.about.now) sides.now }
    requires done { IsRegion (cases_of setting.now.about.now).variables (cases_of setting.now.about.now).locations done }
    requires ends { OfPieces (cases_of setting.now.about.now) done.pieces.items (AtEnd sides.now) }
    ensures region { IfOk result (λ g. g.region ≡ done) }
    ensures grown { IfOk result (IsGrown (cases_of setting.now.about.now) sides.now) }
    ensures refusals { let about = cases_of setting.now.about.now in
        IfErr result (IsRefusal about setting.now.budget.now (AsksEnds sides.now done.pieces.items)) }
{
    let mut proofs = Vec::new(setting.alloc);
    let ends = Ends {
        shape: sides.shape,
        first: sides.first,
        second: sides.second,
    };
    match prove_all(setting, &ends, &done.pieces, &mut proofs) {
        Err(fault) => return Err(fault),
        Ok(()) => {}
    }
    let variables = setting.about.variables();
    let mut pieces = Vec::new(setting.alloc);
    push_marked(
        setting.alloc,
        variables,
        &done.pieces,
        Mark::Done,
        &[],
        &mut pieces,
    )?;
    let list: &[Piece] = &done.pieces;
    Ok(Grown {
        count: list.len(),
        round: 0,
        region: done,
        pieces,
        proofs,
    })
}

/// The node with the pieces of one more layer. It has the proofs of that layer already. There is no room for 2^32 rounds.
pub(crate) fn with_layer(
    setting: &Setting,
    grown: Grown,
    layer: Region,
) -> Result<Grown, AllocError>
    ensures { IfOk result (HasLayer (cases_of setting.now.about.now).variables grown layer) }
{
    let Grown {
        count,
        round,
        region,
        mut pieces,
        proofs,
    } = grown;
    if round == u32::MAX {
        return Err(AllocError);
    }
    let number = round + 1;
    let variables = setting.about.variables();
    let rank = rank_row(setting.alloc, variables, number)?;
    push_marked(
        setting.alloc,
        variables,
        &layer.pieces,
        Mark::Go,
        &[rank],
        &mut pieces,
    )?;
    Ok(Grown {
        count,
        round: number,
        region: joined(region, layer)?,
        pieces,
        proofs,
    })
}

/// The node with one more layer, whose pieces go into those that are there.
fn grown_by(
    setting: &Setting,
    sides: &Sides,
    anywhere: &Region,
    grown: Grown,
    layer: Region,
) -> Result<Grown, CoverFault>
    requires splits { setting.now.budget.now.splits ≤ 128 }
    requires shape { must_end sides.now.shape ≡ true }
    requires sides { AreOver (cases_of setting.now.about.now) sides.now }
    requires anywhere { IsEverywhere (cases_of setting.now.about.now) anywhere.now }
    requires grown { IsGrown (cases_of setting.now.about.now) sides.now grown }
    requires layer { IsNextLayer (cases_of setting.now.about.now) sides.now grown.region.pieces.items layer }
    ensures region { IfOk result (λ g. g.region.pieces.items ≡ grown.region.pieces.items ++ layer.pieces.items) }
    ensures grown { IfOk result (IsGrown (cases_of setting.now.about.now) sides.now) }
    ensures refusals { let about = cases_of setting.now.about.now in
        IfErr result (IsRefusal about setting.now.budget.now (AsksLayer about sides.now grown.region.pieces.items layer)) }
{
    let Grown {
        count,
        round,
        region,
        pieces,
        mut proofs,
    } = grown;
    let list: &[Piece] = &region.pieces;
    let (done, _rest) = list.split_at(count);
    let prover = Round {
        path: sides.path,
        shape: sides.shape,
        hold: hold_of(sides),
        anywhere,
        earlier: &region,
        done,
    };
    match prove_all(setting, &prover, &layer.pieces, &mut proofs) {
        Err(fault) => return Err(fault),
        Ok(()) => {}
    }
    let grown = Grown {
        count,
        round,
        region,
        pieces,
        proofs,
    };
    Ok(with_layer(setting, grown, layer)?)
}

/// The part of an until or a strong until: states that are done, where all end sides hold, and layers of states that go into those before.
///
/// Those of the layers lie where the hold side holds. Each step from them, and at least one, or some step, leads into states that are done or
/// of the layers before. The region has the pieces that are done and then those of the layers, whose rank is the number of the layer. A
/// refusal is of a question whether a piece lies in the region of a side, or how its steps lead.
pub fn until(
    setting: &Setting,
    sides: &Sides,
    children: Vec<Node>,
    done: Region,
    layers: Vec<Region>,
) -> Result<Part, CoverFault>
    requires splits { setting.now.budget.now.splits ≤ 128 }
    requires shape { must_end sides.now.shape ≡ true }
    requires sides { AreOver (cases_of setting.now.about.now) sides.now }
    requires done { IsRegion (cases_of setting.now.about.now).variables (cases_of setting.now.about.now).locations done }
    requires ends { OfPieces (cases_of setting.now.about.now) done.pieces.items (AtEnd sides.now) }
    requires layers { AreNextLayers (cases_of setting.now.about.now) sides.now done.pieces.items layers.items }
    ensures region { IfOk result (λ part. IsJoined (cases_of setting.now.about.now) (done ∷ layers.items) part.region) }
    ensures part { let about = cases_of setting.now.about.now in
        let regions = sides.now.first.now ∷ sides.now.second.now ∷ [] in
        IfOk result (λ part. (f g : Property) → AreParts about (more f (more g none)) regions children.items →
        IsPart about (fix sides.now.path sides.now.shape f g) part.region part.node) }
    ensures refusals { let about = cases_of setting.now.about.now in
        let ends = AsksEnds sides.now done.pieces.items in
        let grown = AsksLayers about sides.now done.pieces.items layers.items in
        IfErr result (IsRefusal about setting.now.budget.now (λ a. ends a ⊎ grown a)) }
{
    let anywhere = everywhere(setting.alloc, setting.about)?;
    let mut grown = match started(setting, sides, done) {
        Err(fault) => return Err(fault),
        Ok(grown) => grown,
    };
    let mut layers = layers;
    'rounds: while !layers.is_empty() {
        let layer = layers.remove(0);
        grown = match grown_by(setting, sides, &anywhere, grown, layer) {
            Err(fault) => return Err(fault),
            Ok(grown) => grown,
        };
    }
    let Grown {
        count: _,
        round: _,
        region,
        pieces,
        proofs,
    } = grown;
    Ok(part_of(setting.alloc, region, pieces, 1, children, proofs)?)
}
