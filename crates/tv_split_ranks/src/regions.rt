// The nodes of formulas that speak of one state, or say that no step is possible.

use crate::area::{Area, push_areas};
use crate::budget::Spending;
use crate::covers::{Target, cover_into, cover_of, push_cover, targets_at};
use crate::effect::Steps;
use crate::meeting::areas_where;
use crate::nodes::{empty_node, plain_node, push_true};
use crate::stepping::rows_left;
use std::alloc::{AllocError, Global};
use tv_cert::{Aim, Node, Proof};
use tv_linear::{Row, copies};

/// A formula where it is shown to hold: its node, and the areas that its pieces are, in their order.
#[derive(Drop)]
pub(crate) struct Region {
    pub areas: Vec<Area>,
    pub node: Node,
}

/// The region of these areas.
fn region_of(
    steps: &Steps,
    areas: Vec<Area>,
    children: Vec<Node>,
    proofs: Vec<Proof>,
) -> Result<Option<Region>, AllocError> {
    match plain_node(steps, &areas, children, proofs)? {
        None => Ok(None),
        Some(node) => Ok(Some(Region { areas, node })),
    }
}

/// The lists as targets without a fall.
fn list_targets(alloc: Global, lists: &[Vec<Row>]) -> Result<Vec<Target>, AllocError> {
    let mut targets = Vec::new(alloc);
    let mut target: u32 = 0;
    for list in lists {
        let rows = copies(alloc, list)?;
        let fall = 0;
        targets.push(Target { rows, target, fall })?;
        target = target.saturating_add(1);
    }
    Ok(targets)
}

/// The region of a formula of lists of rows.
fn rows_region(
    steps: &Steps,
    lists: &[Vec<Row>],
    areas: Vec<Area>,
    spending: &mut Spending,
) -> Result<Option<Region>, AllocError> {
    let alloc = steps.alloc;
    let targets = list_targets(alloc, lists)?;
    let mut proofs = Vec::new(alloc);
    for area in &areas {
        let cover = cover_into(alloc, steps.columns, &area.rows, &targets, spending)?;
        if !push_cover(cover, &mut proofs)? {
            return Ok(None);
        }
    }
    region_of(steps, areas, Vec::new(alloc), proofs)
}

/// The region of a test of the location.
fn test_region(steps: &Steps, areas: Vec<Area>) -> Result<Option<Region>, AllocError> {
    let mut proofs = Vec::new(steps.alloc);
    for _ in &areas {
        if !push_true(steps.alloc, 0, &mut proofs)? {
            return Ok(None);
        }
    }
    region_of(steps, areas, Vec::new(steps.alloc), proofs)
}

/// Puts the cover of the area by others at its location at the end of the list; whether it was found.
fn push_into(
    steps: &Steps,
    area: &Area,
    others: &[Area],
    spending: &mut Spending,
    proofs: &mut Vec<Proof>,
) -> Result<bool, AllocError> {
    let targets = targets_at(steps.alloc, others, area.location)?;
    let cover = cover_into(steps.alloc, steps.columns, &area.rows, &targets, spending)?;
    push_cover(cover, proofs)
}

/// The nodes of the regions.
fn nodes_of(alloc: Global, regions: Vec<Region>) -> Result<Vec<Node>, AllocError> {
    let mut nodes = Vec::new(alloc);
    for region in regions {
        let Region { areas: _, node } = region;
        nodes.push(node)?;
    }
    Ok(nodes)
}

/// Puts the covers of the area by each of the regions at the end of the list; whether all were found.
fn push_into_each(
    steps: &Steps,
    area: &Area,
    regions: &[Region],
    spending: &mut Spending,
    proofs: &mut Vec<Proof>,
) -> Result<bool, AllocError> {
    for region in regions {
        if !push_into(steps, area, &region.areas, spending, proofs)? {
            return Ok(false);
        }
    }
    Ok(true)
}

/// The region where all of the formulas hold.
fn common_region(
    steps: &Steps,
    regions: Vec<Region>,
    areas: Vec<Area>,
    spending: &mut Spending,
) -> Result<Option<Region>, AllocError> {
    let mut proofs = Vec::new(steps.alloc);
    for area in &areas {
        if !push_into_each(steps, area, &regions, spending, &mut proofs)? {
            return Ok(None);
        }
    }
    let children = nodes_of(steps.alloc, regions)?;
    region_of(steps, areas, children, proofs)
}

/// The areas of all regions, in their order.
fn all_areas(alloc: Global, regions: &[Region]) -> Result<Vec<Area>, AllocError> {
    let mut areas = Vec::new(alloc);
    for region in regions {
        push_areas(alloc, &region.areas, &mut areas)?;
    }
    Ok(areas)
}

/// The region where one of the formulas holds.
fn joined_region(
    steps: &Steps,
    regions: Vec<Region>,
    areas: Vec<Area>,
    spending: &mut Spending,
) -> Result<Option<Region>, AllocError> {
    let others = all_areas(steps.alloc, &regions)?;
    let mut proofs = Vec::new(steps.alloc);
    for area in &areas {
        if !push_into(steps, area, &others, spending, &mut proofs)? {
            return Ok(None);
        }
    }
    let children = nodes_of(steps.alloc, regions)?;
    region_of(steps, areas, children, proofs)
}

/// Puts a proof for each case that it is not taken from the area at the end of the list; whether all were found.
fn push_stopped(
    steps: &Steps,
    area: &Area,
    spending: &mut Spending,
    proofs: &mut Vec<Proof>,
) -> Result<bool, AllocError> {
    for effect in &steps.effects {
        if effect.from == area.location {
            let Some(rows) = rows_left(steps.alloc, effect, &area.rows)? else {
                return Ok(false);
            };
            let cover = cover_of(steps.alloc, effect.width, rows, &[], spending)?;
            if !push_cover(cover, proofs)? {
                return Ok(false);
            }
        }
    }
    Ok(true)
}

/// The region where no step is possible, over a node without pieces.
fn stopped_region(
    steps: &Steps,
    inner: &Aim,
    areas: Vec<Area>,
    spending: &mut Spending,
) -> Result<Option<Region>, AllocError> {
    let mut proofs = Vec::new(steps.alloc);
    for area in &areas {
        if !push_stopped(steps, area, spending, &mut proofs)? {
            return Ok(None);
        }
    }
    let mut children = Vec::new(steps.alloc);
    children.push(empty_node(steps.alloc, inner)?)?;
    region_of(steps, areas, children, proofs)
}

/// The regions of the formulas; `None` where one was not found.
#[cycle(regions)]
fn regions_of(
    steps: &Steps,
    parts: &[Aim],
    spending: &mut Spending,
) -> Result<Option<Vec<Region>>, AllocError> {
    let mut regions = Vec::new(steps.alloc);
    for part in parts {
        match region_where(steps, part, spending)? {
            None => return Ok(None),
            Some(region) => regions.push(region)?,
        }
    }
    Ok(Some(regions))
}

/// The region of the formula; `None` where it speaks of more than one state, or a proof was not found.
#[cycle(regions)]
pub(crate) fn region_where(
    steps: &Steps,
    aim: &Aim,
    spending: &mut Spending,
) -> Result<Option<Region>, AllocError> {
    let Some(areas) = areas_where(steps, aim, true, spending)? else {
        return Ok(None);
    };
    match aim {
        Aim::Rows(lists) => rows_region(steps, lists, areas, spending),
        Aim::Here(_) => test_region(steps, areas),
        Aim::Elsewhere(_) => test_region(steps, areas),
        Aim::EachOf(parts) => match regions_of(steps, parts, spending)? {
            None => Ok(None),
            Some(regions) => common_region(steps, regions, areas, spending),
        },
        Aim::OneOf(parts) => match regions_of(steps, parts, spending)? {
            None => Ok(None),
            Some(regions) => joined_region(steps, regions, areas, spending),
        },
        Aim::After(_, inner) => stopped_region(steps, inner, areas, spending),
        _ => Ok(None),
    }
}
