// Covers and choices that are found by the solver.

use crate::areas::area::{Area, lists_at};
use std::alloc::{AllocError, Global};
use tv_cover::{Covered, are_even, cover, is_even};
use tv_farkas::{Budget, CoverFault};
use tv_linear::{Cover, CoverTree, Poly, Row, copies, copies_of_lists};
use tv_walks::{Effort, PIVOTS, SPLITS};

/// A target of a cover: its rows, and the number and the fall by which it is entered.
#[derive(Drop)]
pub(crate) struct Target {
    pub rows: Vec<Row>,
    pub target: u32,
    pub fall: u32,
}

/// The rows of the targets.
fn polys_of(alloc: Global, columns: u32, targets: &[Target]) -> Result<Vec<Poly>, AllocError> {
    let mut polys = Vec::new(alloc);
    for target in targets {
        let rows = copies(alloc, &target.rows)?;
        polys.push(Poly { columns, rows })?;
    }
    Ok(polys)
}

/// A cover of the rows by the polys; `None` where none was found.
fn covered_by(
    alloc: Global,
    ambient: &Poly,
    polys: &[Poly],
    effort: &mut Effort,
) -> Result<Option<Cover>, AllocError> {
    if ambient.columns >= 1 << 31 || polys.len() >= 1 << 31 || !effort.spend() {
        return Ok(None);
    }
    if !is_even(&ambient.rows, ambient.columns) || !are_even(polys, ambient.columns) {
        return Ok(None);
    }
    let budget = Budget {
        pivots: PIVOTS,
        splits: SPLITS,
        disjuncts: 0,
    };
    match cover(alloc, ambient, polys, &budget) {
        Ok(Covered::Tree(cover)) => Ok(Some(cover)),
        Ok(Covered::Hole(_)) => Ok(None),
        Err(CoverFault::Memory) => Err(AllocError),
        Err(_) => Ok(None),
    }
}

/// The same tree, in which each target is entered by its number and its fall.
fn numbered(alloc: Global, tree: &CoverTree, targets: &[Target]) -> Result<CoverTree, AllocError> {
    match tree {
        CoverTree::Split(row, holds, fails) => {
            let holds = Box::new(alloc, numbered(alloc, holds, targets)?)?;
            let fails = Box::new(alloc, numbered(alloc, fails, targets)?)?;
            Ok(CoverTree::Split(row.copy(alloc)?, holds, fails))
        }
        CoverTree::Empty(multipliers) => {
            Ok(CoverTree::Empty(Vec::from_slice(alloc, multipliers)?))
        }
        CoverTree::Into {
            target,
            fall: _,
            refutations,
        } => {
            let (target, fall) = match targets.get(*target as usize) {
                Some(entered) => (entered.target, entered.fall),
                None => (*target, 0),
            };
            Ok(CoverTree::Into {
                target,
                fall,
                refutations: copies_of_lists(alloc, refutations)?,
            })
        }
    }
}

/// A cover of the rows, over `columns` columns, by the targets; `None` where none was found.
pub(crate) fn cover_by(
    alloc: Global,
    columns: usize,
    rows: &[Row],
    targets: &[Target],
    effort: &mut Effort,
) -> Result<Option<Cover>, AllocError> {
    let Ok(columns) = u32::try_from(columns) else {
        return Ok(None);
    };
    let polys = polys_of(alloc, columns, targets)?;
    let rows = copies(alloc, rows)?;
    let ambient = Poly { columns, rows };
    match covered_by(alloc, &ambient, &polys, effort)? {
        None => Ok(None),
        Some(cover) => Ok(Cover::new(numbered(alloc, cover.tree(), targets)?)),
    }
}

/// The areas at the location as targets without a fall.
fn targets_at(alloc: Global, areas: &[Area], location: u32) -> Result<Vec<Target>, AllocError> {
    let mut targets = Vec::new(alloc);
    let mut target: u32 = 0;
    for rows in lists_at(alloc, areas, location)? {
        let fall = 0;
        targets.push(Target { rows, target, fall })?;
        target = target.saturating_add(1);
    }
    Ok(targets)
}

/// A cover of the rows at the location by the areas there.
pub(crate) fn cover_into(
    alloc: Global,
    columns: usize,
    rows: &[Row],
    areas: &[Area],
    location: u32,
    effort: &mut Effort,
) -> Result<Option<Cover>, AllocError> {
    let targets = targets_at(alloc, areas, location)?;
    cover_by(alloc, columns, rows, &targets, effort)
}
