// Covers that are found by the solver, or written at once where one target is entered by rows that stand there already.

use crate::area::Area;
use crate::budget::Spending;
use std::alloc::{AllocError, Global};
use tv_cases::is_number;
use tv_cert::Proof;
use tv_cover::{Covered, are_even, cover, is_even};
use tv_farkas::{Budget, CoverFault};
use tv_linear::{Cover, CoverTree, Poly, Row, copies, copies_of_lists};
use tv_walks::{PIVOTS, SPLITS, all_shown_by};

/// A target of a cover: its rows, and the number and the fall by which it is entered.
#[derive(Drop)]
pub(crate) struct Target {
    pub rows: Vec<Row>,
    pub target: u32,
    pub fall: u32,
}

/// The rows of the targets.
fn polys_of(alloc: Global, columns: u32, targets: &[Target]) -> Result<Vec<Poly>, AllocError> {
    let mut polys = Vec::new(alloc);
    for target in targets {
        let rows = copies(alloc, &target.rows)?;
        polys.push(Poly { columns, rows })?;
    }
    Ok(polys)
}

/// A cover of the rows by the polys; `None` where none was found.
fn covered_by(
    alloc: Global,
    ambient: &Poly,
    polys: &[Poly],
    spending: &mut Spending,
) -> Result<Option<Cover>, AllocError> {
    if ambient.columns >= 1 << 31 || polys.len() >= 1 << 31 || !spending.effort.spend() {
        return Ok(None);
    }
    if !is_even(&ambient.rows, ambient.columns) || !are_even(polys, ambient.columns) {
        return Ok(None);
    }
    let budget = Budget {
        pivots: PIVOTS,
        splits: SPLITS,
        disjuncts: 0,
    };
    match cover(alloc, ambient, polys, &budget) {
        Ok(Covered::Tree(cover)) => Ok(Some(cover)),
        Ok(Covered::Hole(_)) => Ok(None),
        Err(CoverFault::Memory) => Err(AllocError),
        Err(_) => Ok(None),
    }
}

/// The same tree, in which each target is entered by its number and its fall.
fn numbered(alloc: Global, tree: &CoverTree, targets: &[Target]) -> Result<CoverTree, AllocError> {
    match tree {
        CoverTree::Split(row, holds, fails) => {
            let holds = Box::new(alloc, numbered(alloc, holds, targets)?)?;
            let fails = Box::new(alloc, numbered(alloc, fails, targets)?)?;
            Ok(CoverTree::Split(row.copy(alloc)?, holds, fails))
        }
        CoverTree::Empty(multipliers) => {
            Ok(CoverTree::Empty(Vec::from_slice(alloc, multipliers)?))
        }
        CoverTree::Into {
            target,
            fall: _,
            refutations,
        } => {
            let (target, fall) = match targets.get(*target as usize) {
                Some(entered) => (entered.target, entered.fall),
                None => (*target, 0),
            };
            Ok(CoverTree::Into {
                target,
                fall,
                refutations: copies_of_lists(alloc, refutations)?,
            })
        }
    }
}

/// A cover of the rows, over `width` columns, by the targets; `None` where none was found.
pub(crate) fn cover_of(
    alloc: Global,
    width: usize,
    rows: Vec<Row>,
    targets: &[Target],
    spending: &mut Spending,
) -> Result<Option<Cover>, AllocError> {
    let Ok(columns) = u32::try_from(width) else {
        return Ok(None);
    };
    let polys = polys_of(alloc, columns, targets)?;
    let ambient = Poly { columns, rows };
    match covered_by(alloc, &ambient, &polys, spending)? {
        None => Ok(None),
        Some(cover) => Ok(Cover::new(numbered(alloc, cover.tree(), targets)?)),
    }
}

/// Whether a row holds at each point, or stands among the rows, where it may ask for more.
fn stands_in(rows: &[Row], row: &Row) -> bool {
    if is_number(row) {
        return row.constant() <= 0;
    }
    rows.iter().any(|other| {
        other.coefficients() == row.coefficients() && other.constant() >= row.constant()
    })
}

/// Whether each of the rows asked for holds at each point, or stands among the rows, where it may ask for more.
pub(crate) fn all_stand_in(rows: &[Row], asked: &[Row]) -> bool {
    asked.iter().all(|row| stands_in(rows, row))
}

/// The cover by this target alone; `None` where the rows do not show its rows.
fn cover_by_one(
    alloc: Global,
    width: usize,
    rows: &[Row],
    target: &Target,
    spending: &mut Spending,
) -> Result<Option<Cover>, AllocError> {
    match all_shown_by(alloc, rows, &target.rows, width, &mut spending.effort)? {
        None => Ok(None),
        Some(lines) => Ok(Cover::new(CoverTree::Into {
            target: target.target,
            fall: target.fall,
            refutations: lines,
        })),
    }
}

/// The same cover, without a search where the rows of a target stand among the rows.
pub(crate) fn cover_into(
    alloc: Global,
    width: usize,
    rows: &[Row],
    targets: &[Target],
    spending: &mut Spending,
) -> Result<Option<Cover>, AllocError> {
    for target in targets {
        if all_stand_in(rows, &target.rows) {
            return cover_by_one(alloc, width, rows, target, spending);
        }
    }
    cover_of(alloc, width, copies(alloc, rows)?, targets, spending)
}

/// The areas at the location as targets without a fall.
pub(crate) fn targets_at(
    alloc: Global,
    areas: &[Area],
    location: u32,
) -> Result<Vec<Target>, AllocError> {
    let mut targets = Vec::new(alloc);
    let mut target: u32 = 0;
    for area in areas {
        if area.location == location {
            let rows = copies(alloc, &area.rows)?;
            let fall = 0;
            targets.push(Target { rows, target, fall })?;
            target = target.saturating_add(1);
        }
    }
    Ok(targets)
}

/// Puts the cover at the end of the list, where there is one; whether there is.
pub(crate) fn push_cover(
    cover: Option<Cover>,
    proofs: &mut Vec<Proof>,
) -> Result<bool, AllocError> {
    match cover {
        None => Ok(false),
        Some(cover) => {
            proofs.push(Proof::Covered(cover))?;
            Ok(true)
        }
    }
}

/// Puts the cover of the area by the area of the same rows with this number at the end of the list; whether it was found.
pub(crate) fn push_same(
    alloc: Global,
    columns: usize,
    area: &Area,
    number: u32,
    spending: &mut Spending,
    proofs: &mut Vec<Proof>,
) -> Result<bool, AllocError> {
    let target = Target {
        rows: copies(alloc, &area.rows)?,
        target: number,
        fall: 0,
    };
    let cover = cover_by_one(alloc, columns, &area.rows, &target, spending)?;
    push_cover(cover, proofs)
}
