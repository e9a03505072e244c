ghost use Rattle.std.specs.Prelude.{ℕ, Option, None, List};
ghost use Rattle.tv_linear.specs.Known.{Known};

use crate::given::{one_row, row};
use std::alloc::Global;
use std::test::Fail;
use tv_linear::{CoverTree, Row, Rows};
use tv_refute::{Frames, Targets, cover_is_met, refutes};

/// No target at all.
#[derive(Drop)]
struct Nowhere;

impl Targets for Nowhere {
    ghost owed = { λ nowhere target fall. None };

    fn are_shown(&self, _: usize, _: &Frames, _: u32, _: u32, _: &[Vec<i64>]) -> bool {
        false
    }
}

/// Two lists of rows that no point meets.
#[derive(Drop)]
struct Place {
    below: Vec<Row>,
    above: Vec<Row>,
}

fn empty_place(alloc: Global) -> Result<Place, Fail> {
    Ok(Place {
        below: one_row(alloc, 1, -5)?,
        above: one_row(alloc, -1, 6)?,
    })
}

fn are_refuted(place: &Place, multipliers: &[i64]) -> bool {
    let end = Frames::End;
    let below = Frames::Rows {
        rows: Rows::Each(&place.below),
        above: &end,
    };
    let both = Frames::Rows {
        rows: Rows::Each(&place.above),
        above: &below,
    };
    refutes(1, &both, multipliers)
}

fn is_met(place: &Place, tree: &CoverTree) -> bool {
    let end = Frames::End;
    let below = Frames::Rows {
        rows: Rows::Each(&place.below),
        above: &end,
    };
    let both = Frames::Rows {
        rows: Rows::Each(&place.above),
        above: &below,
    };
    cover_is_met(1, &both, &Nowhere, tree)
}

#[test]
fn rows_are_refuted(rt: HostRuntime) -> Result<(), Fail> {
    let place = empty_place(rt.alloc())?;
    assert!(rt; are_refuted(&place, &[1, 1]) && !are_refuted(&place, &[1, 2]));
    Ok(())
}

#[test]
fn a_refutation_is_a_cover(rt: HostRuntime) -> Result<(), Fail> {
    let tree = CoverTree::Empty(vec![in rt.alloc(); 1, 1]?);
    let place = empty_place(rt.alloc())?;
    assert!(rt; is_met(&place, &tree));
    Ok(())
}

/// A split at 0 whose second side is not refuted.
fn one_sided(alloc: Global) -> Result<CoverTree, Fail> {
    let holds = Box::new(alloc, CoverTree::Empty(vec![in alloc; 1, 1, 0]?))?;
    let fails = Box::new(alloc, CoverTree::Empty(vec![in alloc; 1, 0, 0]?))?;
    Ok(CoverTree::Split(row(alloc, &[1], 0)?, holds, fails))
}

#[test]
fn both_sides_of_a_split_are_owed(rt: HostRuntime) -> Result<(), Fail> {
    let place = empty_place(rt.alloc())?;
    let tree = one_sided(rt.alloc())?;
    assert!(rt; !is_met(&place, &tree));
    Ok(())
}
