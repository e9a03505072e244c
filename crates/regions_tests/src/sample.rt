use std::alloc::Global;
use std::test::Fail;
use tv_farkas::Budget;
use tv_linear::{Piece, Poly, Region, Row};
use tv_region::RegionFault;

pub(crate) const AMPLE: Budget = Budget {
    pivots: 1000,
    splits: 64,
    disjuncts: 256,
};

/// For one piece at a location.
pub(crate) const ONE: Budget = Budget {
    pivots: 1000,
    splits: 64,
    disjuncts: 1,
};

/// Without a split.
pub(crate) const UNSPLIT: Budget = Budget {
    pivots: 1000,
    splits: 0,
    disjuncts: 256,
};

/// Lists of rows over one variable, by coefficient and constant, at location 0.
pub(crate) type Lists = &'static [&'static [(i128, i128)]];

/// `x < 5`.
pub(crate) const BELOW_FIVE: Lists = &[&[(1, -4)]];

/// `x == 1 || x == 3`.
pub(crate) const ONE_OR_THREE: Lists = &[&[(1, -1), (-1, 1)], &[(1, -3), (-1, 3)]];

/// `2 * x <= 7`.
pub(crate) const DOUBLED: Lists = &[&[(2, -7)]];

/// `x == 1`, and `x >= 1 && 2 * x <= 3`, which has other rational points.
pub(crate) const JUST_ONE: Lists = &[&[(1, -1), (-1, 1)]];

pub(crate) const AROUND_ONE: Lists = &[&[(-1, 1), (2, -3)]];

/// `x <= 1 && x >= 3`.
pub(crate) const NEVER: Lists = &[&[(1, -1), (-1, 3)]];

/// `x < 5 && x < 7`, twice, and `x < 3`.
pub(crate) const TWICE: Lists = &[&[(1, -4), (1, -6)], &[(1, -4)], &[(1, -2)]];

pub(crate) const NOWHERE: Lists = &[];

/// One piece without rows.
pub(crate) const ALL: Lists = &[&[]];

/// `x > 0`.
pub(crate) const ABOVE_ZERO: Lists = &[&[(-1, 1)]];

/// `x <= 0`.
pub(crate) const AT_MOST_ZERO: Lists = &[&[(1, 0)]];

/// `x < 0`.
pub(crate) const BELOW_ZERO: Lists = &[&[(1, 1)]];

/// `x >= 0`.
pub(crate) const NOT_BELOW_ZERO: Lists = &[&[(-1, 0)]];

/// `x == 4`.
pub(crate) const FOUR: Lists = &[&[(1, -4), (-1, 4)]];

fn row(alloc: Global, coefficient: i128, constant: i128) -> Result<Row, Fail> {
    let row = Row::new(alloc, &[coefficient], constant)?.ok_or("wide")?;
    Ok(row)
}

fn rows_of(alloc: Global, list: &[(i128, i128)]) -> Result<Vec<Row>, Fail> {
    let mut rows = Vec::new(alloc);
    for (coefficient, constant) in list {
        rows.push(row(alloc, *coefficient, *constant)?)?;
    }
    Ok(rows)
}

/// The region of the lists, over one variable and one location.
pub(crate) fn region_of(alloc: Global, lists: Lists) -> Result<Region, Fail> {
    let mut pieces = Vec::new(alloc);
    for list in lists {
        let rows = rows_of(alloc, *list)?;
        pieces.push(Piece {
            location: 0,
            poly: Poly { columns: 1, rows },
        })?;
    }
    Ok(Region {
        variables: 1,
        locations: 1,
        pieces,
    })
}

fn meets(rows: &[Row], x: i128) -> bool {
    for row in rows {
        if row.columns() != 1 || row.holds(&[x]) != Some(true) {
            return false;
        }
    }
    true
}

fn has(region: &Region, x: i128) -> bool {
    for piece in &region.pieces {
        if piece.location == 0 && meets(&piece.poly.rows, x) {
            return true;
        }
    }
    false
}

/// The values that are tried.
const TRIED: &[i128] = &[
    -9, -8, -7, -6, -5, -4, -3, -2, -1, 0, 1, 2, 3, 4, 5, 6, 7, 8, 9,
];

/// Whether the region has `pieces` pieces, and of the values from -9 to 9 these alone.
pub(crate) fn is(region: &Region, pieces: usize, values: &[i128]) -> bool {
    for x in TRIED {
        if has(region, *x) != values.contains(x) {
            return false;
        }
    }
    region.pieces.len() == pieces
}

/// Whether `pieces` pieces were refused.
pub(crate) fn refused(made: &Result<Region, RegionFault>, pieces: u64) -> bool {
    match made {
        Err(RegionFault::Disjuncts { location, count }) => *location == 0 && *count == pieces,
        _ => false,
    }
}

/// The region, which is to be made.
pub(crate) fn made(region: Result<Region, RegionFault>) -> Result<Region, Fail> {
    match region {
        Ok(region) => Ok(region),
        Err(_) => Err(Fail::from("the region was refused")),
    }
}
