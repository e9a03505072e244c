// Areas, and the pieces that they are in a certificate.

use std::alloc::{AllocError, Global};
use tv_cert::{Mark, Marked};
use tv_linear::{Row, copies};

/// The states of a location that meet some rows.
#[derive(Drop)]
pub(crate) struct Area {
    pub location: u32,
    pub rows: Vec<Row>,
}

impl Area {
    /// A copy of the area.
    pub(crate) fn copy(&self, alloc: Global) -> Result<Area, AllocError> {
        let rows = copies(alloc, &self.rows)?;
        let location = self.location;
        Ok(Area { location, rows })
    }

    /// The piece that it is; `None` where a row does not fit.
    pub(crate) fn piece(
        &self,
        alloc: Global,
        columns: usize,
        mark: Mark,
        ranks: &[Row],
    ) -> Result<Option<Marked>, AllocError> {
        if columns >= 1 << 31 {
            return Ok(None);
        }
        Marked::from_rows(
            alloc,
            self.location,
            mark,
            columns as u32,
            &self.rows,
            ranks,
        )
    }
}

/// How many of the first areas, up to the one at this place, are at the location.
pub(crate) fn count_before(areas: &[Area], at: usize, location: u32) -> u32 {
    let mut count: u32 = 0;
    for area in areas.iter().take(at) {
        if area.location == location {
            count = count.saturating_add(1);
        }
    }
    count
}

/// The number of the area at this place among those at its location.
pub(crate) fn number_among(areas: &[Area], at: usize) -> u32 {
    match areas.get(at) {
        None => 0,
        Some(own) => count_before(areas, at, own.location),
    }
}

/// Copies of the areas, put at the end of the list.
pub(crate) fn push_areas(
    alloc: Global,
    areas: &[Area],
    list: &mut Vec<Area>,
) -> Result<(), AllocError> {
    for area in areas {
        list.push(area.copy(alloc)?)?;
    }
    Ok(())
}

/// The pieces of the areas, which go on without ranks; `None` where a row does not fit.
pub(crate) fn plain_pieces(
    alloc: Global,
    columns: usize,
    areas: &[Area],
) -> Result<Option<Vec<Marked>>, AllocError> {
    let mut pieces = Vec::new(alloc);
    for area in areas {
        match area.piece(alloc, columns, Mark::Go, &[])? {
            None => return Ok(None),
            Some(piece) => pieces.push(piece)?,
        }
    }
    Ok(Some(pieces))
}
