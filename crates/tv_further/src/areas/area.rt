use crate::areas::cutting::push_strongest;
use crate::limits::AREAS;
use std::alloc::{AllocError, Global};
use tv_linear::{Row, copies};
use tv_walks::{Effort, Question, denied, may_have_point};

/// The states of a location that meet some rows.
#[derive(Drop)]
pub(crate) struct Area {
    pub location: u32,
    pub rows: Vec<Row>,
}

/// A copy of the area.
pub(crate) fn copy_of(alloc: Global, area: &Area) -> Result<Area, AllocError> {
    let rows = copies(alloc, &area.rows)?;
    let location = area.location;
    Ok(Area { location, rows })
}

/// Each location whole, in their order.
pub(crate) fn whole_locations(question: &Question) -> Result<Vec<Area>, AllocError> {
    let mut areas = Vec::new(question.alloc);
    for location in 0..question.about.locations() {
        let rows = Vec::new(question.alloc);
        areas.push(Area { location, rows })?;
    }
    Ok(areas)
}

/// The rows of the areas at the location, in their order.
pub(crate) fn lists_at(
    alloc: Global,
    areas: &[Area],
    location: u32,
) -> Result<Vec<Vec<Row>>, AllocError> {
    let mut lists = Vec::new(alloc);
    for area in areas {
        if area.location == location {
            lists.push(copies(alloc, &area.rows)?)?;
        }
    }
    Ok(lists)
}

/// The rows of both lists, tightened, the strongest of those with the same coefficients; `None` where no point meets them all.
pub(crate) fn both(
    alloc: Global,
    columns: usize,
    first: &[Row],
    second: &[Row],
    effort: &mut Effort,
) -> Result<Option<Vec<Row>>, AllocError> {
    let mut rows = Vec::new(alloc);
    if !push_strongest(alloc, first, &mut rows)? || !push_strongest(alloc, second, &mut rows)? {
        return Ok(None);
    }
    if may_have_point(alloc, &rows, columns, effort)? {
        Ok(Some(rows))
    } else {
        Ok(None)
    }
}

/// Each list of the first with each of the second, where some point meets both; `None` where there are too many.
pub(crate) fn each_with_each(
    alloc: Global,
    columns: usize,
    first: &[Vec<Row>],
    second: &[Vec<Row>],
    effort: &mut Effort,
) -> Result<Option<Vec<Vec<Row>>>, AllocError> {
    let mut lists = Vec::new(alloc);
    for left in first {
        for right in second {
            if lists.len() > AREAS {
                return Ok(None);
            }
            if let Some(rows) = both(alloc, columns, left, right, effort)? {
                lists.push(rows)?;
            }
        }
    }
    Ok(if lists.len() > AREAS {
        None
    } else {
        Some(lists)
    })
}

/// The row as a list.
pub(crate) fn list_of(alloc: Global, row: Row) -> Result<Vec<Row>, AllocError> {
    let mut list = Vec::new(alloc);
    list.push(row)?;
    Ok(list)
}

/// The denials of the rows, each as a list of its own; `None` where one is too wide.
pub(crate) fn denials(alloc: Global, rows: &[Row]) -> Result<Option<Vec<Vec<Row>>>, AllocError> {
    let mut lists = Vec::new(alloc);
    for row in rows {
        match denied(alloc, row)? {
            None => return Ok(None),
            Some(denial) => lists.push(list_of(alloc, denial)?)?,
        }
    }
    Ok(Some(lists))
}

/// Each list with the denial of each of the rows; `None` where there are too many, or a denial is too wide.
fn each_outside(
    alloc: Global,
    columns: usize,
    lists: &[Vec<Row>],
    rows: &[Row],
    effort: &mut Effort,
) -> Result<Option<Vec<Vec<Row>>>, AllocError> {
    match denials(alloc, rows)? {
        None => Ok(None),
        Some(more) => each_with_each(alloc, columns, lists, &more, effort),
    }
}

/// Lists of rows: one of the lists is met where none of these lists is met whole; `None` where there are too many.
pub(crate) fn outside(
    alloc: Global,
    columns: usize,
    lists: &[Vec<Row>],
    effort: &mut Effort,
) -> Result<Option<Vec<Vec<Row>>>, AllocError> {
    let mut all = Vec::new(alloc);
    all.push(Vec::new(alloc))?;
    for rows in lists {
        match each_outside(alloc, columns, &all, rows, effort)? {
            None => return Ok(None),
            Some(next) => all = next,
        }
    }
    Ok(Some(all))
}

/// Puts an area at the location for each of the lists at the end.
pub(crate) fn push_areas(
    areas: &mut Vec<Area>,
    location: u32,
    lists: Vec<Vec<Row>>,
) -> Result<(), AllocError> {
    for rows in lists {
        areas.push(Area { location, rows })?;
    }
    Ok(())
}

/// The place of an area among those at its location.
pub(crate) fn place_among(areas: &[Area], place: usize) -> u32 {
    let Some(own) = areas.get(place) else {
        return 0;
    };
    let mut count: u32 = 0;
    for (other, area) in areas.iter().enumerate() {
        if other < place && area.location == own.location {
            count = count.saturating_add(1);
        }
    }
    count
}
