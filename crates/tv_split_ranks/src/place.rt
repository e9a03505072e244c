use crate::area::Area;
use crate::budget::Spending;
use crate::strongest::push_all_strongest;
use std::alloc::{AllocError, Global};
use tv_linear::{Row, copies};
use tv_walks::{denied, may_have_point};

/// How a place is come to.
#[derive(Clone, Copy, PartialEq, Eq)]
pub(crate) enum Origin {
    /// Runs begin there, and each case enters it.
    Any,
    /// Runs begin there, and no case enters it.
    Start,
    /// The case of this number alone enters it.
    Case(usize),
}

/// The states of a location that meet some rows.
#[derive(Drop)]
pub(crate) struct Place {
    pub location: u32,
    pub origin: Origin,
    /// Tightened, each with other coefficients.
    pub rows: Vec<Row>,
    /// The ranks that were found so far.
    pub ranks: Vec<Row>,
    /// Whether no run comes to it, so that it is left out.
    pub is_out: bool,
    /// The name of each place that it was split from, and its own at the end. Two places have a name in common only where both were split
    /// from the place of that name.
    pub names: Vec<usize>,
}

impl Place {
    /// Whether runs may begin there.
    pub(crate) fn is_first(&self) -> bool {
        match self.origin {
            Origin::Any | Origin::Start => true,
            Origin::Case(_) => false,
        }
    }

    /// Whether the case of this number may enter it.
    pub(crate) fn is_entered_by(&self, number: usize) -> bool {
        match self.origin {
            Origin::Any => true,
            Origin::Start => false,
            Origin::Case(other) => other == number,
        }
    }

    /// Its own name.
    pub(crate) fn name(&self) -> usize {
        self.names.last().copied().unwrap_or(0)
    }

    /// How often it was split.
    pub(crate) fn splits(&self) -> usize {
        self.names.len().saturating_sub(1)
    }

    /// A copy of the place.
    pub(crate) fn copy(&self, alloc: Global) -> Result<Place, AllocError> {
        Ok(Place {
            location: self.location,
            origin: self.origin,
            rows: copies(alloc, &self.rows)?,
            ranks: copies(alloc, &self.ranks)?,
            is_out: self.is_out,
            names: Vec::from_slice(alloc, &self.names)?,
        })
    }

    /// The part of the place where these rows are met too, under this name; `None` where it is empty.
    pub(crate) fn part_where(
        &self,
        alloc: Global,
        columns: usize,
        rows: &[Row],
        name: usize,
        spending: &mut Spending,
    ) -> Result<Option<Place>, AllocError> {
        let mut part = self.copy(alloc)?;
        if !push_all_strongest(alloc, rows, &mut part.rows)?
            || !may_have_point(alloc, &part.rows, columns, &mut spending.effort)?
        {
            return Ok(None);
        }
        part.names.push(name)?;
        Ok(Some(part))
    }

    /// The same of one row.
    fn part(
        &self,
        alloc: Global,
        columns: usize,
        row: &Row,
        name: usize,
        spending: &mut Spending,
    ) -> Result<Option<Place>, AllocError> {
        let mut rows = Vec::new(alloc);
        rows.push(row.copy(alloc)?)?;
        self.part_where(alloc, columns, &rows, name, spending)
    }

    /// The area of the place.
    pub(crate) fn area(&self, alloc: Global) -> Result<Area, AllocError> {
        Ok(Area {
            location: self.location,
            rows: copies(alloc, &self.rows)?,
        })
    }

    /// The parts of the place where the row is met and where it is not, under this name and the next; `None` where one of them is empty.
    pub(crate) fn halves(
        &self,
        alloc: Global,
        columns: usize,
        row: &Row,
        name: usize,
        spending: &mut Spending,
    ) -> Result<Option<(Place, Place)>, AllocError> {
        let Some(denial) = denied(alloc, row)? else {
            return Ok(None);
        };
        let Some(met) = self.part(alloc, columns, row, name, spending)? else {
            return Ok(None);
        };
        let next = name.saturating_add(1);
        match self.part(alloc, columns, &denial, next, spending)? {
            None => Ok(None),
            Some(other) => Ok(Some((met, other))),
        }
    }
}

/// The place of these rows; `None` where no point meets one of them.
pub(crate) fn place_of(
    alloc: Global,
    location: u32,
    origin: Origin,
    rows: &[Row],
    name: usize,
) -> Result<Option<Place>, AllocError> {
    let mut kept = Vec::new(alloc);
    if !push_all_strongest(alloc, rows, &mut kept)? {
        return Ok(None);
    }
    let mut names = Vec::new(alloc);
    names.push(name)?;
    Ok(Some(Place {
        location,
        origin,
        rows: kept,
        ranks: Vec::new(alloc),
        is_out: false,
        names,
    }))
}
